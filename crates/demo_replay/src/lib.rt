//! Trials at work: the first difference that they show for a finding, and a demonstration that is
//! run again.
#![tactic(auto)]

mod compare;
mod course;
mod fault;
mod firsts;
mod replays;
mod run;
mod setup;
mod start;

pub use crate::fault::{Part, ReplayFault};
pub use crate::firsts::{attach, attach_all};
pub use crate::replays::{legal_trial, replay};
pub use demo_told::{Demo, Shown};

// Passed on to the crates above.
pub use netlist_eval::net_start;
