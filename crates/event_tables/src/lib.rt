//! The tables of a simulator, built once from a flat design: who hears changes of each signal, and who drives it.
#![tactic(auto)]

mod drivers;
mod listeners;
mod rows;
mod tables;

pub use tables::fanout_of;

// Passed on to the crates above.
pub use event_write;
pub use event_write::{event_tally, rtl_scan};
