//! What a simulator shows of a file of steps.
#![tactic(auto)]

mod lines;
mod run;

pub use crate::run::{Progress, Run};

// Passed on to the crates above.
pub use event_queue;
