//! The signals of a design, as a value change dump records them.
#![tactic(auto)]

mod keys;
mod recorder;

pub use crate::recorder::Recorder;

// Passed on to the crates above.
pub use vcd_read;
