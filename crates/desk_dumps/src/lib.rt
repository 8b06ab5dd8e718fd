//! What the desk writes of a recorded dump.
#![tactic(auto)]

mod lines;

pub use crate::lines::{compare_line, read_line, verdict_line};
