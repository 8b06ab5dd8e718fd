//! The texts that the desk writes.
#![tactic(auto)]

mod demos;
mod findings;
mod tellings;
mod value;

pub use crate::demos::push_replay;
pub use crate::findings::{report, stages_report};
pub use crate::tellings::tell;
pub use crate::value::{push_value, value_text};
