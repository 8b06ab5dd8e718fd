//! The design of a top module among texts, or the line that says why there is none.
#![tactic(auto)]

mod front;

pub use crate::front::{Built, build, design_of, modules_of};
