//! Files of steps: which inputs of a design are set, and to what, one step a line.
#![tactic(auto)]

mod cut;
mod file;
mod line;
mod names;
mod value;

pub use crate::file::{Steps, StepsFault, read_steps};
pub use crate::names::top_name;
