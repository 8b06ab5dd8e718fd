//! What is told of a finding: what it is about, and where the simulated design and the netlist
//! differ.
#![tactic(auto)]

mod demo;
mod told;

pub use crate::demo::{Demo, Shown};
pub use crate::told::Told;
