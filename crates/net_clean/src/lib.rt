//! The netlist of a design without findings of the first grade.
#![tactic(auto)]

pub mod law;
