//! Values at rest: they are numbers that solve the equations of a design, and the only ones.
#![tactic(auto)]

pub mod law;
