// Constant expressions: whole numbers without a width.
#![tactic(auto)]

pub mod evaluate;
pub mod fault;
pub mod logarithm;
mod number;
pub mod params;
