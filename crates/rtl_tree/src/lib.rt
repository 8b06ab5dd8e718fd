// Verilog as it is written: tokens, and modules as trees.
#![tactic(auto)]

pub mod literal;
pub mod prepared;
pub mod symbol;
pub mod token;
pub mod tree;
