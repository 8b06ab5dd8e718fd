//! What names stand for in a module, and the faults, the sizes and the trees of its expressions.
#![tactic(auto)]

pub mod context;
pub mod covers;
pub mod fault;
pub mod judge;
pub mod known;
mod literals;
pub mod names;
pub mod operators;
pub mod own;
pub mod pieces;
pub mod powers;
pub mod rules;
pub mod selects;
pub mod size;
pub mod targets;
pub mod widths;
