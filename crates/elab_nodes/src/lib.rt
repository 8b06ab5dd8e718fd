//! How many nodes expressions have in the flat design.
#![tactic(auto)]

pub mod items;
pub mod nodes;
pub mod spare;

// Passed on to the crates above.
pub use elab_scope;
