//! What the chain of resets of a clocked process is.
#![tactic(auto)]

pub mod law;

// Passed on to the crates above.
pub use check_chains;
