//! Where no trial can show a difference, as simulation agrees with synthesis.
#![tactic(auto)]

pub mod law;

// Passed on to the crates above.
pub use demo_replay;
