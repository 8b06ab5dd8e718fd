//! What a design without findings of either grade is.
#![tactic(auto)]

pub mod law;

// Passed on to the crates above.
pub use check_clean;
