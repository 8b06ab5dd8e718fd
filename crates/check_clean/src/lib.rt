//! What a design without findings of the first grade is.
#![tactic(auto)]

pub mod law;

// Passed on to the crates above.
pub use check_all;
pub use check_laws;
