//! A step in which a clock, a reset or a gate changes, and where a simulation begins.
#![tactic(auto)]

mod choice;
pub mod law;
mod take;
pub mod turn;

// Passed on to the crates above.
pub use net_settle;
pub use net_settle::net_body;
