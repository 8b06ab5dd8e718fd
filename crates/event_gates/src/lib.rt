//! What steps of a latch's gate do in every run of the event queue.
#![tactic(auto)]

pub mod law;

// Passed on to the crates above.
pub use event_edges;
