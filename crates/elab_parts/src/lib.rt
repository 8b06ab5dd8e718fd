//! What drives the signals of a module, item by item: the faults, and the processes in the design.
#![tactic(auto)]

pub mod delays;
pub mod judge;
pub mod pauses;
pub mod places;
pub mod tasks;
mod terminals;

// Passed on to the crates above.
pub use elab_body;
pub use elab_body::elab_nodes;
