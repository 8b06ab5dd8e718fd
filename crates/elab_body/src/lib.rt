//! The bodies of `always` and their sensitivity lists: their faults, and what they are in the design.
#![tactic(auto)]

pub mod acts;
pub mod body;
pub mod branches;
pub mod events;
pub mod head;
pub mod parts;
pub mod progress;

// Passed on to the crates above.
pub use elab_nodes;
pub use elab_nodes::elab_scope;
