//! What is without faults is lawful in the design: targets, sensitivity lists, bodies and connections.
#![tactic(auto)]

pub mod law;

// Passed on to the crates above.
pub use elab_body::elab_scope;
