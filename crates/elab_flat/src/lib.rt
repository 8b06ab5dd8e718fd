//! The flat design that instances make.
#![tactic(auto)]

pub mod flat;
pub mod links;
mod regions;
pub mod works;

// Passed on to the crates above.
pub use elab_walk;
pub use elab_walk::elab_links;
