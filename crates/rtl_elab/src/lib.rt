//! The flat design that a top module means, or why there is none.
#![tactic(auto)]

pub mod elaborate;
pub mod whole;

// Passed on to the crates above.
pub use elab_lawful::{elab_flat, elab_links, elab_scope, elab_walk};
