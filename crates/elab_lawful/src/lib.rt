//! The flat design that instances without faults make is lawful.
#![tactic(auto)]

pub mod law;

// Passed on to the crates above.
pub use elab_flat;
pub use elab_flat::{elab_links, elab_walk};
pub use elab_laws::elab_scope;
