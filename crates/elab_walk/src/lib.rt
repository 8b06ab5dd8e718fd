//! The walk over the instances of a top module, and what is told of them.
#![tactic(auto)]

pub mod extras;
pub mod judge;
pub mod library;
pub mod links;
pub mod places;
pub mod room;
pub mod top;
pub mod trail;
pub mod visit;
pub mod walk;

// Passed on to the crates above.
pub use elab_links;
pub use elab_links::{elab_items, elab_scope};
pub use elab_parts;
