//! The expressions of the items of a module as they are used in an instance, and what other tools read otherwise in
//! them.
#![tactic(auto)]

mod bodies;
pub mod items;
mod targets;

// Passed on to the crates above.
pub use elab_standard;
pub use elab_standard::elab_walk;
pub use elab_standard::elab_walk::{elab_items, elab_links, elab_scope};
