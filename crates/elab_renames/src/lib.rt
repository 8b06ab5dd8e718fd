//! Copies of a module's items, in which the names that a generate block declares have the block's before them.
#![tactic(auto)]

mod declarations;
mod expressions;
mod instances;
pub mod items;
pub mod modules;
pub mod naming;
mod processes;
mod statements;
mod targets;

// Passed on to the crates above.
pub use elab_scope;
