//! The declarations of a module: what its names stand for, its signals, and what is wrong with them.
#![tactic(auto)]

pub mod claims;
pub mod declare;
pub mod drafts;
pub mod entries;
pub mod joins;
pub mod overrides;
pub mod reach;
pub mod roster;
pub mod signals;

// Passed on to the crates above.
pub use elab_scope;
