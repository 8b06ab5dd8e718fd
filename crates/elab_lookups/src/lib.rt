//! A name that is looked up among modules, and what it means.
#![tactic(auto)]

mod look_up;
mod meaning;

pub use look_up::LookUp;
pub use meaning::resolve;

// Passed on to the crates above.
pub use elab_links;
