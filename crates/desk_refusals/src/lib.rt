//! The line that says why sources are refused: `refused NAME`, the text that the fault carries, and its place.
#![tactic(auto)]

mod design;
mod file;
pub mod law;
mod line;
mod reason;
mod word;

pub use crate::design::design_refusal;
pub use crate::file::source_refusal;

// Passed on to the crates above.
pub use elab_scope;
