//! Notes on conditions that ask for names which tools define, or other files.
#![tactic(auto)]

mod foreign;
mod names;
mod notes;
mod providers;

pub use foreign::{elsewhere, is_still};
pub use notes::add_tool_notes;
