//! The files of the desk with what was read of them, and what they say of a module.
#![tactic(auto)]

mod db;
mod rules;

pub use db::{Answer, Db};
pub use desk_files::Ready;

// Passed on to the crates above.
pub use desk_verdict;
