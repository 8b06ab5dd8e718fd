//! What stands in the bodies of replies: objects and lists in JSON, and why a request is refused.
#![tactic(auto)]

mod files;
mod listing;
mod reach;
mod refusals;
mod signoffs;
mod waivers;

pub use files::{edited_body, file_body, name_body};
pub use listing::files_body;
pub use reach::reach_body;
pub use refusals::{conflict, not_found, refused_with};
pub use signoffs::{granted_body, id_body, signoffs_body};
pub use waivers::waivers_body;
