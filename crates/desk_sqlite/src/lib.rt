//! A keeper whose tables stand in a database, as SQL over a file or over memory.
#![tactic(auto)]

mod change;
mod keeper;
mod rows;
mod schema;
mod source;
mod values;

pub use keeper::SqlKeeper;
pub use source::{Adopted, DATABASE, InFile, Source};
