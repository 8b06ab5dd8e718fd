//! What the desk keeps, held in memory: what a request comes to by it, and changes of it that a
//! keeper has made first.
#![tactic(auto)]

mod decision;
mod files;
pub mod law;
mod limits;
mod records;
mod revoke;
mod settle;

pub use decision::Decision;
pub use files::{json_answer, kept_row};
pub use limits::{full_refusal, full_table};
pub use records::{Records, Stop};
