// Whether tokens spell modules, else the first that none can have there, and how deep they nest: found without recursion.
#![tactic(auto)]

mod depths;
pub mod law;
mod machine;
mod symbols;
mod table;
mod task;

pub use machine::{Surveyed, survey};
pub use symbols::{refused, terminals};
