//! Four-valued evaluation of sized expressions (IEEE 1364-2001 section 4.1), and of the labels of a
//! case (section 9.5).
#![tactic(auto)]

mod labels;
pub mod operators;
pub mod places;
pub mod selects;
mod walk;

pub use labels::is_match;
pub use walk::eval;
