//! What the rules look at in a process, as lists: its statements, expressions, labels and targets.
#![tactic(auto)]

pub mod expressions;
pub mod places;
pub mod reads;
pub mod statements;

// Passed on to the crates above.
pub use rtl_scan;
pub use rtl_scan::rtl_expr;
