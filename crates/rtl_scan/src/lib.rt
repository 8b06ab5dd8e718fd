//! What the processes of a flat design read, write and list on the paths of their bodies.
#![tactic(auto)]

pub mod accesses;
mod arrows;
pub mod bits;
mod branch;
mod complete;
mod expressions;
pub mod feeds;
pub mod graph;
pub mod law;
mod pass;
mod scan;
mod sets;
mod spans;
mod steps;
mod targets;
mod usages;
pub mod values;

pub use branch::{branch_reads, branch_sure, index_reads};
pub use complete::is_complete_by_labels;
pub use feeds::levels;
pub use sets::{lists, reads, selected, sure, writes};
pub use usages::temporaries;

// Passed on to the crates above.
pub use rtl_expr;
