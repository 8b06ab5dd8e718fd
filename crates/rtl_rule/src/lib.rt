//! The rules, their table, findings, and the keys by which findings are known across edits.
#![tactic(auto)]

pub mod finding;
pub mod rule;
pub mod spots;
