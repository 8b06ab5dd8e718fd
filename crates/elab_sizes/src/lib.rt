//! How much a copy of an item takes.
#![tactic(auto)]

pub mod exprs;
pub mod items;
mod names;
mod stmts;
