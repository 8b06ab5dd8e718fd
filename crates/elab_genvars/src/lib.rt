//! Where an item uses a genvar that it may not.
#![tactic(auto)]

pub mod exprs;
pub mod items;
pub mod sorts;
mod stmts;
mod uses;
