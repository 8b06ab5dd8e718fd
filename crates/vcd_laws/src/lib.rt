//! A dump beside synthesised hardware has one verdict, or one reason why it has none.
#![tactic(auto)]

pub mod law;
