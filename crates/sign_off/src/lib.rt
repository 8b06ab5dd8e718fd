//! The ruling of a design over all rules, and what a clean design promises.
#![tactic(auto)]

mod promise;
pub mod rule;

pub use rtl_rule::finding::{Finding, Ruling};
