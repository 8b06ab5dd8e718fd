//! Laws of the rules on unknown values: what is marked, and that marks don't decide.
#![tactic(auto)]

pub mod law;
