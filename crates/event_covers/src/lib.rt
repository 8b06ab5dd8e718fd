//! Runs from values of which some bits are unknown, beside runs from values that those bits may have.
#![tactic(auto)]

pub mod law;
