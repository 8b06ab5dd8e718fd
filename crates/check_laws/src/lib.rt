//! Laws of the rules: what a design without their findings is.
#![tactic(auto)]

pub mod law;
