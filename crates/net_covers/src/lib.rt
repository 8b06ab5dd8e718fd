//! Values at rest beside numbers, where some signals may be unknown.
#![tactic(auto)]

pub mod law;
