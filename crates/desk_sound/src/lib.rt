//! Laws of the desk's tables under what it accepts.
#![tactic(auto)]

pub mod law;
