//! Simulation from unknown values beside synthesis: each known bit is the number's, whatever the unknown bits are taken for.
#![tactic(auto)]

pub mod law;
