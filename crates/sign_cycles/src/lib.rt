//! Rounds: from a settled state a step and any run that comes to rest lead to the one solution. Steps of clocks, of resets,
//! of gates of latches and of data: agreement of simulation and synthesis over lists of them, and bring-up.
#![tactic(auto)]

pub mod law;
pub mod round_law;
