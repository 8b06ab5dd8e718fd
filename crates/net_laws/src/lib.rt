//! Where simulated values are synthesised numbers: conditions on expressions and bodies, and what follows from them.
#![tactic(auto)]

pub mod law;
