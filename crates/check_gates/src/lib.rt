//! Latches whose gate is an input of the top, and what signals come from through the ports of instances.
#![tactic(auto)]

mod admitted;
mod fit;
mod form;
pub mod gate;
mod inputs;
mod latches;
pub mod links;
mod lone;
mod marked;
pub mod passed;
pub mod reach;
pub mod tops;
pub mod waits;

pub use admitted::gates;
pub use gate::Gate;
pub use inputs::clocks;
pub use marked::{gate_inputs, gated, is_gate_of};

// Passed on to the crates above.
pub use check_chains;
