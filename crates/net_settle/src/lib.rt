//! Steps of the netlist that set data inputs, and what its processes without edges, worked out in
//! order, then make; from one solution to the next: what plain connections carry, and when numbers are
//! those after a step.
#![tactic(auto)]

pub mod law;
pub mod settle;
pub mod work;

// Passed on to the crates above.
pub use net_body;
