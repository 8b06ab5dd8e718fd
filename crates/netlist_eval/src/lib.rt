//! A simulator of what synthesis means by a design: numbers that solve its equations, from one step to the next.
#![tactic(auto)]

pub mod basis;
pub mod fault;
pub mod sim;
pub mod step;

// Passed on to the crates above.
pub use infer_regs;
pub use infer_regs::{check_clocks, check_gates, net_list};
pub use net_start;
