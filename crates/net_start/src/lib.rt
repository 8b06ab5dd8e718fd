//! What a simulation of a netlist begins with: which signals are registers, latches and inputs, and their first numbers.
#![tactic(auto)]

pub mod kept;
pub mod start;
pub mod stored;
mod unknown;

pub use unknown::first_unknown;

// Passed on to the crates above.
pub use check_found::rtl_scan;
