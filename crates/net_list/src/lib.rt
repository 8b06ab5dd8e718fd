//! What inference finds in a design: registers with their clocks and resets, and the blocks between them.
#![tactic(auto)]

pub mod alone;
pub mod blocks;
pub mod clocked;
pub mod drivers;
pub mod fault;
pub mod law;
pub mod netlist;
pub mod registers;

// Passed on to the crates above.
pub use chain_laws::check_chains;
pub use check_assign::{check_found, rtl_scan};
pub use check_clocks;
pub use check_clocks::check_gates;
