//! Findings in their order, and the bits that the rules ask processes for: of one process, and of
//! all of a design, scanned once for all rules.
#![tactic(auto)]

pub mod marks;
pub mod masks;
pub mod order;
pub mod scans;
pub mod sets;

// Passed on to the crates above.
pub use rtl_scan;
