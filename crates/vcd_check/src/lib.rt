//! A value change dump beside synthesised hardware: where the dump first departs from it.
#![tactic(auto)]

mod compares;
mod follow;
mod marks;
mod setup;
mod sight;
mod verdict;

pub use crate::compares::compare;
pub use crate::verdict::{CompareFault, Verdict};

// Passed on to the crates above.
pub use vcd_signals::vcd_read;
