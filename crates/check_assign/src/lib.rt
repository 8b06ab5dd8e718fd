//! Findings about assignments and drivers.
#![tactic(auto)]

mod drivers;
mod kinds;
mod latches;
mod lists;
mod literals;
mod loops;
mod targets;

pub use kinds::{blocking_state, mixed_assign, nonblocking_comb};
pub use latches::latch_inferred;
pub use lists::check;
pub use literals::tristate;
pub use loops::comb_loop;

// Passed on to the crates above.
pub use check_gates;
pub use check_loops::{check_found, rtl_expr, rtl_scan};
pub use check_parts;
