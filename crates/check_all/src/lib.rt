//! All findings of a design, over all rules.
#![tactic(auto)]

mod all;
pub mod law;

pub use all::check;

// Passed on to the crates above.
pub use check_assign;
pub use check_case;
pub use check_clocks;
pub use check_clocks::check_gates;
pub use check_readings;
pub use check_sense;
pub use check_sense::check_found;
pub use check_unknown;
