//! Findings about x, z and what synthesis ignores.
#![tactic(auto)]

mod all;
mod choices;
mod divisors;
mod doubt;
mod dropped;
mod expressions;
mod node_rules;
mod places;
mod selects;

pub use all::check;
pub use choices::{wild_selector, x_optimism};
pub use doubt::doubtful;
pub use dropped::{delay_ignored, initial_ignored, translate_off};

// Passed on to the crates above.
pub use check_chains;
pub use check_gates;
