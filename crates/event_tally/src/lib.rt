//! How many drivers of a bit are at 0, at 1 and at x, and what they give it together.
#![tactic(auto)]

pub mod rows;
pub mod tally;
