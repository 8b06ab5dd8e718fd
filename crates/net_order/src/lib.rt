//! In which order processes without edges are worked out.
#![tactic(auto)]

pub mod order;
mod rank;
