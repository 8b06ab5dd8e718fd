//! Demonstrations have one answer: what trials of a design show for a finding, and what a demonstration shows again.
#![tactic(auto)]

pub mod law;
