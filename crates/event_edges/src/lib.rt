//! What steps of a clock or a reset do in every run of the event queue: the turn, and registers at an edge.
#![tactic(auto)]

pub mod law;
