//! What holds in every run of the event queue of every lawful design; what a body makes in one run: on
//! what it depends, and how it stands to the paths of the body; and that a policy's run from a state
//! has one end, whatever levels are given where there is no process.
#![tactic(auto)]

pub mod body_law;
pub mod law;
pub mod once_law;
