//! Every run of the event queue of a clean design comes to rest, in whatever order events are taken, and by level every step
//! does so within its budget.
#![tactic(auto)]

pub mod law;
