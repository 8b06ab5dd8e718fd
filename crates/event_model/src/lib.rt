//! What a simulator does with a flat design: the event queue of IEEE 1364-2001 clause 5, and the orders in which it is
//! gone through.
#![tactic(auto)]

pub mod law;
pub mod policy;
pub mod setting;
