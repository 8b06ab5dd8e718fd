//! A simulator of a flat design: it takes the events of the queue one after the other, in the order of a policy or of the
//! caller's choice.
#![tactic(auto)]

mod bodies;
mod costs;
mod first_queue;
mod first_tallies;
mod offering;
pub mod sim;
pub mod start;
mod taking;

// Passed on to the crates above.
pub use event_tables::rtl_scan;
