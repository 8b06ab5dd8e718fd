//! What a simulator keeps of a flat design, its writes, and the bodies that make them.
#![tactic(auto)]

pub mod bodies;
pub mod changes;
pub mod choices;
pub mod entries;
pub mod fanout;
pub mod listener;
pub mod queue_state;
pub mod spans;
pub mod statements;
pub mod stores;
pub mod waking;

// Passed on to the crates above.
pub use event_tally;
pub use rtl_scan;
