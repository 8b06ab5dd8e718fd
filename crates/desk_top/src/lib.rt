//! The desk's one call: what the words of a command line ask for, over any shelf of files and any sink of bytes.
#![tactic(auto)]

pub mod deliver;
pub mod files;
pub mod generate;
pub mod replay;
pub mod sign;
pub mod simulate;
pub mod stream;
pub mod top;
pub mod vcd;
pub mod words;

// Passed on to the crates above.
pub use desk_build;
pub use desk_runs::event_queue;
