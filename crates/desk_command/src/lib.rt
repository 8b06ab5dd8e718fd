//! The desk's whole call: the commands over sources, and those over the tables that a keeper holds.
#![tactic(auto)]

mod call;
mod ending;
pub mod law;
mod line;
mod report;
mod serving;
mod starting;
mod words;

pub use call::desk;
pub use line::start;

// Passed on to the crates above.
pub use desk_core;
pub use desk_server;
pub use desk_top;
pub use desk_top::{desk_build, event_queue};
