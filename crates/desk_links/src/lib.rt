//! What a server needs of the outside, each as a trait: a clock of days, links to clients, and a
//! door that they come through.
//!
//! Each object counts its faults, so that what stands above can say of a failure that the outside
//! caused it. An object in memory also tells what it holds; one over the system tells nothing of it.
#![tactic(auto)]

mod clock;
mod door;
mod link;

pub use clock::{Clock, MemoryClock, SystemClock};
pub use door::{Door, MemoryDoor, TcpDoor};
pub use link::{Link, MemoryLink, TcpLink};
