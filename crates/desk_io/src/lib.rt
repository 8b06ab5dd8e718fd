//! What the desk needs of the outside, each as a trait: a shelf of named files, and a sink that bytes are written to.
//!
//! Each object counts its faults, so that what stands above can say of a failure that the outside caused it. An
//! object in memory also tells what it holds; one over the system tells nothing of it.
#![tactic(auto)]

mod calls;
mod failed;
mod shelf;
mod sink;

pub use calls::Calls;
pub use failed::Failed;
pub use shelf::{FileShelf, MAX_FILE_BYTES, MemoryShelf, Opener, Shelf, ShelfFault, SystemFiles};
pub use sink::{MemorySink, Sink, WriterSink};
