//! What every layer says of a text: its bytes, places in it, regions that have no meaning, and want of memory.
#![tactic(auto)]

pub mod dropped;
pub mod memory;
pub mod text;
