//! Value change dumps, as any simulator writes them, in the four-state form.
#![tactic(auto)]

mod body;
mod codes;
mod dump;
mod fault;
mod filling;
mod header;
mod number;
mod part;
mod reading;
mod word;

pub use crate::dump::{Change, Dump, Entry, Frame, Variable};
pub use crate::fault::VcdFault;
pub use crate::filling::filled;
pub use crate::reading::read;
