//! The server: what it hears and says on a connection, and how it serves the links of a door.
#![tactic(auto)]

mod exchange;
mod give;
mod hear;
pub mod law;
mod serve;

pub use exchange::{Served, connection};
pub use serve::serve_links;
