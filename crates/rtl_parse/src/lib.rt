//! The parser: a prepared text's modules, or why it has none.
#![tactic(auto)]

mod fault;
pub mod law;
mod plain;
mod whole;

pub use fault::ParseFault;
pub use whole::parse;
