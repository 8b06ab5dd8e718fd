// Preparation: what the parser sees of a list of tokens, and what of the text has no meaning for it.
#![tactic(auto)]

mod asks;
mod chains;
mod comments;
mod conditions;
mod directive;
mod extents;
mod fault;
mod initial;
mod macros;
mod names;
mod notices;
mod reader;
mod region;
mod replace;
mod whole;
mod word;

pub use conditions::{Ask, Conditions, Extent, Span};
pub use fault::PrepFault;
pub use whole::{Preparation, prepare};
