//! Numbers of expressions, labels that match, and bits that are assigned, as synthesis takes them
//! (IEEE 1364.1-2002 sections 5.1 and 5.5).
#![tactic(auto)]

mod filling;
mod labels;
mod spans;
mod targets;
mod walk;

pub use labels::{meets, some_meet};
pub use spans::Span;
pub use targets::span;
pub use walk::number;
