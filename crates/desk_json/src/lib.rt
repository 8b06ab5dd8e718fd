//! JSON (RFC 8259) as the desk writes it, without spaces: strings, numbers and digests, behind other text.
#![tactic(auto)]

mod strings;
mod values;

pub use strings::push_quoted;
pub use values::{push_bytes, push_hex, push_number};
