//! The file that names a demonstration of a design.
#![tactic(auto)]

mod file;

pub use crate::file::{Malformed, read_file};
