//! The files of the desk in the order of their names.
#![tactic(auto)]

mod files;

pub use files::{Files, Ready, file_named, is_named, place_of};
