//! Where places stand in the files that were read, as an engineer reads them.
#![tactic(auto)]

pub mod lines;
mod placed_file;
pub mod sources;
