//! The modules of files, from their bytes: tokens, preparation, and parsing, file by file.
#![tactic(auto)]

mod fault;
mod files;
pub mod law;

pub use crate::fault::{FileFault, SourceFault};
pub use crate::files::{FilesRead, read_files};
pub use rtl_prep;
pub use rtl_prep::Conditions;
