//! Designs of texts, for tests and benches.
#![tactic(auto)]

ghost use Rattle.std.specs.Prelude.{◌≡◌, ◌≤◌, IfOk, length};
ghost use Rattle.source_file.specs.SourceFiles.{AreShort};
ghost use Rattle.tests_designs.specs.declared.NoDesign.TheVariants as no;

mod transmitter;

use desk_build::{design_of, modules_of};
use rtl_elab::elab_scope::fault::ElabFault;
use rtl_flat::design::Design;
use source_file::SourceFile;
use std::alloc::{AllocError, Global};
use text_ground::memory::Memory;
use text_ground::text::Text;
use thiserror::Error;
pub use transmitter::TRANSMITTER;

/// The most bytes that a text may have.
const MOST_BYTES: usize = 1_048_576;

/// Why a text has no design.
#[derive(Debug, Error, Drop)]
pub enum NoDesign {
    #[error("the text is too long")]
    TooLong,
    #[error("the text isn't read")]
    Unread,
    #[error("the module isn't elaborated")]
    Refused,
    #[error("out of memory")]
    Memory,
}

impl From<AllocError> for NoDesign {
    ghost from_gives = { λ _ e. e ≡ no.Memory };

    fn from(_error: AllocError) -> NoDesign {
        NoDesign::Memory
    }
}

impl From<Memory> for NoDesign {
    ghost from_gives = { λ _ e. e ≡ no.Memory };

    fn from(_error: Memory) -> NoDesign {
        NoDesign::Memory
    }
}

fn files_of(alloc: Global, text: &[u8]) -> Result<Vec<SourceFile>, Memory>
    requires { length text.now ≤ 1048576 }
    ensures { IfOk result (λ files. AreShort files.items) }
{
    let text = Vec::from_slice(alloc, text)?;
    let mut files = Vec::new(alloc);
    files.push(SourceFile::new(alloc, b"text.v", text)?)?;
    Ok(files)
}

/// What elaboration makes of a module of a text, where the text is read.
pub fn elaborated(
    alloc: Global,
    top: &[u8],
    text: &[u8],
) -> Result<Result<Design, ElabFault>, NoDesign> {
    if text.len() > MOST_BYTES {
        return Err(NoDesign::TooLong);
    }
    let files = files_of(alloc, text)?;
    let Ok(read) = modules_of(alloc, &files) else {
        return Err(NoDesign::Unread);
    };
    let top = Text::from_bytes(alloc, top)?;
    Ok(design_of(alloc, &read.modules, &top))
}

/// The design of a module of a text, or why it has none.
pub fn designed(alloc: Global, top: &[u8], text: &[u8]) -> Result<Design, NoDesign> {
    match elaborated(alloc, top, text) {
        Ok(Ok(design)) => Ok(design),
        Ok(Err(_)) => Err(NoDesign::Refused),
        Err(no) => Err(no),
    }
}

// Passed on to the crates above.
pub use desk_build;
