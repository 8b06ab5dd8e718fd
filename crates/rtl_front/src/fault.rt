//! Why a file has no modules.

use rtl_parse::ParseFault;
use rtl_prep::PrepFault;
use rtl_text::LexFault;
use std::alloc::{AllocError, AllocFailed};
use text_ground::memory::Memory;
use thiserror::Error;

/// Why a file's text has no modules.
#[derive(Debug, Drop, Error)]
pub enum FileFault {
    /// It doesn't split into tokens.
    #[error(transparent)]
    Lex(LexFault),
    /// It can't be prepared.
    #[error(transparent)]
    Prepare(PrepFault),
    /// It isn't parsed.
    #[error(transparent)]
    Parse(ParseFault),
}

/// The first of some files that has no modules, by its position from 0, and why.
#[derive(Debug, Drop, Error)]
pub enum SourceFault {
    #[error("file {0}: {1}")]
    Refused(usize, FileFault),
    #[error("out of memory")]
    Memory,
}

impl From<Memory> for SourceFault {
    ghost use Rattle.std.specs.Prelude.{◌≡◌};
    ghost use Rattle.rtl_front.specs.declared.fault.SourceFault.TheVariants as fault;

    ghost from_gives = { λ _ e. e ≡ fault.Memory };

    fn from(_error: Memory) -> SourceFault {
        SourceFault::Memory
    }
}

impl<T: Drop> From<AllocFailed<T>> for SourceFault {
    ghost use Rattle.std.specs.Prelude.{◌≡◌};
    ghost use Rattle.rtl_front.specs.declared.fault.SourceFault.TheVariants as fault;

    ghost from_gives = { λ _ e. e ≡ fault.Memory };

    fn from(_error: AllocFailed<T>) -> SourceFault {
        SourceFault::Memory
    }
}
