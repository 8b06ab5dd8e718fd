// Why a text isn't parsed.

use std::alloc::{AllocError, AllocFailed};
use text_ground::memory::Memory;
use thiserror::Error;

/// Why a text isn't parsed. Places are in bytes from 0.
#[derive(Debug, Drop, Error)]
pub enum ParseFault {
    /// A word or a mark of a construct outside this language, or the word that a generate construct begins with, and
    /// its place.
    #[error("refused construct")]
    Refused(Vec<u8>, u32),
    /// The first token that no text of modules can have there, and its place: the tokens before it go on to modules, and with
    /// it nothing does. At the end of the file the token is empty, and the place is after the last byte.
    #[error("syntax")]
    Syntax(Vec<u8>, u32),
    /// The first place of an expression or a statement that is nested more than 200 deep.
    #[error("too deep")]
    TooDeep(u32),
    /// Memory ran out.
    #[error("out of memory")]
    Memory,
}

impl From<Memory> for ParseFault {
    ghost use Rattle.std.specs.Prelude.{◌≡◌};
    ghost use Rattle.rtl_parse.specs.declared.fault.ParseFault.TheVariants as fault;

    ghost from_gives = { λ _ e. e ≡ fault.Memory };

    fn from(_error: Memory) -> ParseFault {
        ParseFault::Memory
    }
}

impl From<AllocError> for ParseFault {
    ghost use Rattle.std.specs.Prelude.{◌≡◌};
    ghost use Rattle.rtl_parse.specs.declared.fault.ParseFault.TheVariants as fault;

    ghost from_gives = { λ _ e. e ≡ fault.Memory };

    fn from(_error: AllocError) -> ParseFault {
        ParseFault::Memory
    }
}

impl<T: Drop> From<AllocFailed<T>> for ParseFault {
    ghost use Rattle.std.specs.Prelude.{◌≡◌};
    ghost use Rattle.rtl_parse.specs.declared.fault.ParseFault.TheVariants as fault;

    ghost from_gives = { λ _ e. e ≡ fault.Memory };

    fn from(_error: AllocFailed<T>) -> ParseFault {
        ParseFault::Memory
    }
}
