// Why a text doesn't split into tokens.

use std::alloc::{AllocError, AllocFailed};
use thiserror::Error;

/// Why a text doesn't split into tokens, with the place in bytes from 0.
#[derive(Debug, Drop, Error)]
pub enum LexFault {
    /// A byte above 127 outside a comment.
    #[error("not ASCII")]
    NotAscii(u32),
    /// A number without a value: a width that isn't from 1 to 128, no digit, a digit of another base, or an
    /// unsized value that is too large.
    #[error("bad number")]
    BadNumber(u32),
    /// A character that begins no token, a string that isn't closed on its line, or the first byte of a word that is
    /// one too many.
    #[error("bad character")]
    BadCharacter(u32),
    /// A block comment without an end.
    #[error("open comment")]
    OpenComment(u32),
    /// The token after the 200,000th.
    #[error("too many tokens")]
    TooManyTokens(u32),
    /// Memory ran out.
    #[error("out of memory")]
    Memory,
}

impl From<AllocError> for LexFault {
    ghost use Rattle.std.specs.Prelude.{◌≡◌};
    ghost use Rattle.rtl_text.specs.declared.fault.LexFault.TheVariants.{Memory};

    ghost from_gives = { λ _ e. e ≡ Memory };

    fn from(_error: AllocError) -> LexFault {
        LexFault::Memory
    }
}

impl<T: Drop> From<AllocFailed<T>> for LexFault {
    ghost use Rattle.std.specs.Prelude.{◌≡◌};
    ghost use Rattle.rtl_text.specs.declared.fault.LexFault.TheVariants.{Memory};

    ghost from_gives = { λ _ e. e ≡ Memory };

    fn from(_error: AllocFailed<T>) -> LexFault {
        LexFault::Memory
    }
}
