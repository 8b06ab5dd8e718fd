// Why a text can't be prepared.

use std::alloc::{AllocError, AllocFailed};
use text_ground::memory::Memory;
use thiserror::Error;

/// Why a text can't be prepared, with the place in bytes from 0.
#[derive(Debug, Drop, Error)]
pub enum PrepFault {
    /// A directive that isn't read, by its name without the backquote: an unknown one, a macro that isn't defined, a
    /// directive without the name that it needs, one in a macro's body, a macro with arguments (`define`), or
    /// `SYNTHESIS` where it is defined, undefined or tested.
    #[error("directive")]
    Directive(Vec<u8>, u32),
    /// A word without its partner.
    #[error("unbalanced")]
    Unbalanced(u32),
    /// A macro, by its name, that is used within its own replacement.
    #[error("macro loop")]
    MacroLoop(Vec<u8>, u32),
    /// The token after the 200,000th that is kept, or the replacement after the 200,000th.
    #[error("too many tokens")]
    TooManyTokens(u32),
    /// Memory ran out.
    #[error("out of memory")]
    Memory,
}

impl From<AllocError> for PrepFault {
    ghost use Rattle.std.specs.Prelude.{◌≡◌};
    ghost use Rattle.rtl_prep.specs.declared.fault.PrepFault.TheVariants.{Memory};

    ghost from_gives = { λ _ e. e ≡ Memory };

    fn from(_error: AllocError) -> PrepFault {
        PrepFault::Memory
    }
}

impl<T: Drop> From<AllocFailed<T>> for PrepFault {
    ghost use Rattle.std.specs.Prelude.{◌≡◌};
    ghost use Rattle.rtl_prep.specs.declared.fault.PrepFault.TheVariants.{Memory};

    ghost from_gives = { λ _ e. e ≡ Memory };

    fn from(_error: AllocFailed<T>) -> PrepFault {
        PrepFault::Memory
    }
}

impl From<Memory> for PrepFault {
    ghost use Rattle.std.specs.Prelude.{◌≡◌};
    ghost use Rattle.rtl_prep.specs.declared.fault.PrepFault.TheVariants as fault;

    ghost from_gives = { λ _ e. e ≡ fault.Memory };

    fn from(_error: Memory) -> PrepFault {
        PrepFault::Memory
    }
}
