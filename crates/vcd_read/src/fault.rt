//! Why a text is no dump.

ghost use Rattle.std.specs.Prelude.{◌≡◌};
ghost use Rattle.vcd_read.specs.declared.fault.VcdFault.TheVariants.{Memory as NoMemory};

use std::alloc::{AllocError, AllocFailed};
use text_ground::memory::Memory;
use thiserror::Error;

/// Why a text is none that can be read.
#[derive(Clone, Copy, PartialEq, Eq, Debug, Error)]
pub enum VcdFault {
    /// The place of the first word that can't stand there, in bytes from 0, or that of the text's end.
    #[error("malformed at {0}")]
    Malformed(u32),
    /// The place of the first word that is one variable or one time too many.
    #[error("too large at {0}")]
    TooLarge(u32),
    #[error("out of memory")]
    Memory,
}

impl From<Memory> for VcdFault {
    ghost from_gives = { λ _ fault. fault ≡ NoMemory };

    fn from(_error: Memory) -> VcdFault {
        VcdFault::Memory
    }
}

impl From<AllocError> for VcdFault {
    ghost from_gives = { λ _ fault. fault ≡ NoMemory };

    fn from(_error: AllocError) -> VcdFault {
        VcdFault::Memory
    }
}

impl<T: Drop> From<AllocFailed<T>> for VcdFault {
    ghost from_gives = { λ _ fault. fault ≡ NoMemory };

    fn from(_error: AllocFailed<T>) -> VcdFault {
        VcdFault::Memory
    }
}
