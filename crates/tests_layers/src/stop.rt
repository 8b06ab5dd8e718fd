//! Why a look ends early.

ghost use Rattle.std.specs.Prelude.{◌≡◌};
ghost use Rattle.tests_layers.specs.declared.stop.Stop.TheVariants as stop;

use std::alloc::{AllocError, AllocFailed};
use tests_designs::NoDesign;
use text_ground::memory::Memory;
use thiserror::Error;

/// Why a look ends early.
#[derive(Debug, Error, Drop)]
pub enum Stop {
    #[error("no such look")]
    NoLook,
    #[error("no such file")]
    NoFile,
    #[error("the text is too long")]
    TooLong,
    #[error("the text isn't read")]
    Unread,
    #[error("the fault of another file")]
    OtherFile,
    #[error("no such process")]
    NoProcess,
    #[error("a name means something else among the files that are used")]
    OtherMeaning,
    #[error("{0}")]
    NoDesign(NoDesign),
    #[error("out of memory")]
    Memory,
}

impl From<AllocError> for Stop {
    ghost from_gives = { λ _ e. e ≡ stop.Memory };

    fn from(_error: AllocError) -> Stop {
        Stop::Memory
    }
}

impl From<Memory> for Stop {
    ghost from_gives = { λ _ e. e ≡ stop.Memory };

    fn from(_error: Memory) -> Stop {
        Stop::Memory
    }
}

impl<T: Drop> From<AllocFailed<T>> for Stop {
    ghost from_gives = { λ _ e. e ≡ stop.Memory };

    fn from(_error: AllocFailed<T>) -> Stop {
        Stop::Memory
    }
}
