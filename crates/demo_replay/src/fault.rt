//! Why a demonstration shows nothing.

ghost use Rattle.std.specs.Prelude.{◌≡◌};
ghost use Rattle.demo_replay.specs.declared.fault.ReplayFault.TheVariants as fault;

use rtl_bits::Vec4;
use std::alloc::{AllocError, AllocFailed};
use text_ground::memory::Memory;
use thiserror::Error;

/// What a demonstration names.
#[derive(Clone, Copy, PartialEq, Eq, Debug)]
pub enum Part {
    Trial,
    Step,
    Signal,
}

/// Why a demonstration shows nothing.
#[derive(Clone, Copy, Debug, Error)]
pub enum ReplayFault {
    /// The first part that names nothing: a trial above the last, no step of the trial, or no
    /// signal of the design but for temporaries.
    #[error("no such trial, step or signal")]
    Illegal(Part),
    /// The design has no netlist.
    #[error("no netlist")]
    NoNetlist,
    /// A step of the trial does not settle.
    #[error("a step did not settle")]
    Unsettled(u8),
    /// Both have this value.
    #[error("no difference")]
    Same(Vec4),
    #[error("out of memory")]
    Memory,
}

impl From<Memory> for ReplayFault {
    ghost from_gives = { λ _ e. e ≡ fault.Memory };

    fn from(_error: Memory) -> ReplayFault {
        ReplayFault::Memory
    }
}

impl From<AllocError> for ReplayFault {
    ghost from_gives = { λ _ e. e ≡ fault.Memory };

    fn from(_error: AllocError) -> ReplayFault {
        ReplayFault::Memory
    }
}

impl<T: Drop> From<AllocFailed<T>> for ReplayFault {
    ghost from_gives = { λ _ e. e ≡ fault.Memory };

    fn from(_error: AllocFailed<T>) -> ReplayFault {
        ReplayFault::Memory
    }
}
