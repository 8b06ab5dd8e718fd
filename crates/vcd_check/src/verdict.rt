//! What a comparison answers.

ghost use Rattle.std.specs.Prelude.{◌≡◌};
ghost use Rattle.vcd_check.specs.declared.verdict.CompareFault.TheVariants as fault;

use rtl_bits::Vec4;
use rtl_flat::expr::SigId;
use std::alloc::{AllocError, AllocFailed};
use text_ground::memory::Memory;
use thiserror::Error;

/// What is told of a dump.
#[derive(Clone, Copy, Debug)]
pub enum Verdict {
    /// It agrees at all its times from the start on: so many.
    Agrees {
        frames: usize,
    },
    /// At a time a signal has another value than its number; up to that time the dump agrees, and so do the signals before this
    /// one.
    Departs {
        time: u64,
        signal: SigId,
        recorded: Vec4,
        synthesised: Vec4,
    },
}

/// Why nothing is told of a dump.
#[derive(Clone, Copy, Debug, Error)]
pub enum CompareFault {
    /// The least top input that isn't recorded.
    #[error("an input is not recorded")]
    MissingInput(SigId),
    /// The least register or latch that isn't recorded.
    #[error("a register is not recorded")]
    MissingRegister(SigId),
    /// The design has no netlist.
    #[error("no netlist")]
    NoNetlist,
    /// At no time every top input, register and latch is known.
    #[error("never known")]
    NeverKnown,
    /// Up to a time inputs change otherwise than by one step, or by an edge and data behind it.
    #[error("inputs change otherwise than by a step up to {0}")]
    Unlawful(u64),
    #[error("out of memory")]
    Memory,
}

impl From<Memory> for CompareFault {
    ghost from_gives = { λ _ e. e ≡ fault.Memory };

    fn from(_error: Memory) -> CompareFault {
        CompareFault::Memory
    }
}

impl From<AllocError> for CompareFault {
    ghost from_gives = { λ _ e. e ≡ fault.Memory };

    fn from(_error: AllocError) -> CompareFault {
        CompareFault::Memory
    }
}

impl<T: Drop> From<AllocFailed<T>> for CompareFault {
    ghost from_gives = { λ _ e. e ≡ fault.Memory };

    fn from(_error: AllocFailed<T>) -> CompareFault {
        CompareFault::Memory
    }
}
