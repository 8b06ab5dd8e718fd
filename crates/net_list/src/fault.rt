//! Why nothing is inferred.

ghost use Rattle.std.specs.Prelude.{◌≡◌};
ghost use Rattle.net_list.specs.declared.fault.InferFault.TheVariants as fault;

use rtl_flat::act::ProcId;
use std::alloc::{AllocError, AllocFailed};
use text_ground::memory::Memory;
use thiserror::Error;

/// Why nothing is inferred of a design.
#[derive(Clone, Copy, PartialEq, Eq, Debug, Error)]
pub enum InferFault {
    /// A process that has no form which synthesis takes: the least one.
    #[error("no form that synthesis takes")]
    Shape(ProcId),
    #[error("out of memory")]
    Memory,
}

impl From<Memory> for InferFault {
    ghost from_gives = { λ _ e. e ≡ fault.Memory };

    fn from(_error: Memory) -> InferFault {
        InferFault::Memory
    }
}

impl From<AllocError> for InferFault {
    ghost from_gives = { λ _ e. e ≡ fault.Memory };

    fn from(_error: AllocError) -> InferFault {
        InferFault::Memory
    }
}

impl<T: Drop> From<AllocFailed<T>> for InferFault {
    ghost from_gives = { λ _ e. e ≡ fault.Memory };

    fn from(_error: AllocFailed<T>) -> InferFault {
        InferFault::Memory
    }
}
