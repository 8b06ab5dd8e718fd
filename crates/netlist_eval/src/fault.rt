//! Why a netlist isn't simulated.

ghost use Rattle.std.specs.Prelude.{◌≡◌};
ghost use Rattle.netlist_eval.specs.declared.fault.NetFault.TheVariants as fault;

use rtl_flat::expr::SigId;
use std::alloc::{AllocError, AllocFailed};
use text_ground::memory::Memory;
use thiserror::Error;

/// Why a netlist isn't simulated.
#[derive(Clone, Copy, PartialEq, Eq, Debug, Error)]
pub enum NetFault {
    /// Processes without edges feed one another in a cycle: the least signal that a process on or behind one may write.
    #[error("processes feed one another in a cycle")]
    Cyclic(SigId),
    /// The place of the first value with an x or z bit, where those of registers and latches come before those of inputs.
    #[error("a value has an unknown bit")]
    NotKnown(usize),
    #[error("out of memory")]
    Memory,
}

impl From<Memory> for NetFault {
    ghost from_gives = { λ _ e. e ≡ fault.Memory };

    fn from(_error: Memory) -> NetFault {
        NetFault::Memory
    }
}

impl From<AllocError> for NetFault {
    ghost from_gives = { λ _ e. e ≡ fault.Memory };

    fn from(_error: AllocError) -> NetFault {
        NetFault::Memory
    }
}

impl<T: Drop> From<AllocFailed<T>> for NetFault {
    ghost from_gives = { λ _ e. e ≡ fault.Memory };

    fn from(_error: AllocFailed<T>) -> NetFault {
        NetFault::Memory
    }
}
