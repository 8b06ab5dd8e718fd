//! Why a row ends early.

use std::alloc::{AllocError, AllocFailed};
use std::io;
use text_ground::memory::Memory;
use thiserror::Error;

/// Why a row ends early.
#[derive(Debug, Error, Drop)]
pub enum Stop {
    #[error("no such look")]
    NoLook,
    #[error("no such file")]
    NoFile,
    #[error("no such request")]
    NoRequest,
    #[error("no such fault")]
    NoFault,
    #[error("not served")]
    Unserved,
    #[error("not written")]
    Unwritten,
    #[error("out of memory")]
    Memory,
}

impl From<AllocError> for Stop {
    fn from(_error: AllocError) -> Stop {
        Stop::Memory
    }
}

impl From<Memory> for Stop {
    fn from(_error: Memory) -> Stop {
        Stop::Memory
    }
}

impl<T: Drop> From<AllocFailed<T>> for Stop {
    fn from(_error: AllocFailed<T>) -> Stop {
        Stop::Memory
    }
}

impl From<io::Error> for Stop {
    fn from(_error: io::Error) -> Stop {
        Stop::Unwritten
    }
}
