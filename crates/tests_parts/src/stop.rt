//! Why a look ends early.

use std::alloc::{AllocError, AllocFailed};
use std::io;
use tests_designs::NoDesign;
use text_ground::memory::Memory;
use thiserror::Error;

/// Why a look ends early.
#[derive(Debug, Error, Drop)]
pub enum Stop {
    #[error("no such look")]
    NoLook,
    #[error("no such file")]
    NoFile,
    #[error("no such call")]
    NoCall,
    #[error("the text is too long")]
    TooLong,
    #[error("{0}")]
    NoDesign(NoDesign),
    #[error("the database isn't made")]
    NoDatabase,
    #[error("the system fails")]
    System,
    #[error("out of memory")]
    Memory,
}

impl From<AllocError> for Stop {
    fn from(_error: AllocError) -> Stop {
        Stop::Memory
    }
}

impl From<Memory> for Stop {
    fn from(_error: Memory) -> Stop {
        Stop::Memory
    }
}

impl<T: Drop> From<AllocFailed<T>> for Stop {
    fn from(_error: AllocFailed<T>) -> Stop {
        Stop::Memory
    }
}

impl From<io::Error> for Stop {
    fn from(_error: io::Error) -> Stop {
        Stop::System
    }
}

impl From<NoDesign> for Stop {
    fn from(no: NoDesign) -> Stop {
        Stop::NoDesign(no)
    }
}

impl From<sqlite::Error> for Stop {
    fn from(_error: sqlite::Error) -> Stop {
        Stop::NoDatabase
    }
}
