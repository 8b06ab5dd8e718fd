// A shelf of named files, as the desk sees it.
ghost use Rattle.std.specs.Prelude.{◌≡◌, ◌≤◌, ℕ, Option, vec_len, IfOk, IfSome, IfNone, IsErrOf};
ghost use Rattle.desk_io.specs.declared.shelf.ShelfFault.TheVariants.{Memory};
ghost use Rattle.desk_io.specs.Causes.{Rose};
ghost use Rattle.desk_io.specs.Limits.{MAX_FILE_BYTES};
ghost use Rattle.desk_io.specs.Shelf.{Files, IsCalm, IsReading, reading};

mod files;
mod lengths;
mod memory;
mod opening;

pub use files::FileShelf;
pub use memory::MemoryShelf;
pub use opening::{Opener, SystemFiles};
use std::alloc::AllocError;
use thiserror::Error;

/// How many bytes a file may have.
pub const MAX_FILE_BYTES: usize = 1 << 20;

/// Why a file isn't read.
#[derive(Clone, Copy, Debug, PartialEq, Eq, Error)]
pub enum ShelfFault {
    /// The shelf failed, and has counted it.
    #[error("the file can't be read")]
    Failed,
    /// No file has the name.
    #[error("there is no such file")]
    NoSuchFile,
    /// The file has more than [`MAX_FILE_BYTES`] bytes.
    #[error("the file is too long")]
    TooLong,
    /// There is no memory for the file's bytes.
    #[error("out of memory")]
    Memory,
}

impl From<AllocError> for ShelfFault {
    ghost from_gives = { λ _ fault. fault ≡ Memory };

    fn from(_: AllocError) -> Self {
        ShelfFault::Memory
    }
}

/// Named files, and a count of the faults that reading them met.
pub trait Shelf {
    /// The files by name, where the shelf tells them.
    ghost files: { Self → Option Files };

    /// How many calls have failed. It stops at the last value of a `u64`.
    ghost faults: { Self → ℕ };

    /// The whole bytes of the file that has the name.
    fn read(&mut self, name: &str) -> Result<Vec<u8>, ShelfFault>
        // The answer is the reading of the named file, unless the call fails or finds no memory.
        ensures told { IfSome (files self.old)
            (λ held. IsReading (reading (held name.now)) result) }
        ensures short { IfOk result (λ bytes. vec_len bytes ≤ MAX_FILE_BYTES) }

        ensures same { files self.new ≡ files self.old }

        // An error for which no file speaks is counted.
        ensures later { faults self.old ≤ faults self.new }
        ensures failed { IsErrOf result ShelfFault.Failed
            → Rose (faults self.old) (faults self.new) }
        ensures missing { IfNone (files self.old) (IsErrOf result ShelfFault.NoSuchFile
            → Rose (faults self.old) (faults self.new)) }

        // Nothing else is.
        ensures calm { IsCalm (files self.old) result (faults self.old) (faults self.new) };
}
