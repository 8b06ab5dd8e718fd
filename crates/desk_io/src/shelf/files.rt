// A shelf over files that are opened and read.
ghost use Rattle.std.specs.Prelude.{◌≡◌, ◌≢◌, ◌≤◌, None, Err, vec_len, IfOk, IfSome, IsErrOf};
ghost use Rattle.desk_io.specs.Causes.{Rose};
ghost use Rattle.desk_io.specs.FileShelf.{fault_count, opener_of};
ghost use Rattle.desk_io.specs.Limits.{MAX_FILE_BYTES};
ghost use Rattle.desk_io.specs.Shelf.{IsReading, reading};

use super::lengths::read_whole;
use super::opening::Opener;
use super::{Shelf, ShelfFault};
use std::alloc::Global;

/// A shelf over files that are opened and read. It tells nothing of them as a shelf. A folder can't be read.
#[derive(Drop)]
pub struct FileShelf<O: Drop> {
    alloc: Global,
    opener: O,
    faults: u64,
}

impl<O: Opener + Drop> FileShelf<O> {
    ghost use Rattle.std.specs.Prelude.{◌≡◌, ◌+◌, ◌-◌, ◌^◌, min};
    ghost use Rattle.desk_io.specs.FileShelf.{fault_count, opener_of};

    /// A shelf over the opener's files, with no fault yet.
    pub fn new(alloc: Global, opener: O) -> Self
        ensures faults { fault_count result ≡ 0 }
        ensures opener { opener_of result ≡ opener }
    {
        FileShelf {
            alloc,
            opener,
            faults: 0,
        }
    }

    /// How many reads have failed.
    pub fn faults(&self) -> u64
        ensures { result ≡ fault_count self.now }
    {
        self.faults
    }

    // Counts a fault, and passes it on.
    fn counted(&mut self, fault: ShelfFault) -> ShelfFault
        ensures fault { result ≡ fault }
        ensures counted { fault_count self.new ≡ min (fault_count self.old + 1) (2 ^ 64 - 1) }
        ensures later { fault_count self.old ≤ fault_count self.new }
        ensures opener { opener_of self.new ≡ opener_of self.old }
    {
        self.faults = self.faults.saturating_add(1);
        fault
    }
}

// Opens the file of this name, and reads it whole.
fn read_file<O: Opener>(alloc: Global, opener: &O, name: &str) -> Result<Vec<u8>, ShelfFault>
    ensures told { IfSome (O.files opener.now)
        (λ held. IsReading (reading (held name.now)) result) }
    ensures short { IfOk result (λ bytes. vec_len bytes ≤ MAX_FILE_BYTES) }
{
    match opener.open(name) {
        Ok(file) => read_whole(alloc, file),
        Err(fault) => Err(fault),
    }
}

impl<O: Opener + Drop> Shelf for FileShelf<O> {
    ghost files = { λ _. None };

    ghost faults = { λ shelf. fault_count shelf };

    /// The file of this name. Each failure is counted, and so is a missing file. Nothing else is. The answer is exact
    /// where the opener tells its files.
    fn read(&mut self, name: &str) -> Result<Vec<u8>, ShelfFault>
        ensures exact { IfSome (O.files (opener_of self.old))
            (λ held. IsReading (reading (held name.now)) result) }
        ensures short { IfOk result (λ bytes. vec_len bytes ≤ MAX_FILE_BYTES) }
        ensures opener { opener_of self.new ≡ opener_of self.old }
        ensures later { fault_count self.old ≤ fault_count self.new }
        ensures failed { IsErrOf result ShelfFault.Failed
            → Rose (fault_count self.old) (fault_count self.new) }
        ensures missing { IsErrOf result ShelfFault.NoSuchFile
            → Rose (fault_count self.old) (fault_count self.new) }
        ensures still { result ≢ Err ShelfFault.Failed → result ≢ Err ShelfFault.NoSuchFile
            → fault_count self.new ≡ fault_count self.old }
    {
        match read_file(self.alloc, &self.opener, name) {
            Err(ShelfFault::Failed) => Err(self.counted(ShelfFault::Failed)),
            Err(ShelfFault::NoSuchFile) => Err(self.counted(ShelfFault::NoSuchFile)),
            answer => answer,
        }
    }
}
