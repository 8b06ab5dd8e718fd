// A shelf whose files stand in memory.
ghost use Rattle.std.specs.Prelude.{◌≡◌, ◌≢◌, ◌≤◌, ◌+◌, ◌-◌, ◌^◌, ◌↔◌, min, if◌then◌else◌, Some, Err, vec_len, IfOk, IsErrOf, IsTrue, vec_items, option_map};
ghost use Rattle.std.specs.BTreeMap.{get_by_text};
ghost use Rattle.desk_io.specs.Calls.{after_call, next_fails};
ghost use Rattle.desk_io.specs.Causes.{Rose};
ghost use Rattle.desk_io.specs.Limits.{MAX_FILE_BYTES};
ghost use Rattle.desk_io.specs.MemoryShelf.{held_files, schedule, fault_count};
ghost use Rattle.desk_io.specs.Shelf.{IsReading, reading};

use super::lengths::at_most;
use super::{Shelf, ShelfFault};
use crate::calls::Calls;
use std::alloc::{AllocError, Global};
use std::collections::BTreeMap;

/// A shelf whose files stand in memory, with the numbers of the calls that fail. The first read has the number 1.
#[derive(Drop)]
pub struct MemoryShelf {
    alloc: Global,
    files: BTreeMap<String, Vec<u8>>,
    calls: Calls,
    faults: u64,
}

impl MemoryShelf {
    ghost use Rattle.std.specs.Prelude.{OnOk, OnErr};
    ghost use Rattle.desk_io.specs.Calls.{no_failures, with_failure};
    ghost use Rattle.desk_io.specs.MemoryShelf.{held_files, schedule, fault_count};
    ghost use Rattle.desk_io.specs.Shelf.{no_files, with_file};

    /// A shelf with no file, where no call fails.
    pub fn new(alloc: Global) -> Self
        ensures files { held_files result ≡ no_files }
        ensures calls { schedule result ≡ no_failures }
        ensures faults { fault_count result ≡ 0 }
    {
        MemoryShelf {
            alloc,
            files: BTreeMap::new(alloc),
            calls: Calls::new(alloc),
            faults: 0,
        }
    }

    /// Adds a file of any length. It takes the place of one that has the name already. At an error nothing changes.
    pub fn add(&mut self, name: &str, bytes: &[u8]) -> Result<(), AllocError>
        ensures ok { OnOk result (held_files self.new
            ≡ with_file (held_files self.old) name.now bytes.now) }
        ensures err { OnErr result (held_files self.new ≡ held_files self.old) }
        ensures calls { schedule self.new ≡ schedule self.old }
        ensures faults { fault_count self.new ≡ fault_count self.old }
    {
        let name = String::from_str(self.alloc, name)?;
        let bytes = Vec::from_slice(self.alloc, bytes)?;
        self.files.insert(name, bytes)?;
        Ok(())
    }

    /// Has the read with this number fail. At an error nothing changes.
    pub fn fail_at(&mut self, call: u64) -> Result<(), AllocError>
        ensures ok { OnOk result (schedule self.new ≡ with_failure (schedule self.old) call) }
        ensures err { OnErr result (schedule self.new ≡ schedule self.old) }
        ensures files { held_files self.new ≡ held_files self.old }
        ensures faults { fault_count self.new ≡ fault_count self.old }
    {
        self.calls.fail_at(call)
    }

    /// How many reads have failed.
    pub fn faults(&self) -> u64
        ensures { result ≡ fault_count self.now }
    {
        self.faults
    }
}

// The bytes of the file that has the name.
fn reading_of(
    alloc: Global,
    files: &BTreeMap<String, Vec<u8>>,
    name: &str,
) -> Result<Vec<u8>, ShelfFault>
    ensures reading { IsReading (reading (option_map vec_items (get_by_text files.now name.now)))
        result }
    ensures short { IfOk result (λ bytes. vec_len bytes ≤ MAX_FILE_BYTES) }
    ensures found { result ≢ Err ShelfFault.Failed }
{
    match files.get(name) {
        None => Err(ShelfFault::NoSuchFile),
        Some(bytes) => at_most(Vec::from_slice(alloc, bytes)?),
    }
}

impl Shelf for MemoryShelf {
    ghost files = { λ shelf. Some (held_files shelf) };

    ghost faults = { λ shelf. fault_count shelf };

    /// The reading of the named file. It fails where its turn has come to fail, and counts that.
    fn read(&mut self, name: &str) -> Result<Vec<u8>, ShelfFault>
        ensures told { IsReading (reading (held_files self.old name.now)) result }
        ensures short { IfOk result (λ bytes. vec_len bytes ≤ MAX_FILE_BYTES) }
        ensures fails { IsErrOf result ShelfFault.Failed ↔ IsTrue (next_fails (schedule self.old)) }

        ensures files { held_files self.new ≡ held_files self.old }
        ensures calls { schedule self.new ≡ after_call (schedule self.old) }
        ensures counted { fault_count self.new ≡ (if next_fails (schedule self.old)
            then min (fault_count self.old + 1) (2 ^ 64 - 1) else fault_count self.old) }
        ensures later { fault_count self.old ≤ fault_count self.new }
        ensures failed { IsErrOf result ShelfFault.Failed
            → Rose (fault_count self.old) (fault_count self.new) }
    {
        if self.calls.next_fails() {
            self.faults = self.faults.saturating_add(1);
            return Err(ShelfFault::Failed);
        }
        reading_of(self.alloc, &self.files, name)
    }
}
