// A sink that keeps what it takes in memory.
ghost use Rattle.std.specs.Prelude.{◌≡◌, ◌≤◌, ◌<◌, ◌+◌, ◌-◌, ◌^◌, ◌++◌, min, if◌then◌else◌, Some, length, take, is_err, IfOk, OnErr, IsErr, IsTrue};
ghost use Rattle.desk_io.specs.Calls.{after_call, next_fails};
ghost use Rattle.desk_io.specs.Causes.{HasCause};
ghost use Rattle.desk_io.specs.MemorySink.{taken_bytes, most_bytes, schedule, fault_count};

use super::Sink;
use crate::Failed;
use crate::calls::Calls;
use std::alloc::{AllocError, Global};

/// A sink that keeps what it takes in memory, with the numbers of the calls that fail and the most bytes that one
/// call takes. The first write has the number 1.
#[derive(Drop)]
pub struct MemorySink {
    taken: Vec<u8>,
    most: usize,
    calls: Calls,
    faults: u64,
}

impl MemorySink {
    ghost use Rattle.std.specs.Prelude.{[], OnOk};
    ghost use Rattle.desk_io.specs.Calls.{no_failures, with_failure};
    ghost use Rattle.desk_io.specs.MemorySink.{taken_bytes, most_bytes, schedule, fault_count};

    /// An empty sink that takes each piece whole, and where no call fails.
    pub fn new(alloc: Global) -> Self
        ensures taken { taken_bytes result ≡ [] }
        ensures most { most_bytes result ≡ usize.MAX }
        ensures calls { schedule result ≡ no_failures }
        ensures faults { fault_count result ≡ 0 }
    {
        MemorySink {
            taken: Vec::new(alloc),
            most: usize::MAX,
            calls: Calls::new(alloc),
            faults: 0,
        }
    }

    /// Has each later call take at most so many bytes. Where that is 0, each write of a byte or more fails.
    pub fn take_at_most(&mut self, most: usize)
        ensures most { most_bytes self.new ≡ most }
        ensures taken { taken_bytes self.new ≡ taken_bytes self.old }
        ensures calls { schedule self.new ≡ schedule self.old }
        ensures faults { fault_count self.new ≡ fault_count self.old }
    {
        self.most = most;
    }

    /// Has the write with this number fail. At an error nothing changes.
    pub fn fail_at(&mut self, call: u64) -> Result<(), AllocError>
        ensures ok { OnOk result (schedule self.new ≡ with_failure (schedule self.old) call) }
        ensures err { OnErr result (schedule self.new ≡ schedule self.old) }
        ensures taken { taken_bytes self.new ≡ taken_bytes self.old }
        ensures most { most_bytes self.new ≡ most_bytes self.old }
        ensures faults { fault_count self.new ≡ fault_count self.old }
    {
        self.calls.fail_at(call)
    }

    /// The bytes that were taken so far.
    pub fn bytes(&self) -> &[u8]
        ensures { result.now ≡ taken_bytes self.now }
    {
        &self.taken
    }

    /// How many writes have failed.
    pub fn faults(&self) -> u64
        ensures { result ≡ fault_count self.now }
    {
        self.faults
    }
}

impl Sink for MemorySink {
    ghost taken = { λ sink. Some (taken_bytes sink) };

    ghost faults = { λ sink. fault_count sink };

    /// Takes the bytes, up to the most that one call takes. It fails where its turn has come to fail, where it would
    /// take none of a piece that isn't empty, and where there is no memory.
    fn write(&mut self, bytes: &[u8]) -> Result<usize, Failed>
        ensures count { IfOk result (λ count. count
            ≡ min (length bytes.now) (most_bytes self.old)) }
        ensures some { IfOk result (λ count. 0 < length bytes.now → 0 < count) }
        ensures taken { IfOk result (λ count. taken_bytes self.new
            ≡ taken_bytes self.old ++ take count bytes.now) }
        ensures err { OnErr result (taken_bytes self.new ≡ taken_bytes self.old) }
        ensures fails { IsTrue (next_fails (schedule self.old)) → IsErr result }

        ensures most { most_bytes self.new ≡ most_bytes self.old }
        ensures calls { schedule self.new ≡ after_call (schedule self.old) }
        ensures counted { fault_count self.new ≡ (if is_err result
            then min (fault_count self.old + 1) (2 ^ 64 - 1) else fault_count self.old) }
        ensures cause { HasCause (fault_count self.old) (fault_count self.new) result }
    {
        let count = bytes.len().min(self.most);
        let refused = self.calls.next_fails() || (count == 0 && !bytes.is_empty());
        if refused || self.taken.extend_from_slice(&bytes[..count]).is_err() {
            self.faults = self.faults.saturating_add(1);
            return Err(Failed);
        }
        Ok(count)
    }
}
