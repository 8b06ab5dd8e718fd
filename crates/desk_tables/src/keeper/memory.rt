// A keeper whose tables stand in memory.
ghost use Rattle.std.specs.Prelude.{◌≡◌, ◌≤◌, ◌↔◌, ◌+◌, ◌-◌, ◌^◌, min, Some, if◌then◌else◌, IfOk, OnOk, OnErr, IsErrOf, IsTrue};
ghost use Rattle.desk_io.specs.Calls.{after_call, next_fails};
ghost use Rattle.desk_io.specs.Causes.{Rose};
ghost use Rattle.desk_tables.specs.Changes.{changed};
ghost use Rattle.desk_tables.specs.MemoryKeeper.{fault_count, held, schedule};
ghost use Rattle.desk_tables.specs.Migrations.{migrated};
ghost use Rattle.desk_tables.specs.Tables.{kept_of};

use super::{Keeper, KeeperFault};
use crate::{Change, Tables};
use desk_io::Calls;
use std::alloc::{AllocError, Global};

/// A keeper whose tables stand in memory, with the numbers of the calls that fail. The first call has the number 1.
#[derive(Drop)]
pub struct MemoryKeeper {
    alloc: Global,
    tables: Tables,
    calls: Calls,
    faults: u64,
}

impl MemoryKeeper {
    ghost use Rattle.desk_io.specs.Calls.{no_failures, with_failure};
    ghost use Rattle.std.specs.Prelude.{◌≡◌, OnOk, OnErr};
    ghost use Rattle.desk_tables.specs.MemoryKeeper.{fault_count, held, schedule};
    ghost use Rattle.desk_tables.specs.Tables.{kept_of};

    /// A keeper of these tables, where no call fails.
    pub fn new(alloc: Global, tables: Tables) -> Self
        ensures tables { held result ≡ kept_of tables }
        ensures calls { schedule result ≡ no_failures }
        ensures faults { fault_count result ≡ 0 }
    {
        MemoryKeeper {
            alloc,
            tables,
            calls: Calls::new(alloc),
            faults: 0,
        }
    }

    /// The tables.
    pub fn tables(&self) -> &Tables
        ensures { kept_of result.now ≡ held self.now }
    {
        &self.tables
    }

    /// Has the call with this number fail. At an error nothing changes.
    pub fn fail_at(&mut self, call: u64) -> Result<(), AllocError>
        ensures ok { OnOk result (schedule self.new ≡ with_failure (schedule self.old) call) }
        ensures err { OnErr result (schedule self.new ≡ schedule self.old) }
        ensures tables { held self.new ≡ held self.old }
        ensures faults { fault_count self.new ≡ fault_count self.old }
    {
        self.calls.fail_at(call)
    }
}

impl Keeper for MemoryKeeper {
    ghost tables = { λ keeper. Some (held keeper) };

    ghost count = { λ keeper. fault_count keeper };

    fn faults(&self) -> u64 {
        self.faults
    }

    fn load(&mut self) -> Result<Tables, KeeperFault>
        ensures told { IfOk result (λ got. kept_of got ≡ held self.old) }
        ensures same { held self.new ≡ held self.old }
        ensures fails { IsErrOf result KeeperFault.Failed
            ↔ IsTrue (next_fails (schedule self.old)) }
        ensures calls { schedule self.new ≡ after_call (schedule self.old) }
        ensures counted { fault_count self.new ≡ (if next_fails (schedule self.old)
            then min (fault_count self.old + 1) (2 ^ 64 - 1) else fault_count self.old) }
        ensures later { fault_count self.old ≤ fault_count self.new }
        ensures failed { IsErrOf result KeeperFault.Failed
            → Rose (fault_count self.old) (fault_count self.new) }
        ensures no_memory { IsErrOf result KeeperFault.Memory
            → fault_count self.new ≡ fault_count self.old }
        ensures calm { OnOk result (fault_count self.new ≡ fault_count self.old) }
    {
        if self.calls.next_fails() {
            self.faults = self.faults.saturating_add(1);
            return Err(KeeperFault::Failed);
        }
        Ok(self.tables.copied(self.alloc)?)
    }

    fn commit(&mut self, change: &Change) -> Result<(), KeeperFault>
        ensures done { OnOk result (held self.new ≡ changed change.now (held self.old)) }
        ensures same { OnErr result (held self.new ≡ held self.old) }
        ensures fails { IsErrOf result KeeperFault.Failed
            ↔ IsTrue (next_fails (schedule self.old)) }
        ensures calls { schedule self.new ≡ after_call (schedule self.old) }
        ensures counted { fault_count self.new ≡ (if next_fails (schedule self.old)
            then min (fault_count self.old + 1) (2 ^ 64 - 1) else fault_count self.old) }
        ensures later { fault_count self.old ≤ fault_count self.new }
        ensures failed { IsErrOf result KeeperFault.Failed
            → Rose (fault_count self.old) (fault_count self.new) }
        ensures no_memory { IsErrOf result KeeperFault.Memory
            → fault_count self.new ≡ fault_count self.old }
        ensures calm { OnOk result (fault_count self.new ≡ fault_count self.old) }
    {
        if self.calls.next_fails() {
            self.faults = self.faults.saturating_add(1);
            return Err(KeeperFault::Failed);
        }
        Ok(self.tables.make(self.alloc, change)?)
    }

    fn migrate(&mut self) -> Result<(), KeeperFault>
        ensures done { OnOk result (held self.new ≡ migrated (held self.old)) }
        ensures same { OnErr result (held self.new ≡ held self.old) }
        ensures fails { IsErrOf result KeeperFault.Failed
            ↔ IsTrue (next_fails (schedule self.old)) }
        ensures calls { schedule self.new ≡ after_call (schedule self.old) }
        ensures counted { fault_count self.new ≡ (if next_fails (schedule self.old)
            then min (fault_count self.old + 1) (2 ^ 64 - 1) else fault_count self.old) }
        ensures later { fault_count self.old ≤ fault_count self.new }
        ensures failed { IsErrOf result KeeperFault.Failed
            → Rose (fault_count self.old) (fault_count self.new) }
        ensures no_memory { IsErrOf result KeeperFault.Memory
            → fault_count self.new ≡ fault_count self.old }
        ensures calm { OnOk result (fault_count self.new ≡ fault_count self.old) }
    {
        if self.calls.next_fails() {
            self.faults = self.faults.saturating_add(1);
            return Err(KeeperFault::Failed);
        }
        self.tables.migrate();
        Ok(())
    }
}
