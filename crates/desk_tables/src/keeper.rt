// A keeper of the tables, as the desk sees it.
ghost use Rattle.std.specs.Prelude.{◌≡◌, ◌≤◌, ℕ, Option, option_map, IfOk, IfSome, OnOk, OnErr, IsErrOf};
ghost use Rattle.desk_io.specs.Causes.{Rose};
ghost use Rattle.desk_tables.specs.Changes.{changed};
ghost use Rattle.desk_tables.specs.Migrations.{migrated};
ghost use Rattle.desk_tables.specs.Tables.{Kept, kept_of};
ghost use Rattle.desk_tables.specs.declared.keeper.KeeperFault.TheVariants.{Memory};

mod memory;

use crate::{Change, Tables};
pub use memory::MemoryKeeper;
use thiserror::Error;

/// Why the tables aren't read or changed.
#[derive(Clone, Copy, Debug, PartialEq, Eq, Error)]
pub enum KeeperFault {
    /// The keeper failed, and has counted it.
    #[error("the tables can't be read or changed")]
    Failed,
    /// There is no memory.
    #[error("out of memory")]
    Memory,
}

impl From<text_ground::memory::Memory> for KeeperFault {
    ghost from_gives = { λ _ fault. fault ≡ Memory };

    fn from(_: text_ground::memory::Memory) -> Self {
        KeeperFault::Memory
    }
}

/// What keeps the tables, and a count of the faults that keeping them met.
pub trait Keeper {
    /// The tables, where the keeper tells them.
    ghost tables: { Self → Option Kept };

    /// How many calls have failed. It stops at the last value of a `u64`.
    ghost count: { Self → ℕ };

    /// How many calls have failed. It never falls.
    fn faults(&self) -> u64
        ensures { result ≡ count self.now };

    /// All tables.
    fn load(&mut self) -> Result<Tables, KeeperFault>
        ensures told { IfSome (tables self.old) (λ held. IfOk result (λ got. kept_of got ≡ held)) }
        ensures same { tables self.new ≡ tables self.old }

        // A call that fails is counted, and nothing else is.
        ensures later { count self.old ≤ count self.new }
        ensures failed { IsErrOf result KeeperFault.Failed
            → Rose (count self.old) (count self.new) }
        ensures no_memory { IsErrOf result KeeperFault.Memory → count self.new ≡ count self.old }
        ensures calm { OnOk result (count self.new ≡ count self.old) };

    /// Does one change whole, or leaves the tables.
    fn commit(&mut self, change: &Change) -> Result<(), KeeperFault>
        ensures done { OnOk result (tables self.new
            ≡ option_map (changed change.now) (tables self.old)) }
        ensures same { OnErr result (tables self.new ≡ tables self.old) }

        // A call that fails is counted, and nothing else is.
        ensures later { count self.old ≤ count self.new }
        ensures failed { IsErrOf result KeeperFault.Failed
            → Rose (count self.old) (count self.new) }
        ensures no_memory { IsErrOf result KeeperFault.Memory → count self.new ≡ count self.old }
        ensures calm { OnOk result (count self.new ≡ count self.old) };

    /// Makes tables of version 1 those of version 2, whole, or leaves them.
    fn migrate(&mut self) -> Result<(), KeeperFault>
        ensures done { OnOk result (tables self.new ≡ option_map migrated (tables self.old)) }
        ensures same { OnErr result (tables self.new ≡ tables self.old) }

        // A call that fails is counted, and nothing else is.
        ensures later { count self.old ≤ count self.new }
        ensures failed { IsErrOf result KeeperFault.Failed
            → Rose (count self.old) (count self.new) }
        ensures no_memory { IsErrOf result KeeperFault.Memory → count self.new ≡ count self.old }
        ensures calm { OnOk result (count self.new ≡ count self.old) };
}
