// A keeper whose tables stand in a database.
ghost use Rattle.std.specs.Prelude.{◌≡◌, ◌≢◌, ◌≤◌, None, OnOk, IsErrOf};
ghost use Rattle.desk_io.specs.Causes.{Rose};

use crate::change::change_tables;
use crate::rows::read_tables;
use crate::schema::{migrate_tables, prepare};
use crate::source::Source;
use desk_tables::{Change, Keeper, KeeperFault, Tables};
use sqlite::{Connection, Error, ErrorCode};
use std::alloc::Global;

/// A keeper whose tables stand in a database, which its first `load` opens.
#[derive(Drop)]
pub struct SqlKeeper<O: Source + Drop> {
    alloc: Global,
    source: O,
    connection: Option<Connection<O::Store>>,
    faults: u64,
}

// Counts an error but want of memory, and tells it.
fn counted(faults: &mut u64, error: Error) -> KeeperFault
    ensures other { error ≢ Error.SqliteFailure ErrorCode.OutOfMemory
        → result ≡ KeeperFault.Failed }
    ensures later { faults.old ≤ faults.new }
    ensures failed { result ≡ KeeperFault.Failed → Rose faults.old faults.new }
    ensures no_memory { result ≡ KeeperFault.Memory → faults.new ≡ faults.old }
{
    if error == Error::SqliteFailure(ErrorCode::OutOfMemory) {
        return KeeperFault::Memory;
    }
    *faults = faults.saturating_add(1);
    KeeperFault::Failed
}

// The tables of a database, which is opened where it isn't yet, and made where it is empty.
fn load_from<O: Source>(
    alloc: Global,
    source: &mut O,
    connection: &mut Option<Connection<O::Store>>,
) -> Result<Tables, Error> {
    if connection.is_none() {
        *connection = Some(source.open()?);
    }
    let Some(conn) = connection else {
        return Err(Error::SqliteFailure(ErrorCode::CannotOpen));
    };
    prepare(conn)?;
    read_tables(alloc, conn)
}

impl<O: Source + Drop> SqlKeeper<O> {
    /// A keeper of the database that a source opens. It opens none yet.
    pub fn new(alloc: Global, source: O) -> Self
        ensures faults { result.faults ≡ 0 }
        ensures unopened { result.connection ≡ None }
    {
        SqlKeeper {
            alloc,
            source,
            connection: None,
            faults: 0,
        }
    }
}

impl<O: Source + Drop> Keeper for SqlKeeper<O> {
    ghost tables = { λ _. None };

    ghost count = { λ keeper. keeper.faults };

    fn faults(&self) -> u64 {
        self.faults
    }

    /// All tables, those of a new desk where the database is empty. What a column holds and the
    /// type of its field can't is a fault.
    fn load(&mut self) -> Result<Tables, KeeperFault> {
        match load_from(self.alloc, &mut self.source, &mut self.connection) {
            Ok(tables) => Ok(tables),
            Err(error) => Err(counted(&mut self.faults, error)),
        }
    }

    /// Does one change whole, or leaves the tables. Before any `load` it is a fault.
    fn commit(&mut self, change: &Change) -> Result<(), KeeperFault>
        ensures unopened { self.old.connection ≡ None → IsErrOf result KeeperFault.Failed }
        ensures later { self.old.faults ≤ self.new.faults }
        ensures failed { IsErrOf result KeeperFault.Failed → Rose self.old.faults self.new.faults }
        ensures no_memory { IsErrOf result KeeperFault.Memory → self.new.faults ≡ self.old.faults }
        ensures calm { OnOk result (self.new.faults ≡ self.old.faults) }
    {
        let changed = match &mut self.connection {
            Some(conn) => change_tables(conn, change),
            None => Err(Error::SqliteFailure(ErrorCode::CannotOpen)),
        };
        match changed {
            Ok(()) => Ok(()),
            Err(error) => Err(counted(&mut self.faults, error)),
        }
    }

    /// Makes tables of version 1 those of version 2 in one transaction, or leaves them. Before any
    /// `load` it is a fault.
    fn migrate(&mut self) -> Result<(), KeeperFault>
        ensures unopened { self.old.connection ≡ None → IsErrOf result KeeperFault.Failed }
        ensures later { self.old.faults ≤ self.new.faults }
        ensures failed { IsErrOf result KeeperFault.Failed → Rose self.old.faults self.new.faults }
        ensures no_memory { IsErrOf result KeeperFault.Memory → self.new.faults ≡ self.old.faults }
        ensures calm { OnOk result (self.new.faults ≡ self.old.faults) }
    {
        let migrated = match &mut self.connection {
            Some(conn) => migrate_tables(conn),
            None => Err(Error::SqliteFailure(ErrorCode::CannotOpen)),
        };
        match migrated {
            Ok(()) => Ok(()),
            Err(error) => Err(counted(&mut self.faults, error)),
        }
    }
}
