// What the desk starts with.
ghost use Rattle.std.specs.Prelude.{◌≡◌, ◌≤◌, None, option_map, if◌then◌else◌, IfOk, IfSome, OnErr, OnOk, IsErrOf};
ghost use Rattle.desk_io.specs.Causes.{Rose};
ghost use Rattle.desk_tables.specs.Migrations.{current, migrated};
ghost use Rattle.desk_tables.specs.Rules.{broken_row};
ghost use Rattle.desk_tables.specs.Tables.{kept_of};
ghost use Rattle.desk_core.specs.Files.{AreFilesOf};
ghost use Rattle.desk_core.specs.Starting.{IsStart, IsStartOver};

use crate::Desk;
use design_db::Db;
use desk_records::Records;
use desk_tables::{Keeper, KeeperFault, Table, Tables, bad_row};
use std::alloc::Global;
use text_ground::memory::Memory;
use thiserror::Error;

/// Why the desk doesn't start.
#[derive(Clone, Copy, Debug, PartialEq, Eq, Error)]
pub enum StartFault {
    /// The keeper failed, and has counted it.
    #[error("the tables can't be read or migrated")]
    Keeper,
    /// The first table that breaks a rule, and the number, from 1, of its first row that does.
    #[error("row {1} of a table breaks a rule")]
    BadTables(Table, usize),
    /// There is no memory.
    #[error("out of memory")]
    Memory,
}

// The files of tables, where no row breaks a rule.
fn files_of(alloc: Global, tables: &Tables) -> Result<Db, Memory>
    requires { broken_row (kept_of tables.now) ≡ None }
    ensures { IfOk result (λ db. AreFilesOf (kept_of tables.now).files db.files) }
{
    let mut db = Db::new(alloc);
    for row in &tables.files {
        db.put(&row.name, &row.text)?;
    }
    Ok(db)
}

// The desk over tables, which are migrated where they are of version 1.
fn desk_with(alloc: Global, mut tables: Tables) -> Result<Desk, Memory>
    requires { broken_row (kept_of tables) ≡ None }
    ensures { IfOk result (λ desk. desk.kept ≡ current (kept_of tables)) }
{
    let db = files_of(alloc, &tables)?;
    tables.make_current();
    Ok(Desk {
        alloc,
        records: Records::new(alloc, tables),
        db,
    })
}

// The desk over tables, where none of their rows breaks a rule.
fn desk_over(alloc: Global, tables: Tables) -> Result<Desk, StartFault>
    ensures over { IsStartOver (kept_of tables) result }
    ensures calm { ¬ IsErrOf result StartFault.Keeper }
{
    match bad_row(alloc, &tables) {
        Ok(Some((table, row))) => Err(StartFault::BadTables(table, row)),
        Ok(None) => match desk_with(alloc, tables) {
            Ok(desk) => Ok(desk),
            Err(Memory) => Err(StartFault::Memory),
        },
        Err(Memory) => Err(StartFault::Memory),
    }
}

// Has a keeper migrate its tables, where they are of version 1.
fn migrate_old<K: Keeper>(keeper: &mut K, are_old: bool) -> Result<(), KeeperFault>
    ensures done { OnOk result (K.tables keeper.new
        ≡ (if are_old then option_map migrated (K.tables keeper.old) else K.tables keeper.old)) }
    ensures same { OnErr result (K.tables keeper.new ≡ K.tables keeper.old) }
    ensures later { K.count keeper.old ≤ K.count keeper.new }
    ensures failed { IsErrOf result KeeperFault.Failed
        → Rose (K.count keeper.old) (K.count keeper.new) }
    ensures no_memory { IsErrOf result KeeperFault.Memory
        → K.count keeper.new ≡ K.count keeper.old }
    ensures calm { OnOk result (K.count keeper.new ≡ K.count keeper.old) }
{
    if are_old { keeper.migrate() } else { Ok(()) }
}

// The desk over the tables of a keeper, which migrates them last: nothing takes memory after it.
fn start_over<K: Keeper>(alloc: Global, keeper: &mut K, tables: Tables) -> Result<Desk, StartFault>
    requires { IfSome (K.tables keeper.old) (λ held. kept_of tables ≡ held) }
    ensures over { IsStartOver (kept_of tables) result }
    ensures migrated { OnOk result (K.tables keeper.new
        ≡ option_map current (K.tables keeper.old)) }
    ensures same { OnErr result (K.tables keeper.new ≡ K.tables keeper.old) }
    ensures unkept { IsErrOf result StartFault.Keeper
        → Rose (K.count keeper.old) (K.count keeper.new) }
    ensures later { K.count keeper.old ≤ K.count keeper.new }
    ensures calm { (¬ IsErrOf result StartFault.Keeper)
        → K.count keeper.new ≡ K.count keeper.old }
{
    let are_old = tables.are_old();
    match desk_over(alloc, tables) {
        Ok(desk) => match migrate_old(keeper, are_old) {
            Ok(()) => Ok(desk),
            Err(KeeperFault::Failed) => Err(StartFault::Keeper),
            Err(KeeperFault::Memory) => Err(StartFault::Memory),
        },
        Err(fault) => Err(fault),
    }
}

impl Desk {
    /// Starts over the tables that a keeper holds, and has it migrate those of version 1. Fails
    /// where the keeper fails, where a row breaks a rule of the tables, and where memory runs out;
    /// the tables are as before then.
    pub fn start<K: Keeper>(alloc: Global, keeper: &mut K) -> Result<Desk, StartFault>
        ensures started { IsStart (K.tables keeper.old) result }
        ensures unkept { IsErrOf result StartFault.Keeper
            → Rose (K.count keeper.old) (K.count keeper.new) }
        ensures migrated { OnOk result (K.tables keeper.new
            ≡ option_map current (K.tables keeper.old)) }
        ensures same { OnErr result (K.tables keeper.new ≡ K.tables keeper.old) }
        ensures later { K.count keeper.old ≤ K.count keeper.new }
        ensures calm { (¬ IsErrOf result StartFault.Keeper)
            → K.count keeper.new ≡ K.count keeper.old }
    {
        match keeper.load() {
            Ok(tables) => start_over(alloc, keeper, tables),
            Err(KeeperFault::Failed) => Err(StartFault::Keeper),
            Err(KeeperFault::Memory) => Err(StartFault::Memory),
        }
    }
}
