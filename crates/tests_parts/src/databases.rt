//! Keepers over databases: what they answer to one call after the other.

use crate::calls::{say, text_of, words_of};
use crate::changes::change;
use crate::stop::Stop;
use crate::tables::{counts, put_rows};
use desk_sqlite::{Adopted, InFile, SqlKeeper};
use desk_tables::{Keeper, KeeperFault, Tables};
use sqlite::{Connection, MemStore};
use std::alloc::Global;

/// A keeper over a database in memory.
type MemoryDatabase = SqlKeeper<Adopted<MemStore>>;

/// A keeper over a database in memory that these statements make.
fn keeper_over(alloc: Global, sql: &str) -> Result<Box<MemoryDatabase>, Stop> {
    let mut connection = Connection::open_in_memory(alloc)?;
    connection.execute_batch(sql)?;
    let keeper = SqlKeeper::new(alloc, Adopted::new(connection));
    Ok(Box::new(alloc, keeper)?)
}

/// The rows of tables, or how many they are.
fn put_tables(
    alloc: Global,
    is_whole: bool,
    tables: &Tables,
    out: &mut Vec<u8>,
) -> Result<(), Stop> {
    if is_whole {
        put_rows(alloc, tables, out)
    } else {
        say(out, &counts(alloc, tables)?)
    }
}

fn put_loaded<K: Keeper>(
    alloc: Global,
    keeper: &mut K,
    is_whole: bool,
    out: &mut Vec<u8>,
) -> Result<(), Stop> {
    match keeper.load() {
        Ok(tables) => put_tables(alloc, is_whole, &tables, out),
        Err(fault) => put_fault(alloc, fault, out),
    }
}

fn put_fault(alloc: Global, fault: KeeperFault, out: &mut Vec<u8>) -> Result<(), Stop> {
    say(out, &format!(in alloc; "{fault:?}")?)
}

fn put_done(alloc: Global, done: Result<(), KeeperFault>, out: &mut Vec<u8>) -> Result<(), Stop> {
    match done {
        Ok(()) => say(out, "made"),
        Err(fault) => put_fault(alloc, fault, out),
    }
}

fn put_committed<K: Keeper>(
    alloc: Global,
    keeper: &mut K,
    line: &str,
    out: &mut Vec<u8>,
) -> Result<(), Stop> {
    let words = words_of(alloc, line)?;
    let change = change(alloc, &words)?;
    put_done(alloc, keeper.commit(&change), out)
}

/// A call, what it is answered, and how many calls have failed.
fn put_call<K: Keeper>(
    alloc: Global,
    keeper: &mut K,
    line: &str,
    out: &mut Vec<u8>,
) -> Result<(), Stop> {
    say(out, &format!(in alloc; "{line} -> ")?)?;
    match line {
        "load" => put_loaded(alloc, keeper, false, out)?,
        "rows" => put_loaded(alloc, keeper, true, out)?,
        "migrate" => put_done(alloc, keeper.migrate(), out)?,
        _ => put_committed(alloc, keeper, line, out)?,
    }
    say(out, &format!(in alloc; ", faults {}\n", keeper.faults())?)
}

/// What is answered to each call, over a database in memory that these statements make.
pub fn told(alloc: Global, sql: &[u8], calls: &[u8]) -> Result<Vec<u8>, Stop> {
    let mut keeper = keeper_over(alloc, text_of(sql)?)?;
    let mut out = Vec::new(alloc);
    for line in text_of(calls)?.lines() {
        put_call(alloc, &mut *keeper, line, &mut out)?;
    }
    Ok(out)
}

/// What is answered to two loads of a database, to which a further statement was done.
pub fn broken(alloc: Global, sql: &[u8], statement: &[u8]) -> Result<Vec<u8>, Stop> {
    let all = format!(in alloc; "{} {}", text_of(sql)?, text_of(statement)?)?;
    let mut keeper = keeper_over(alloc, &all)?;
    let mut out = Vec::new(alloc);
    for end in [", ", ""] {
        put_loaded(alloc, &mut *keeper, false, &mut out)?;
        say(
            &mut out,
            &format!(in alloc; " faults {}{end}", keeper.faults())?,
        )?;
    }
    Ok(out)
}

/// What is answered to each call, over the database in its file. `again` lets its keeper go, and
/// takes a new one.
pub fn stored(rt: &HostRuntime, calls: &[u8]) -> Result<Vec<u8>, Stop> {
    let alloc = rt.alloc();
    let mut keeper = SqlKeeper::new(alloc, InFile { runtime: rt });
    let mut out = Vec::new(alloc);
    for line in text_of(calls)?.lines() {
        if line == "again" {
            keeper = SqlKeeper::new(alloc, InFile { runtime: rt });
            say(&mut out, "again\n")?;
        } else {
            put_call(alloc, &mut keeper, line, &mut out)?;
        }
    }
    Ok(out)
}
