//! Tables of an older version.

use crate::outside::Outside;
use crate::requests::{Asked, all_asked, fail, outside_with, words_of};
use crate::stop::Stop;
use desk_tables::{Keeper, MemoryKeeper, Tables};
use std::alloc::Global;
use std::io;
use tests_reader::{Row, show};

/// The desk, once it has served all requests.
fn served(alloc: Global, row: &Row, all: &[Asked]) -> Result<Box<Outside>, Stop> {
    let mut outside = outside_with(alloc, row, &[])?;
    for one in all {
        outside.send(&one.bytes)?;
    }
    outside.serve(all.len())?;
    Ok(outside)
}

fn number(word: &str) -> Result<u32, Stop> {
    match word.parse::<u32>() {
        Ok(number) => Ok(number),
        Err(_) => Err(Stop::NoLook),
    }
}

fn edition_of(word: &str) -> Result<Option<u8>, Stop> {
    if word == "-" {
        return Ok(None);
    }
    match u8::try_from(number(word)?) {
        Ok(edition) => Ok(Some(edition)),
        Err(_) => Err(Stop::NoLook),
    }
}

/// The tables of a keeper, with a version, and with an edition in each sign-off.
fn aged(keeper: &mut MemoryKeeper, version: u32, edition: Option<u8>) -> Result<Tables, Stop> {
    let Ok(mut tables) = keeper.load() else {
        return Err(Stop::Unserved);
    };
    for row in tables.meta.iter_mut() {
        row.version = version;
    }
    for row in tables.signoffs.iter_mut() {
        row.edition = edition;
    }
    Ok(tables)
}

/// Has calls fail over the tables of that version.
fn plan(alloc: Global, row: &Row, outside: &mut Outside) -> Result<(), Stop> {
    for fault in &row.faults {
        if let [kind, what, call] = words_of(alloc, fault)?.as_slice()
            && kind.as_str() == "old"
        {
            fail(outside, what, u64::from(number(call)?))?;
        }
    }
    Ok(())
}

/// The version, the edition of each sign-off, and how many replies are kept.
fn put_tables(rt: &impl Print, tables: &Tables) -> io::Result<()> {
    for row in &tables.meta {
        println!(rt; "version {}", row.version)?;
    }
    for row in &tables.signoffs {
        match row.edition {
            Some(edition) => println!(rt; "sign-off {} edition {edition}", row.id)?,
            None => println!(rt; "sign-off {}", row.id)?,
        }
    }
    println!(rt; "replies {}", tables.replies.len())
}

/// What the requests are replied when they come again.
fn put_again(rt: &impl Print, outside: &Outside, all: &[Asked]) -> io::Result<()> {
    for (place, one) in all.iter().enumerate() {
        let number = place.saturating_add(all.len());
        let is_same = outside.reply(number) == outside.reply(place);
        println!(rt; "-- {}, as before {is_same}", one.line)?;
        if !is_same {
            show(rt, outside.reply(number), usize::MAX)?;
        }
    }
    Ok(())
}

/// What a command answers, and what the tables are then, over those that the requests left, which
/// are given a version and an edition. The requests come again while it serves.
pub fn told(rt: &(impl Print + AllocGlobal), row: &Row, words: &[String]) -> Result<(), Stop> {
    let [version, edition, words @ ..] = words else {
        return Err(Stop::NoLook);
    };
    let alloc = rt.alloc();
    let all = all_asked(alloc, row)?;
    let mut outside = served(alloc, row, &all)?;
    let tables = aged(&mut outside.keeper, number(version)?, edition_of(edition)?)?;
    outside.keeper = Box::new(alloc, MemoryKeeper::new(alloc, tables))?;
    plan(alloc, row, &mut outside)?;
    for one in &all {
        outside.send(&one.bytes)?;
    }
    let status = outside.call(words);
    println!(rt; "status {status}, keeper {}", outside.keeper.faults())?;
    show(rt, outside.sink.bytes(), usize::MAX)?;
    put_tables(rt, outside.keeper.tables())?;
    // A report writes something, and serves none of them.
    if status == 0 && outside.sink.bytes().is_empty() {
        put_again(rt, &outside, &all)?;
    }
    Ok(())
}
