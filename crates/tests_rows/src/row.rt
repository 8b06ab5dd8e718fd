//! A row's call of the top call, or its look below it, and what is written of either.

use crate::look::told;
use desk_io::{MemoryShelf, MemorySink};
use desk_top::top::desk;
use std::alloc::Global;
use std::io;
use tests_reader::{Row, malformed, show};

/// A text that a call wrote is shown whole up to this many lines.
const MOST_SHOWN: usize = 16;

/// The files of a row.
fn shelf_of(alloc: Global, row: &Row) -> io::Result<MemoryShelf> {
    let mut shelf = MemoryShelf::new(alloc);
    for file in &row.files {
        shelf.add(&file.name, &file.text)?;
    }
    Ok(shelf)
}

/// `read N` has the Nth read fail, `write N` the Nth write, and `piece N` has the sink take N bytes at a time.
fn plan(fault: &str, shelf: &mut MemoryShelf, sink: &mut MemorySink) -> io::Result<()> {
    let (what, number) = fault.split_once(" ").ok_or(malformed())?;
    let number = number.parse::<u64>().map_err(|_| malformed())?;
    match what {
        "read" => Ok(shelf.fail_at(number)?),
        "write" => Ok(sink.fail_at(number)?),
        _ => {
            sink.take_at_most(number as usize);
            Ok(())
        }
    }
}

/// Makes the call, and writes its status, how many reads and writes failed, and what it wrote.
fn call(rt: &(impl Print + AllocGlobal), row: &Row) -> io::Result<()> {
    let mut shelf = shelf_of(rt.alloc(), row)?;
    let mut sink = MemorySink::new(rt.alloc());
    for fault in &row.faults {
        plan(fault, &mut shelf, &mut sink)?;
    }
    let status = desk(rt.alloc(), &row.words, &mut shelf, &mut sink);
    println!(rt; "status {status}")?;
    if shelf.faults() > 0 {
        println!(rt; "failed reads {}", shelf.faults())?;
    }
    if sink.faults() > 0 {
        println!(rt; "failed writes {}", sink.faults())?;
    }
    show(rt, sink.bytes(), MOST_SHOWN)
}

fn look(rt: &(impl Print + AllocGlobal), row: &Row) -> io::Result<()> {
    match told(rt.alloc(), row) {
        Ok(text) => show(rt, &text, usize::MAX),
        Err(stop) => println!(rt; "{stop}"),
    }
}

/// Ends a row, where there is one.
pub fn end(rt: &(impl Print + AllocGlobal), row: Option<Box<Row>>) -> io::Result<()> {
    let Some(row) = row else {
        return Ok(());
    };
    println!(rt; "== {}", row.title)?;
    if row.is_look {
        look(rt, &row)
    } else {
        call(rt, &row)
    }
}
