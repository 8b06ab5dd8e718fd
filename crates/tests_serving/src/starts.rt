//! The program's start, and a shelf that has no memory.

ghost use Rattle.std.specs.Prelude.{None};

use crate::requests::outside_with;
use crate::stop::Stop;
use desk_command::desk_top::top::desk;
use desk_io::{MemorySink, Shelf, ShelfFault};
use std::alloc::Global;
use std::io;
use std::io::ErrorKind;
use tests_reader::{Row, show};

/// The words of a command line, or why it isn't read.
fn line_of(alloc: Global, row: &Row, words: &[String]) -> Result<Vec<String>, io::Error> {
    for fault in &row.faults {
        match fault.as_str() {
            "line unread" => return Err(io::Error::from(ErrorKind::InvalidData)),
            "line memory" => return Err(io::Error::from(ErrorKind::OutOfMemory)),
            _ => {}
        }
    }
    let mut line = Vec::new(alloc);
    for word in words {
        line.push(String::from_str(alloc, word)?)?;
    }
    Ok(line)
}

/// What the program answers to a command line that was read like that, and what it writes.
pub fn started(rt: &(impl Print + AllocGlobal), row: &Row, words: &[String]) -> Result<(), Stop> {
    let alloc: Global = rt.alloc();
    let mut outside = outside_with(alloc, row, &[])?;
    let line = line_of(alloc, row, words).map(|words| words.into_iter());
    let status = outside.start(line);
    println!(rt; "status {status}")?;
    show(rt, outside.sink.bytes(), usize::MAX)?;
    Ok(())
}

/// A shelf that finds no memory for a file.
#[derive(Clone, Copy)]
struct CrowdedShelf;

impl Shelf for CrowdedShelf {
    ghost files = { λ _. None };

    ghost faults = { λ _. 0 };

    fn read(&mut self, _name: &str) -> Result<Vec<u8>, ShelfFault> {
        Err(ShelfFault::Memory)
    }
}

/// What a command answers over such a shelf, and what it writes.
pub fn crowded(rt: &(impl Print + AllocGlobal), words: &[String]) -> Result<(), Stop> {
    let mut sink = MemorySink::new(rt.alloc());
    let status = desk(rt.alloc(), words, &mut CrowdedShelf, &mut sink);
    println!(rt; "status {status}")?;
    show(rt, sink.bytes(), usize::MAX)?;
    Ok(())
}
