//! Shelves, in memory and over the files of the system.

use crate::calls::{say, text_of};
use crate::stop::Stop;
use desk_io::{FileShelf, MemoryShelf, Shelf, SystemFiles};
use std::alloc::Global;
use std::fs;
use tests_reader::{File, Row, push_quoted};

/// Up to how many bytes a file is shown.
const MOST_SHOWN: usize = 40;

/// What is read of a file: how many bytes, and which where they are few.
fn put_read(alloc: Global, bytes: &[u8], out: &mut Vec<u8>) -> Result<(), Stop> {
    say(out, &format!(in alloc; "{} bytes", bytes.len())?)?;
    if bytes.len() <= MOST_SHOWN {
        say(out, " ")?;
        push_quoted(alloc, bytes, out)?;
    }
    Ok(())
}

/// Reads one file after the other.
fn reads<S: Shelf>(alloc: Global, shelf: &mut S, names: &str) -> Result<Vec<u8>, Stop> {
    let mut out = Vec::new(alloc);
    for name in names.lines() {
        say(&mut out, &format!(in alloc; "{name} -> ")?)?;
        match shelf.read(name) {
            Ok(bytes) => put_read(alloc, &bytes, &mut out)?,
            Err(fault) => say(&mut out, &format!(in alloc; "{fault:?}")?)?,
        }
        say(&mut out, "\n")?;
    }
    Ok(out)
}

fn in_memory(alloc: Global, row: &Row) -> Result<MemoryShelf, Stop> {
    let mut shelf = MemoryShelf::new(alloc);
    for file in &row.files {
        shelf.add(&file.name, &file.text)?;
    }
    for fault in &row.faults {
        let Some(Ok(call)) = fault.strip_prefix("read ").map(|n| n.parse::<u64>()) else {
            return Err(Stop::NoCall);
        };
        shelf.fail_at(call)?;
    }
    Ok(shelf)
}

fn make(rt: &HostRuntime, file: &File) -> Result<(), Stop> {
    match file.name.strip_suffix("/") {
        Some(folder) => fs::create_dir(rt, folder)?,
        None => fs::write(rt, file.name.as_str(), &file.text)?,
    }
    Ok(())
}

fn over_system(rt: &HostRuntime, row: &Row, names: &str) -> Result<Vec<u8>, Stop> {
    let alloc = rt.alloc();
    for file in &row.files {
        make(rt, file)?;
    }
    let mut shelf = FileShelf::new(alloc, SystemFiles::new(rt));
    let mut out = reads(alloc, &mut shelf, names)?;
    say(&mut out, &format!(in alloc; "faults {}\n", shelf.faults())?)?;
    Ok(out)
}

/// What a shelf with the row's files gives of each name.
pub fn told(rt: &HostRuntime, row: &Row, kind: &str, names: &[u8]) -> Result<Vec<u8>, Stop> {
    let alloc = rt.alloc();
    let names = text_of(names)?;
    if kind == "system" {
        return over_system(rt, row, names);
    }
    let mut shelf = in_memory(alloc, row)?;
    let mut out = reads(alloc, &mut shelf, names)?;
    say(&mut out, &format!(in alloc; "faults {}\n", shelf.faults())?)?;
    Ok(out)
}
