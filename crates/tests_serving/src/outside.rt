//! All that is outside the whole call, in memory.

use crate::stop::Stop;
use desk_command::{desk, start};
use desk_io::{MemoryShelf, MemorySink};
use desk_links::{MemoryClock, MemoryDoor, MemoryLink};
use desk_tables::{Day, FileRow, MemoryKeeper, Tables};
use std::alloc::Global;
use std::env::Args;
use std::io;

/// How each reply begins.
const VERSION: &[u8] = b"HTTP/1.1 ";

/// What a call is given besides its words.
#[derive(Drop)]
pub struct Outside {
    alloc: Global,
    pub shelf: MemoryShelf,
    pub keeper: Box<MemoryKeeper>,
    pub clock: MemoryClock,
    pub sink: MemorySink,
    pub door: Box<MemoryDoor>,
    links: usize,
}

/// New tables with these files.
fn keeper_of(alloc: Global, files: Vec<FileRow>) -> Result<Box<MemoryKeeper>, Stop> {
    let mut tables = Tables::new(alloc)?;
    tables.files = files;
    Ok(Box::new(alloc, MemoryKeeper::new(alloc, tables))?)
}

/// Tables with these files, no file on the shelf, no link, and these days.
pub fn outside_over(
    alloc: Global,
    files: Vec<FileRow>,
    days: Vec<Day>,
) -> Result<Box<Outside>, Stop> {
    let keeper = keeper_of(alloc, files)?;
    let door = Box::new(alloc, MemoryDoor::new(alloc))?;
    let outside = Outside {
        alloc,
        shelf: MemoryShelf::new(alloc),
        keeper,
        clock: MemoryClock::new(alloc, days),
        sink: MemorySink::new(alloc),
        door,
        links: 0,
    };
    Ok(Box::new(alloc, outside)?)
}

impl Outside {
    /// The status of a command line.
    pub fn call(&mut self, words: &[String]) -> u8 {
        desk(
            self.alloc,
            words,
            &mut self.shelf,
            &mut *self.keeper,
            &mut self.clock,
            &mut *self.door,
            &mut self.sink,
        )
    }

    /// The status of the program, whose command line was read like that.
    pub fn start(&mut self, line: io::Result<Args>) -> u8 {
        start(
            self.alloc,
            line,
            &mut self.shelf,
            &mut *self.keeper,
            &mut self.clock,
            &mut *self.door,
            &mut self.sink,
        )
    }

    /// How many clients have come.
    pub fn links(&self) -> usize {
        self.links
    }

    /// Has a client wait, behind the others.
    pub fn connect(&mut self, link: MemoryLink) -> Result<(), Stop> {
        self.door.add(link)?;
        self.links = self.links.saturating_add(1);
        Ok(())
    }

    /// Has a client wait that sends this.
    pub fn send(&mut self, input: &[u8]) -> Result<(), Stop> {
        let input = Vec::from_slice(self.alloc, input)?;
        let link = MemoryLink::new(self.alloc, input)?;
        self.connect(link)
    }

    /// Serves the last of those that have come, so many.
    pub fn serve(&mut self, count: usize) -> Result<(), Stop> {
        let mut words = Vec::new(self.alloc);
        words.push(String::from_str(self.alloc, "serve")?)?;
        words.push(String::from_str(self.alloc, "8080")?)?;
        words.push(format!(in self.alloc; "{count}")?)?;
        match self.call(&words) {
            0 => Ok(()),
            _ => Err(Stop::Unserved),
        }
    }

    /// What the client of this number, from 0, was written, where all were served.
    pub fn reply(&self, number: usize) -> &[u8] {
        let behind = self.links.saturating_sub(number).saturating_sub(1);
        self.door.written(behind).unwrap_or(b"")
    }

    /// The digits of that reply's status, or a dash for each where there is none.
    pub fn status(&self, number: usize) -> &[u8] {
        match self.reply(number).strip_prefix(VERSION) {
            Some(rest) => rest.get(..3).unwrap_or(b"---"),
            None => b"---",
        }
    }
}
