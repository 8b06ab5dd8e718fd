//! Runs the rows of its input, each of which looks at a part that the desk is made of, and writes
//! what that part answers.
//!
//! `tests_reader` tells a row's form. Its words say at which part it looks:
//!
//! - `date FILE`: the day of a number as a date. `value FILE`: a value of a width, as a report
//!   writes it, where `number` stands before its digits or `all` before the letter of all its bits.
//! - `positions AT.. FILE`: the lines and columns of places in a text. `spots FILE:AT..`: the same
//!   of the row's files by their numbers, as a report writes them.
//! - `steps TOP SOURCE FILE`: what a file of steps asks for, its order by a letter, and behind `/`
//!   the settings of each step, each a signal's number and its bits from the least significant on;
//!   or its first line that is none. `count TOP SOURCE FILE`: how many.
//! - `heard FILE`: what a request's bytes ask for, or the status of their refusal, or `more`.
//!   `waiver FILE`: the same of the request for a waiver whose body this is. `reply STATUS KIND
//!   FILE`: a reply with this body. `without memory`: that of want of memory.
//! - `shelf KIND CALLS` and `sink KIND CALLS`: what a shelf or a sink answers to calls, one a line.
//!   A shelf is over `memory` or over the `system`, where a name that ends in a slash is a folder;
//!   a sink over `memory`, over a `writer`, or over one that is `full`.
//! - `database SQL CALLS`, `database CALLS`: what a keeper answers to calls, over a database in
//!   memory that the statements make. `stored CALLS`: the same over the database in its file, which
//!   `again` closes and opens. `broken SQL FILE`: two loads of such a database, to which a further
//!   statement was done.
//! - `clock`: what stays the same of the day by the system's clock. `loopback SENT ANSWERED`: what
//!   comes through a door at a port of this machine, and what comes back.
//!
//! `each` before these words looks at every line of the last file as a text of its own, in which a
//! backslash escapes.
#![tactic(auto)]

mod calls;
mod changes;
mod clock;
mod databases;
mod look;
mod network;
mod places;
mod requests;
mod shelves;
mod sinks;
mod step_files;
mod stop;
mod tables;
mod values;

use std::io;
use std::io::BufRead;
use tests_reader::Row;

fn main(rt: HostRuntime) -> io::Result<()> {
    let mut row = None;
    for line in io::BufReader::new(rt.alloc(), rt.reader())?.lines(rt.alloc()) {
        let line = line?;
        match line.as_str().strip_prefix("== ") {
            Some(title) => {
                look::end(&rt, row)?;
                row = Some(Box::new(rt.alloc(), Row::new(rt.alloc(), title)?)?);
            }
            None => {
                if let Some(row) = &mut row {
                    row.read(&line)?;
                }
            }
        }
    }
    look::end(&rt, row)
}
