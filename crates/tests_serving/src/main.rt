//! Runs the rows of its input, each over all that is outside the program in memory, and writes what
//! it answers and what was written.
//!
//! `tests_reader` tells a row's form. Words behind `$ ` are those of a command line. The row's
//! files stand on the shelf, where one whose name is `kept NAME` also stands in the table of files,
//! as `ann` put it. Clients that wait are the files `link`, each with all that it sends, and behind
//! them the lines of the file `requests`, which are `DAY USER LABEL METHOD TARGET BODY`: the day is
//! a number, the label is `-` where the request has none, and the body is one of the row's files,
//! or left out. Each client has its reply shown.
//!
//! `! read N` has the Nth read of the shelf fail, `! write N` the Nth write, `! keeper N` the Nth
//! call of the keeper, `! clock N` that of the clock and `! door N` that of the door; `! piece N`
//! has the output take N bytes at a time. `! link K read N`, `! link K write N` and `! link K most
//! N` say the same of the link of the client K, from 1, and K is `0` for all of them.
//!
//! Words behind `> ` look at more than one call:
//!
//! - `fronts COMMAND TOP FILE`: the command over each front of the file that is whole lines. `heads
//!   FILE`: the status of each front of a request, one byte shorter than itself at most.
//! - `failing read COUNT WORD..`, `failing write COUNT WORD..`: the command, where a read or a
//!   write fails, at each of so many calls in turn. `link read COUNT`, `link write COUNT`: the same
//!   of the reads and writes of a link.
//! - `again keeper CALL..`, `again clock CALL..`: what the requests are answered where one of these
//!   calls fails, beside what they are answered where none does.
//! - `edits TOP..`: rulings of the tops behind each request, beside those of a desk that begins
//!   with the same tables. `orders TOP..`: the same where four requests come in every order.
//! - `old VERSION EDITION WORD..`: the command over the tables that the requests left, with this
//!   version, and this edition in each sign-off, or none where it is `-`; `serve` gets the requests
//!   again. `! old keeper N` has the Nth call of its keeper fail.
//! - `start WORD..`: the program's start with these words of its command line; `! line unread` has
//!   the line not be read, and `! line memory` has no memory for it. `crowded WORD..`: a command
//!   over a shelf that has no memory.
#![tactic(auto)]

mod calls;
mod edits;
mod failing;
mod fronts;
mod look;
mod outside;
mod requests;
mod starts;
mod stop;
mod versions;

use std::io;
use std::io::BufRead;
use tests_reader::Row;

fn main(rt: HostRuntime) -> io::Result<()> {
    let mut row = None;
    for line in io::BufReader::new(rt.alloc(), rt.reader())?.lines(rt.alloc()) {
        let line = line?;
        match line.as_str().strip_prefix("== ") {
            Some(title) => {
                look::end(&rt, row)?;
                row = Some(Box::new(rt.alloc(), Row::new(rt.alloc(), title)?)?);
            }
            None => {
                if let Some(row) = &mut row {
                    row.read(&line)?;
                }
            }
        }
    }
    look::end(&rt, row)
}
