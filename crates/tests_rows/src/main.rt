//! Runs the rows of its input, each through the top call, and writes what each answers.
//!
//! `tests_reader` tells a row's form. Words behind `$ ` are those of a command line. `! read N` has the Nth read fail, `! write N`
//! the Nth write, and `! piece N` has the sink take N bytes at a time.
//!
//! Words behind `> ` look below the call:
//!
//! - `design TOP FILE` says how large the design is, `netlist TOP FILE` what all numbers of its netlist are before its first step,
//!   folded into one, and `steps TOP FILE STEPS` what they are behind the steps of a file, as `desk simulate` reads them.
//! - `stored TOP FILE` lists registers and latches, and inputs of the top, `registers TOP FILE` says whether registers are inferred, or
//!   why not, and `start TOP FILE BIT BIT` whether the netlist is simulated where registers and latches have one bit in every
//!   place, and inputs another.
//! - `run TOP FILE STEPS FILL PATH HELD GIVEN` says which numbers a signal has before the first step and after each, with numbers for
//!   registers and latches and for inputs. `beside TOP FILE STEPS` says whether the event queue has the same values after each.
//! - `events TOP FILE STEPS PATH..` takes the first step from power-up, each time the last of the active events, and says how
//!   many there were and what some signals have then.
//! - `shown TOP FILE RULE PATH..` says what is shown for findings of rules on signals, and `replayed TOP FILE TRIAL STEP SIGNAL` why a
//!   demonstration by its numbers shows nothing. `demonstration TOP FILE DEMO` shows one, as `desk replay` reads it, step by step;
//!   `tools/waves --row TITLE` turns these lines into a value change dump.
#![tactic(auto)]

mod beside;
mod demos;
mod events;
mod look;
mod moments;
mod netlists;
mod row;
mod runs;
mod starts;

use std::io;
use std::io::BufRead;
use tests_reader::Row;

fn main(rt: HostRuntime) -> io::Result<()> {
    let mut row = None;
    for line in io::BufReader::new(rt.alloc(), rt.reader())?.lines(rt.alloc()) {
        let line = line?;
        match line.as_str().strip_prefix("== ") {
            Some(title) => {
                row::end(&rt, row)?;
                row = Some(Box::new(rt.alloc(), Row::new(rt.alloc(), title)?)?);
            }
            None => {
                if let Some(row) = &mut row {
                    row.read(&line)?;
                }
            }
        }
    }
    row::end(&rt, row)
}
