//! Runs the rows of its input, each of which looks at one layer below the top call, and writes what that layer answers.
//!
//! `tests_reader` tells a row's form. Its words say at which layer it looks:
//!
//! - `tokens FILE`: which tokens of a text are kept, and a letter and the place of each region that is dropped, `I` for an `initial`,
//!   `T` for text that is hidden and `C` for a comment that tells nothing. `count FILE`: how many are kept.
//!   `numbers FILE`: of each number its width, the digits of its 1 and z, those of its x and z,
//!   and whether it is signed and has a size. `ladder N`: the tokens of a use of the last of N macros, each a use of the one before.
//! - `modules FILE`: the names of the modules of an empty file, and of this one, each behind a slash. `place FILE`: where the outermost
//!   operator of the last assignment's value stands. `layers FILE`: what each call of the front end makes of a text.
//! - `names`: the numbers of those of the row's files that `top` uses; the names that it looks up, each with the file and the
//!   place in it that it means, `?` for none and `!` for two; and its design, or why it has none.
//! - `expressions TOP FILE`: of the value of each continuous assignment, from the outermost operator inwards, the width, `s` or `u`,
//!   and a letter for its form. `items TOP FILE`: signals with width and sign, processes by instance with their number of
//!   statements, dropped regions and delays. `instances TOP FILE`: their paths.
//! - `levels TOP FILE`: the level of each process, and a `t` for each temporary. `accesses TOP FILE`: what the first process reads,
//!   may write, surely writes and lists, each as signals with masks.
//! - `vectors`: what the calls on vectors give. `set FILE`: a set of ranks below the first number, into which those behind `+` are put
//!   and out of which those behind `-` are taken.
//!
//! `each` before these words looks at every line of the file as a text of its own.
#![tactic(auto)]

mod expressions;
mod items;
mod layers;
mod look;
mod names;
mod numbers;
mod scans;
mod sets;
mod stop;
mod texts;
mod vectors;
mod words;

use std::io;
use std::io::BufRead;
use tests_reader::Row;

fn main(rt: HostRuntime) -> io::Result<()> {
    let mut row = None;
    for line in io::BufReader::new(rt.alloc(), rt.reader())?.lines(rt.alloc()) {
        let line = line?;
        match line.as_str().strip_prefix("== ") {
            Some(title) => {
                look::end(&rt, row)?;
                row = Some(Box::new(rt.alloc(), Row::new(rt.alloc(), title)?)?);
            }
            None => {
                if let Some(row) = &mut row {
                    row.read(&line)?;
                }
            }
        }
    }
    look::end(&rt, row)
}
