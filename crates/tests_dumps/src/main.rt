//! Runs the rows of its input, each of which has a dump as its file, and writes what is read of it: each scope that begins or ends,
//! each variable with its width and the number of its code; each time, and each change that stands before the next, with the
//! number of its code and the value that the first variable of that code has then; or why the text is no dump.
//! `tests_reader` tells a row's form.
#![tactic(auto)]

mod told;

use std::io;
use std::io::BufRead;
use tests_reader::{Row, show};
use told::told;

/// Writes what is read of a row's dump.
fn end(rt: &(impl Print + AllocGlobal), row: Option<Box<Row>>) -> io::Result<()> {
    let Some(row) = row else {
        return Ok(());
    };
    println!(rt; "== {}", row.title)?;
    for file in &row.files {
        show(rt, &told(rt.alloc(), &file.text)?, 40)?;
    }
    Ok(())
}

fn main(rt: HostRuntime) -> io::Result<()> {
    let mut row = None;
    for line in io::BufReader::new(rt.alloc(), rt.reader())?.lines(rt.alloc()) {
        let line = line?;
        match line.as_str().strip_prefix("== ") {
            Some(title) => {
                end(&rt, row)?;
                row = Some(Box::new(rt.alloc(), Row::new(rt.alloc(), title)?)?);
            }
            None => {
                if let Some(row) = &mut row {
                    row.read(&line)?;
                }
            }
        }
    }
    end(&rt, row)
}
