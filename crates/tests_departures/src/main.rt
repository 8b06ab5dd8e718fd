//! Runs the rows of its input, each of which has the name of a top module and its scope in a dump as words, the dump as its first
//! file and the modules as its second, and writes what is told of the dump. `tests_reader` tells a row's form.
#![tactic(auto)]

mod told;

use std::io;
use std::io::BufRead;
use tests_reader::{Row, malformed, show};
use told::told;

/// Writes what is told of a row's dump.
fn end(rt: &(impl Print + AllocGlobal), row: Option<Box<Row>>) -> io::Result<()> {
    let Some(row) = row else {
        return Ok(());
    };
    println!(rt; "== {}", row.title)?;
    let [top, scope] = row.words.as_slice() else {
        return Err(malformed());
    };
    let [dump, modules] = row.files.as_slice() else {
        return Err(malformed());
    };
    let text = told(rt.alloc(), top.as_bytes(), scope, &dump.text, &modules.text)?;
    show(rt, &text, 40)
}

fn main(rt: HostRuntime) -> io::Result<()> {
    let mut row = None;
    for line in io::BufReader::new(rt.alloc(), rt.reader())?.lines(rt.alloc()) {
        let line = line?;
        match line.as_str().strip_prefix("== ") {
            Some(title) => {
                end(&rt, row)?;
                row = Some(Box::new(rt.alloc(), Row::new(rt.alloc(), title)?)?);
            }
            None => {
                if let Some(row) = &mut row {
                    row.read(&line)?;
                }
            }
        }
    }
    end(&rt, row)
}
