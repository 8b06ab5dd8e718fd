//! What a row looks at, and what is written of it.

use crate::stop::Stop;
use crate::{expressions, items, layers, names, numbers, scans, sets, texts, vectors};
use rtl_flat::design::Design;
use std::alloc::Global;
use std::io;
use tests_designs::designed;
use tests_reader::{Row, show};
use text_ground::text::MAX_BYTES;

/// What a look without a file says.
fn without_file(alloc: Global, row: &Row, goal: &str) -> Result<Vec<u8>, Stop> {
    match goal {
        "names" => names::told(alloc, &row.files),
        "vectors" => vectors::told(alloc),
        _ => Err(Stop::NoLook),
    }
}

/// What a look at a text says.
fn of_text(alloc: Global, goal: &str, text: &[u8]) -> Result<Vec<u8>, Stop> {
    if text.len() > MAX_BYTES {
        return Err(Stop::TooLong);
    }
    match goal {
        "tokens" => texts::tokens(alloc, text),
        "count" => texts::count(alloc, text),
        "numbers" => numbers::told(alloc, text),
        "modules" => texts::modules(alloc, text),
        "place" => layers::place(alloc, text),
        "layers" => layers::told(alloc, text),
        "set" => sets::told(alloc, text),
        _ => Err(Stop::NoLook),
    }
}

/// What a look at a design says.
fn of_design(alloc: Global, goal: &str, design: &Design) -> Result<Vec<u8>, Stop> {
    match goal {
        "expressions" => expressions::told(alloc, design),
        "items" => items::told(alloc, design),
        "instances" => items::instances(alloc, design),
        "levels" => scans::levels_told(alloc, design),
        "accesses" => scans::accesses(alloc, design),
        _ => Err(Stop::NoLook),
    }
}

/// What a look says of one text. Words between its first and its last name the top module.
fn one(alloc: Global, words: &[String], text: &[u8]) -> Result<Vec<u8>, Stop> {
    match words {
        [goal, _] => of_text(alloc, goal, text),
        [goal, top, _] => match designed(alloc, top.as_bytes(), text) {
            Ok(design) => of_design(alloc, goal, &design),
            Err(no) => Err(Stop::NoDesign(no)),
        },
        _ => Err(Stop::NoLook),
    }
}

/// A line, and what a look says of it.
fn put_line(alloc: Global, words: &[String], line: &[u8], out: &mut Vec<u8>) -> Result<(), Stop> {
    out.extend_from_slice(line)?;
    out.extend_from_slice(b" -> ")?;
    match one(alloc, words, line) {
        Ok(told) => out.extend_from_slice(&told)?,
        Err(stop) => out.extend_from_slice(format!(in alloc; "{stop}")?.as_bytes())?,
    }
    out.push(b'\n')?;
    Ok(())
}

/// What a look says of each line of a text.
fn each(alloc: Global, words: &[String], text: &[u8]) -> Result<Vec<u8>, Stop> {
    let mut out = Vec::new(alloc);
    for line in text.split(|b| *b == b'\n') {
        if !line.is_empty() {
            put_line(alloc, words, line, &mut out)?;
        }
    }
    Ok(out)
}

/// What the look of a row says.
fn told(alloc: Global, row: &Row) -> Result<Vec<u8>, Stop> {
    match row.words.as_slice() {
        [goal] => without_file(alloc, row, goal),
        [goal, steps] if goal.as_str() == "ladder" => texts::ladder(alloc, steps),
        [first, rest @ .., name] => match row.text(name) {
            None => Err(Stop::NoFile),
            Some(text) if first.as_str() == "each" => each(alloc, &row.words[1..], text),
            Some(text) => one(alloc, &row.words, text),
        },
        [] => Err(Stop::NoLook),
    }
}

/// The same, with a line feed at its end.
fn line(alloc: Global, row: &Row) -> Result<Vec<u8>, Stop> {
    let mut out = told(alloc, row)?;
    if !out.ends_with(b"\n") {
        out.push(b'\n')?;
    }
    Ok(out)
}

/// Ends a row, where there is one.
pub fn end(rt: &(impl Print + AllocGlobal), row: Option<Box<Row>>) -> io::Result<()> {
    let Some(row) = row else {
        return Ok(());
    };
    println!(rt; "== {}", row.title)?;
    match line(rt.alloc(), &row) {
        Ok(text) => show(rt, &text, usize::MAX),
        Err(stop) => println!(rt; "{stop}"),
    }
}
