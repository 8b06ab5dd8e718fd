//! What a row looks at, and what is written of it.

use crate::stop::Stop;
use crate::{clock, databases, network, places, requests, shelves, sinks, step_files, values};
use std::io;
use tests_reader::{Row, show, unescaped};

/// What a look without a file of its own says.
fn without_file(
    rt: &HostRuntime,
    row: &Row,
    goal: &str,
    words: &[String],
) -> Result<Vec<u8>, Stop> {
    match goal {
        "clock" => clock::told(rt),
        "spots" => places::spots(rt.alloc(), &row.files, words),
        "without" => requests::without_memory(rt.alloc()),
        _ => Err(Stop::NoLook),
    }
}

/// What a look at calls says, which stand one on each line.
fn of_calls(
    rt: &HostRuntime,
    row: &Row,
    goal: &str,
    words: &[String],
    calls: &[u8],
) -> Result<Vec<u8>, Stop> {
    match (goal, words) {
        ("shelf", [kind]) => shelves::told(rt, row, kind, calls),
        ("sink", [kind]) => sinks::told(rt.alloc(), kind, calls),
        ("database", []) => databases::told(rt.alloc(), b"", calls),
        ("database", [name]) => databases::told(rt.alloc(), file(row, name)?, calls),
        ("broken", [name]) => databases::broken(rt.alloc(), file(row, name)?, calls),
        ("stored", []) => databases::stored(rt, calls),
        ("loopback", [name]) => network::told(rt, file(row, name)?, calls),
        _ => Err(Stop::NoLook),
    }
}

fn file<'r>(row: &'r Row, name: &str) -> Result<&'r [u8], Stop> {
    match row.text(name) {
        Some(text) => Ok(text),
        None => Err(Stop::NoFile),
    }
}

/// What a look at one text says. Words between its first and its last say how it is looked at.
fn one(
    rt: &HostRuntime,
    row: &Row,
    goal: &str,
    words: &[String],
    text: &[u8],
) -> Result<Vec<u8>, Stop> {
    let alloc = rt.alloc();
    match (goal, words) {
        ("date", []) => values::date(alloc, text),
        ("value", []) => values::told(alloc, text),
        ("positions", _) => places::positions(alloc, words, text),
        ("steps", [top, name]) => step_files::told(alloc, top, file(row, name)?, text),
        ("count", [top, name]) => step_files::count(alloc, top, file(row, name)?, text),
        ("heard", []) => requests::heard(alloc, text),
        ("waiver", []) => requests::waiver(alloc, text),
        ("reply", [status, kind]) => requests::reply(alloc, status, kind, text),
        _ => of_calls(rt, row, goal, words, text),
    }
}

/// A line, and what a look says of it.
fn put_line(
    rt: &HostRuntime,
    row: &Row,
    goal: &str,
    words: &[String],
    line: &[u8],
    out: &mut Vec<u8>,
) -> Result<(), Stop> {
    out.extend_from_slice(line)?;
    out.extend_from_slice(b" -> ")?;
    let text = unescaped(rt.alloc(), line)?;
    match one(rt, row, goal, words, &text) {
        Ok(told) => out.extend_from_slice(&told)?,
        Err(stop) => out.extend_from_slice(format!(in rt.alloc(); "{stop}")?.as_bytes())?,
    }
    Ok(out.push(b'\n')?)
}

/// What a look says of each line of a text.
fn each(
    rt: &HostRuntime,
    row: &Row,
    goal: &str,
    words: &[String],
    text: &[u8],
) -> Result<Vec<u8>, Stop> {
    let mut out = Vec::new(rt.alloc());
    for line in text.split_inclusive(|b| *b == b'\n') {
        let line = line.strip_suffix(b"\n").unwrap_or(line);
        put_line(rt, row, goal, words, line, &mut out)?;
    }
    Ok(out)
}

/// What the look of a row says.
fn told(rt: &HostRuntime, row: &Row) -> Result<Vec<u8>, Stop> {
    match row.words.as_slice() {
        [first, goal, words @ .., name] if first.as_str() == "each" => {
            each(rt, row, goal, words, file(row, name)?)
        }
        [goal, words @ .., name] => match row.text(name) {
            Some(text) => one(rt, row, goal, words, text),
            None => without_file(rt, row, goal, &row.words[1..]),
        },
        [goal] => without_file(rt, row, goal, &[]),
        [] => Err(Stop::NoLook),
    }
}

/// Ends a row, where there is one.
pub fn end(rt: &HostRuntime, row: Option<Box<Row>>) -> io::Result<()> {
    let Some(row) = row else {
        return Ok(());
    };
    println!(rt; "== {}", row.title)?;
    match told(rt, &row) {
        Ok(text) => show(rt, &text, usize::MAX),
        Err(stop) => println!(rt; "{stop}"),
    }
}
