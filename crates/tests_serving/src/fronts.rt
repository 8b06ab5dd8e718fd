//! Texts and requests that are cut.

use crate::requests::outside_with;
use crate::stop::Stop;
use std::alloc::Global;
use tests_reader::Row;

/// The first line of a text.
fn first_line(text: &[u8]) -> Result<&str, Stop> {
    let line = text.split(|b| *b == b'\n').next().unwrap_or(b"");
    match str::from_utf8(line) {
        Ok(line) => Ok(line),
        Err(_) => Err(Stop::Unwritten),
    }
}

/// The status of a command over one file, and the first line that it writes.
fn put_front(
    rt: &(impl Print + AllocGlobal),
    row: &Row,
    words: &[String],
    count: usize,
    front: &[u8],
) -> Result<(), Stop> {
    let alloc: Global = rt.alloc();
    let mut outside = outside_with(alloc, row, &[])?;
    if let [_, _, name] = words {
        outside.shelf.add(name, front)?;
    }
    let status = outside.call(words);
    println!(rt;
        "{count} lines -> status {status} {}",
        first_line(outside.sink.bytes())?
    )?;
    Ok(())
}

/// A command over each front of a file that is whole lines, and over the whole.
pub fn of_file(rt: &(impl Print + AllocGlobal), row: &Row, words: &[String]) -> Result<(), Stop> {
    let [_, _, name] = words else {
        return Err(Stop::NoLook);
    };
    let Some(text) = row.text(name) else {
        return Err(Stop::NoFile);
    };
    let mut front = Vec::new(rt.alloc());
    let mut count: usize = 0;
    for line in text.split_inclusive(|b| *b == b'\n') {
        put_front(rt, row, words, count, &front)?;
        front.extend_from_slice(line)?;
        count = count.saturating_add(1);
    }
    put_front(rt, row, words, count, &front)
}

/// The status of each front of a request that is shorter than itself, each of a client of its own.
pub fn of_request(
    rt: &(impl Print + AllocGlobal),
    row: &Row,
    words: &[String],
) -> Result<(), Stop> {
    let alloc: Global = rt.alloc();
    let [name] = words else {
        return Err(Stop::NoLook);
    };
    let Some(text) = row.text(name) else {
        return Err(Stop::NoFile);
    };
    let mut outside = outside_with(alloc, row, &[])?;
    for count in 0..text.len() {
        outside.send(text.get(..count).unwrap_or(text))?;
    }
    outside.serve(text.len())?;
    let mut told = format!(in alloc; "{} fronts:", text.len())?;
    for number in 0..text.len() {
        let status = str::from_utf8(outside.status(number)).unwrap_or("---");
        told.push_str(&format!(in alloc; " {status}")?)?;
    }
    println!(rt; "{told}")?;
    Ok(())
}
