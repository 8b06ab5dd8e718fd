//! What a row looks at.

use crate::stop::Stop;
use crate::{calls, edits, failing, fronts, starts, versions};
use std::io;
use tests_reader::Row;

fn told(rt: &(impl Print + AllocGlobal), row: &Row) -> Result<(), Stop> {
    if !row.is_look {
        return calls::call(rt, row);
    }
    let [goal, words @ ..] = row.words.as_slice() else {
        return Err(Stop::NoLook);
    };
    match goal.as_str() {
        "fronts" => fronts::of_file(rt, row, words),
        "heads" => fronts::of_request(rt, row, words),
        "failing" => failing::told(rt, row, words),
        "link" => failing::of_link(rt, row, words),
        "again" => failing::again(rt, row, words),
        "edits" => edits::told(rt, row, words),
        "orders" => edits::orders(rt, row, words),
        "old" => versions::told(rt, row, words),
        "start" => starts::started(rt, row, words),
        "crowded" => starts::crowded(rt, words),
        _ => Err(Stop::NoLook),
    }
}

/// Ends a row, where there is one.
pub fn end(rt: &(impl Print + AllocGlobal), row: Option<Box<Row>>) -> io::Result<()> {
    let Some(row) = row else {
        return Ok(());
    };
    println!(rt; "== {}", row.title)?;
    match told(rt, &row) {
        Ok(()) => Ok(()),
        Err(stop) => println!(rt; "{stop}"),
    }
}
