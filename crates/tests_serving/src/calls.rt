//! A row's whole call, and what is written of it.

use crate::outside::Outside;
use crate::requests::{Asked, all_asked, outside_of};
use crate::stop::Stop;
use std::alloc::Global;
use std::io;
use tests_reader::{Row, show};

fn put_fault(rt: &impl Print, what: &str, count: u64) -> io::Result<()> {
    if count == 0 {
        Ok(())
    } else {
        println!(rt; "failed {what} {count}")
    }
}

/// What failed, and at which ports the door was opened.
fn put_outside(rt: &impl Print, outside: &Outside) -> io::Result<()> {
    put_fault(rt, "reads", outside.shelf.faults())?;
    put_fault(rt, "writes", outside.sink.faults())?;
    put_fault(rt, "days", outside.clock.faults())?;
    put_fault(rt, "links", outside.door.faults())?;
    for port in outside.door.ports() {
        println!(rt; "opened {port}")?;
    }
    Ok(())
}

/// A title for each client, and what it was written.
fn put_replies(rt: &impl Print, outside: &Outside, all: &[Asked]) -> io::Result<()> {
    let raw = outside.links().saturating_sub(all.len());
    for number in 0..outside.links() {
        match all.get(number.saturating_sub(raw)) {
            Some(one) if number >= raw => println!(rt; "-- {}", one.line)?,
            _ => println!(rt; "-- link {}", number.saturating_add(1))?,
        }
        show(rt, outside.reply(number), usize::MAX)?;
    }
    Ok(())
}

/// Makes the call, and writes its status, what failed, what it wrote, and what the clients were
/// written.
pub fn call(rt: &(impl Print + AllocGlobal), row: &Row) -> Result<(), Stop> {
    let alloc: Global = rt.alloc();
    let all = all_asked(alloc, row)?;
    let mut outside = outside_of(alloc, row, &all)?;
    let status = outside.call(&row.words);
    println!(rt; "status {status}")?;
    put_outside(rt, &outside)?;
    show(rt, outside.sink.bytes(), usize::MAX)?;
    put_replies(rt, &outside, &all)?;
    Ok(())
}
