//! What is answered after edits, beside what a desk answers that begins with the same tables.

use crate::outside::Outside;
use crate::requests::{Asked, all_asked, outside_with, request_of};
use crate::stop::Stop;
use std::alloc::Global;
use tests_reader::Row;

/// The requests for the rulings of the tops.
fn rulings(alloc: Global, row: &Row, tops: &[String]) -> Result<Vec<Asked>, Stop> {
    let mut all = Vec::new(alloc);
    for top in tops {
        let line = format!(in alloc; "19723 ann - GET /modules/{top}/ruling")?;
        all.push(request_of(alloc, row, &line)?)?;
    }
    Ok(all)
}

fn send_all(outside: &mut Outside, all: &[Asked]) -> Result<(), Stop> {
    for one in all {
        outside.send(&one.bytes)?;
    }
    Ok(())
}

/// All edits in their order, the rulings behind each, served by one desk.
fn kept(
    alloc: Global,
    row: &Row,
    edits: &[&Asked],
    rulings: &[Asked],
) -> Result<Box<Outside>, Stop> {
    let mut outside = outside_with(alloc, row, &[])?;
    for edit in edits {
        outside.send(&edit.bytes)?;
        send_all(&mut outside, rulings)?;
    }
    let count = outside.links();
    outside.serve(count)?;
    Ok(outside)
}

/// The same, where one desk serves each edit, and one the rulings behind it.
fn anew(
    alloc: Global,
    row: &Row,
    edits: &[&Asked],
    rulings: &[Asked],
) -> Result<Box<Outside>, Stop> {
    let mut outside = outside_with(alloc, row, &[])?;
    for edit in edits {
        outside.send(&edit.bytes)?;
        outside.serve(1)?;
        send_all(&mut outside, rulings)?;
        outside.serve(rulings.len())?;
    }
    Ok(outside)
}

/// The statuses of some replies, and whether they are those of the other desks.
fn put_statuses(
    rt: &(impl Print + AllocGlobal),
    title: &str,
    first: usize,
    count: usize,
    kept: &Outside,
    anew: &Outside,
) -> Result<(), Stop> {
    let mut told = format!(in rt.alloc(); "{title} ->")?;
    let mut is_same = true;
    for place in 0..count {
        let number = first.saturating_add(place);
        told.push_str(" ")?;
        told.push_str(str::from_utf8(kept.status(number)).unwrap_or("---"))?;
        is_same = is_same && kept.reply(number) == anew.reply(number);
    }
    println!(rt; "{told}, as anew {is_same}")?;
    Ok(())
}

/// The status of each edit and of the rulings behind it.
pub fn told(rt: &(impl Print + AllocGlobal), row: &Row, tops: &[String]) -> Result<(), Stop> {
    let alloc: Global = rt.alloc();
    let all = all_asked(alloc, row)?;
    let mut edits = Vec::new(alloc);
    for one in &all {
        edits.push(one)?;
    }
    let rulings = rulings(alloc, row, tops)?;
    let kept = kept(alloc, row, &edits, &rulings)?;
    let anew = anew(alloc, row, &edits, &rulings)?;
    let count = rulings.len().saturating_add(1);
    let mut first: usize = 0;
    for one in &all {
        put_statuses(rt, &one.line, first, count, &kept, &anew)?;
        first = first.saturating_add(count);
    }
    Ok(())
}

/// The order of four that a number says in base 4, where it names each of them once.
fn order_of(number: usize) -> Option<[usize; 4]> {
    let order = [number % 4, number / 4 % 4, number / 16 % 4, number / 64 % 4];
    let mut named = [false; 4];
    for edit in order {
        named[edit] = true;
    }
    if named == [true; 4] {
        Some(order)
    } else {
        None
    }
}

/// The edits in an order.
fn ordered<'e>(alloc: Global, all: &'e [Asked], order: [usize; 4]) -> Result<Vec<&'e Asked>, Stop> {
    let mut edits = Vec::new(alloc);
    for place in order {
        match all.get(place) {
            Some(one) => edits.push(one)?,
            None => return Err(Stop::NoRequest),
        }
    }
    Ok(edits)
}

/// The statuses of four edits and of the rulings behind each, in every order of the edits.
pub fn orders(rt: &(impl Print + AllocGlobal), row: &Row, tops: &[String]) -> Result<(), Stop> {
    let alloc: Global = rt.alloc();
    let all = all_asked(alloc, row)?;
    let rulings = rulings(alloc, row, tops)?;
    for number in 0..256 {
        if let Some(order) = order_of(number) {
            let edits = ordered(alloc, &all, order)?;
            let kept = kept(alloc, row, &edits, &rulings)?;
            let anew = anew(alloc, row, &edits, &rulings)?;
            let [a, b, c, d] = order;
            let title = format!(in alloc; "{a} {b} {c} {d}")?;
            put_statuses(rt, &title, 0, kept.links(), &kept, &anew)?;
        }
    }
    Ok(())
}
