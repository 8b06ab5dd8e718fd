//! What fails at each of its calls in turn.

use crate::outside::Outside;
use crate::requests::{Asked, all_asked, fail, outside_of, outside_with};
use crate::stop::Stop;
use desk_links::MemoryLink;
use std::alloc::Global;
use tests_reader::{Row, show};

/// How many bytes a link moves at a time.
const PIECE_BYTES: usize = 7;

fn number(word: &str) -> Result<u64, Stop> {
    match word.parse::<u64>() {
        Ok(number) => Ok(number),
        Err(_) => Err(Stop::NoFault),
    }
}

/// A command, where a call fails.
fn put_failing(
    rt: &(impl Print + AllocGlobal),
    row: &Row,
    what: &str,
    call: u64,
    words: &[String],
    whole: &[u8],
) -> Result<(), Stop> {
    let mut outside = outside_with(rt.alloc(), row, &[])?;
    fail(&mut outside, what, call)?;
    let status = outside.call(words);
    let written = outside.sink.bytes();
    let is_front = whole.starts_with(written);
    println!(rt;
        "{what} {call} -> status {status}, {} bytes, a front {is_front}",
        written.len()
    )?;
    Ok(())
}

/// A command where nothing fails, and where each of the first calls fails in turn.
pub fn told(rt: &(impl Print + AllocGlobal), row: &Row, words: &[String]) -> Result<(), Stop> {
    let [what, count, words @ ..] = words else {
        return Err(Stop::NoLook);
    };
    let mut whole = outside_with(rt.alloc(), row, &[])?;
    let status = whole.call(words);
    println!(rt; "status {status}, {} bytes", whole.sink.bytes().len())?;
    show(rt, whole.sink.bytes(), usize::MAX)?;
    for call in 1..=number(count)? {
        put_failing(rt, row, what, call, words, whole.sink.bytes())?;
    }
    Ok(())
}

/// A link that sends this, seven bytes at a time, where a call fails, or none for the call 0.
fn link(alloc: Global, input: &[u8], what: &str, call: u64) -> Result<MemoryLink, Stop> {
    let mut link = MemoryLink::new(alloc, Vec::from_slice(alloc, input)?)?;
    link.move_at_most(PIECE_BYTES);
    match (what, call) {
        (_, 0) => {}
        ("read", _) => link.fail_read(call)?,
        ("write", _) => link.fail_write(call)?,
        _ => return Err(Stop::NoFault),
    }
    Ok(link)
}

fn served(
    alloc: Global,
    row: &Row,
    input: &[u8],
    what: &str,
    call: u64,
) -> Result<Box<Outside>, Stop> {
    let mut outside = outside_with(alloc, row, &[])?;
    outside.connect(link(alloc, input, what, call)?)?;
    outside.serve(1)?;
    Ok(outside)
}

/// The reply where no call of a link fails, and how many bytes are written where each of the first
/// fails in turn, and whether they are a front of it.
pub fn of_link(rt: &(impl Print + AllocGlobal), row: &Row, words: &[String]) -> Result<(), Stop> {
    let alloc: Global = rt.alloc();
    let [what, count] = words else {
        return Err(Stop::NoLook);
    };
    let Some(input) = row.text("link") else {
        return Err(Stop::NoFile);
    };
    let whole = served(alloc, row, input, what, 0)?;
    let reply = whole.reply(0);
    println!(rt; "{} bytes", reply.len())?;
    show(rt, reply, usize::MAX)?;
    for call in 1..=number(count)? {
        let outside = served(alloc, row, input, what, call)?;
        let written = outside.reply(0);
        let is_front = reply.starts_with(written);
        println!(rt;
            "{what} {call} -> {} bytes, a front {is_front}",
            written.len()
        )?;
    }
    Ok(())
}

/// The requests, all served, where a call fails, or none for the call 0.
fn answered(
    alloc: Global,
    row: &Row,
    all: &[Asked],
    what: &str,
    call: u64,
) -> Result<Box<Outside>, Stop> {
    let mut outside = outside_of(alloc, row, all)?;
    if call > 0 {
        fail(&mut outside, what, call)?;
    }
    let count = outside.links();
    outside.serve(count)?;
    Ok(outside)
}

/// The statuses of all replies, and whether each but those of the status 503 is what it is where
/// nothing fails.
fn put_answered(
    rt: &(impl Print + AllocGlobal),
    title: &str,
    got: &Outside,
    usual: &Outside,
) -> Result<(), Stop> {
    let mut told = format!(in rt.alloc(); "{title} ->")?;
    let mut is_usual = true;
    for number in 0..got.links() {
        let status = got.status(number);
        told.push_str(" ")?;
        told.push_str(str::from_utf8(status).unwrap_or("---"))?;
        is_usual = is_usual
            && (status == b"503".as_slice() || got.reply(number) == usual.reply(number));
    }
    println!(rt; "{told}, else as usual {is_usual}")?;
    Ok(())
}

/// The same for each of some calls.
pub fn again(rt: &(impl Print + AllocGlobal), row: &Row, words: &[String]) -> Result<(), Stop> {
    let alloc: Global = rt.alloc();
    let [what, calls @ ..] = words else {
        return Err(Stop::NoLook);
    };
    let all = all_asked(alloc, row)?;
    let usual = answered(alloc, row, &all, what, 0)?;
    put_answered(rt, "usual", &usual, &usual)?;
    for call in calls {
        let got = answered(alloc, row, &all, what, number(call)?)?;
        put_answered(rt, &format!(in alloc; "{what} {call}")?, &got, &usual)?;
    }
    Ok(())
}
