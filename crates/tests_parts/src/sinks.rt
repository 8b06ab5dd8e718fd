//! Sinks, in memory and over writers.

use crate::calls::{say, text_of};
use crate::stop::Stop;
use desk_io::{MemorySink, Sink, WriterSink};
use std::alloc::Global;
use std::io;
use std::io::Write;
use tests_reader::push_quoted;

/// A writer that takes no byte, with no error.
#[derive(Clone, Copy)]
struct Full;

impl Write for Full {
    fn write(&mut self, _bytes: &[u8]) -> io::Result<usize> {
        Ok(0)
    }

    fn flush(&mut self) -> io::Result<()> {
        Ok(())
    }
}

/// Writes a text once, and says how many bytes were taken.
fn write<S: Sink>(alloc: Global, sink: &mut S, text: &str, out: &mut Vec<u8>) -> Result<(), Stop> {
    match sink.write(text.as_bytes()) {
        Ok(count) => say(out, &format!(in alloc; "{count}")?),
        Err(fault) => say(out, &format!(in alloc; "{fault:?}")?),
    }
}

/// The text that a line writes.
fn written(line: &str) -> Result<&str, Stop> {
    match line.strip_prefix("write") {
        Some(rest) => Ok(rest.strip_prefix(" ").unwrap_or(rest)),
        None => Err(Stop::NoCall),
    }
}

fn begin(alloc: Global, line: &str, out: &mut Vec<u8>) -> Result<(), Stop> {
    say(out, &format!(in alloc; "{line} -> ")?)
}

fn end(alloc: Global, bytes: &[u8], faults: u64, out: &mut Vec<u8>) -> Result<(), Stop> {
    say(out, "bytes ")?;
    push_quoted(alloc, bytes, out)?;
    say(out, &format!(in alloc; " faults {faults}\n")?)
}

/// Has a call of a sink in memory fail, or has it take no more than so many bytes.
fn plan(sink: &mut MemorySink, line: &str) -> Result<(), Stop> {
    let Some((what, number)) = line.split_once(" ") else {
        return Err(Stop::NoCall);
    };
    let Ok(number) = number.parse::<u32>() else {
        return Err(Stop::NoCall);
    };
    match what {
        "most" => sink.take_at_most(number as usize),
        "fail" => sink.fail_at(u64::from(number))?,
        _ => return Err(Stop::NoCall),
    }
    Ok(())
}

fn in_memory(alloc: Global, calls: &str) -> Result<Vec<u8>, Stop> {
    let mut sink = MemorySink::new(alloc);
    let mut out = Vec::new(alloc);
    for line in calls.lines() {
        if line.starts_with("write") {
            begin(alloc, line, &mut out)?;
            write(alloc, &mut sink, written(line)?, &mut out)?;
            say(&mut out, "\n")?;
        } else {
            plan(&mut sink, line)?;
        }
    }
    end(alloc, sink.bytes(), sink.faults(), &mut out)?;
    Ok(out)
}

fn over<W: Write + Drop>(
    alloc: Global,
    sink: &mut WriterSink<W>,
    calls: &str,
) -> Result<Vec<u8>, Stop> {
    let mut out = Vec::new(alloc);
    for line in calls.lines() {
        begin(alloc, line, &mut out)?;
        write(alloc, sink, written(line)?, &mut out)?;
        say(&mut out, "\n")?;
    }
    Ok(out)
}

fn over_writer(alloc: Global, calls: &str) -> Result<Vec<u8>, Stop> {
    let mut sink = WriterSink::new(Vec::new(alloc));
    let mut out = over(alloc, &mut sink, calls)?;
    let faults = sink.faults();
    end(alloc, &sink.into_inner(), faults, &mut out)?;
    Ok(out)
}

fn over_full(alloc: Global, calls: &str) -> Result<Vec<u8>, Stop> {
    let mut sink = WriterSink::new(Full);
    let mut out = over(alloc, &mut sink, calls)?;
    end(alloc, b"", sink.faults(), &mut out)?;
    Ok(out)
}

/// What a sink answers to each call, and what it has at last.
pub fn told(alloc: Global, kind: &str, calls: &[u8]) -> Result<Vec<u8>, Stop> {
    let calls = text_of(calls)?;
    match kind {
        "memory" => in_memory(alloc, calls),
        "writer" => over_writer(alloc, calls),
        "full" => over_full(alloc, calls),
        _ => Err(Stop::NoLook),
    }
}
