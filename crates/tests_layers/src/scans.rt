//! Levels, temporaries and path sets.

use crate::stop::Stop;
use crate::words::say;
use rtl_flat::act::ProcId;
use rtl_flat::design::Design;
use rtl_scan::bits::Bits;
use rtl_scan::{levels, lists, reads, sure, temporaries, writes};
use std::alloc::Global;

fn level(alloc: Global, level: Option<u32>, out: &mut Vec<u8>) -> Result<(), Stop> {
    let word = match level {
        Some(level) => format!(in alloc; "{level}")?,
        None => format!(in alloc; "-")?,
    };
    say(out, &word)?;
    Ok(())
}

/// The levels of processes, and which signals are temporaries.
pub fn levels_told(alloc: Global, design: &Design) -> Result<Vec<u8>, Stop> {
    let mut out = Vec::new(alloc);
    for one in &levels(alloc, design)? {
        level(alloc, *one, &mut out)?;
    }
    out.push(b' ')?;
    for one in &temporaries(alloc, design)? {
        out.push(if *one { b't' } else { b'.' })?;
    }
    Ok(out)
}

/// The signals and masks of some bits.
fn bits(alloc: Global, name: &str, bits: &Bits, out: &mut Vec<u8>) -> Result<(), Stop> {
    say(out, name)?;
    for row in &bits.rows {
        say(out, &format!(in alloc; "{}={}", row.signal.0, row.mask)?)?;
    }
    Ok(())
}

/// What the first process reads, may write, surely writes and lists.
pub fn accesses(alloc: Global, design: &Design) -> Result<Vec<u8>, Stop> {
    if design.processes.is_empty() {
        return Err(Stop::NoProcess);
    }
    let first = ProcId(0);
    let mut out = Vec::new(alloc);
    bits(alloc, "r", &reads(alloc, design, first)?, &mut out)?;
    bits(alloc, "w", &writes(alloc, design, first)?, &mut out)?;
    bits(alloc, "s", &sure(alloc, design, first)?, &mut out)?;
    bits(alloc, "l", &lists(alloc, design, first)?, &mut out)?;
    Ok(out)
}
