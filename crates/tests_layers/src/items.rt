//! Signals, processes, parameters, loops, dropped regions and delays.

use crate::stop::Stop;
use crate::words::{put, say};
use rtl_flat::act::{Act, Does, Process};
use rtl_flat::design::Design;
use rtl_flat::signal::Signal;
use std::alloc::Global;

fn signal(alloc: Global, signal: &Signal, out: &mut Vec<u8>) -> Result<(), Stop> {
    put(signal.path.as_bytes(), out)?;
    let sign = if signal.signed { "s" } else { "u" };
    say(out, &format!(in alloc; "{}{sign}", signal.width)?)?;
    Ok(())
}

/// How many statements a body has on its first level.
fn length(does: &Does) -> usize {
    match does {
        Does::Assign {
            target: _,
            value: _,
        } => 0,
        Does::Comb { list: _, body } => statements(body),
        Does::Edge { events: _, body } => statements(body),
    }
}

fn statements(body: &[Act]) -> usize {
    match body.first() {
        Some(Act::Block(inner)) => inner.len(),
        _ => body.len(),
    }
}

fn process(alloc: Global, process: &Process, out: &mut Vec<u8>) -> Result<(), Stop> {
    let word = format!(in alloc; "{}.{}", process.instance, length(&process.does))?;
    say(out, &word)?;
    Ok(())
}

/// Signals; the instances and lengths of processes; kinds of dropped regions; processes with delays.
pub fn told(alloc: Global, design: &Design) -> Result<Vec<u8>, Stop> {
    let mut out = Vec::new(alloc);
    for one in &design.signals {
        signal(alloc, one, &mut out)?;
    }
    for one in &design.processes {
        process(alloc, one, &mut out)?;
    }
    for region in &design.dropped {
        let word = format!(in alloc; "{:?}@{}", region.kind, region.spot.at)?;
        say(&mut out, &word)?;
    }
    for delay in &design.delays {
        let word = format!(in alloc; "#{}@{}", delay.process.0, delay.spot.at)?;
        say(&mut out, &word)?;
    }
    Ok(out)
}

/// The paths of the instances.
pub fn instances(alloc: Global, design: &Design) -> Result<Vec<u8>, Stop> {
    let mut out = Vec::new(alloc);
    for one in &design.instances {
        put(one.path.as_bytes(), &mut out)?;
    }
    Ok(out)
}
