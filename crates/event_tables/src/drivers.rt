//! Who drives each signal.

ghost use Rattle.std.specs.Prelude.{ℕ, ◌≡◌, ◌<◌, ◌==◌, length, map, IfOk, OnOk};
ghost use Rattle.rtl_flat.specs.Process.{piece};
ghost use Rattle.rtl_flat.specs.Flats.{flat};
ghost use Rattle.event_write.specs.event_tally.Targets.{names};
ghost use Rattle.event_tables.specs.Driving.{AreDriven, Enters, drives, ends_in};

use crate::rows::empty_rows;
use rtl_flat::act::{Does, ProcId, TargetPart};
use rtl_flat::design::Design;
use rtl_flat::expr::SigId;
use std::alloc::Global;
use text_ground::memory::Memory;

/// Whether a process is the last one in a row.
fn ends_in(row: &[ProcId], process: ProcId) -> bool
    ensures { result ≡ ends_in row.now process.0 }
{
    match row.last() {
        Some(last) => last.0 == process.0,
        None => false,
    }
}

/// Puts a process into the row of a signal, unless it is the last one there.
fn enter(drivers: &mut Vec<Vec<ProcId>>, process: ProcId, signal: SigId) -> Result<(), Memory>
    ensures { OnOk result (Enters process
        (λ i. i == signal.0) drivers.old.items drivers.new.items) }
{
    let place = signal.0 as usize;
    if place >= drivers.len() {
        return Ok(());
    }
    if ends_in(&drivers[place], process) {
        // Another part of its target named the signal.
        return Ok(());
    }
    drivers[place].push(process)?;
    Ok(())
}

/// Puts a process into the rows of the signals that its target names.
fn enter_parts(
    drivers: &mut Vec<Vec<ProcId>>,
    process: ProcId,
    parts: &[TargetPart],
) -> Result<(), Memory>
    ensures { OnOk result (Enters process (names (map piece parts.now)) drivers.old.items
        drivers.new.items) }
{
    for part in parts {
        enter(drivers, process, part.signal)?;
    }
    Ok(())
}

/// Puts a process into the rows of the signals that it drives: a body drives none.
fn drive(drivers: &mut Vec<Vec<ProcId>>, design: &Design, process: ProcId) -> Result<(), Memory>
    requires { process.0 < length design.now.processes.items }
    ensures { OnOk result (Enters process
        (drives (flat design.now) process.0) drivers.old.items drivers.new.items) }
{
    match &design.processes[process.0 as usize].does {
        Does::Assign { target, value: _ } => enter_parts(drivers, process, &target.parts),
        Does::Comb { list: _, body: _ } => Ok(()),
        Does::Edge { events: _, body: _ } => Ok(()),
    }
}

/// The continuous assignments that drive each signal.
pub(crate) fn drivers_of(alloc: Global, design: &Design) -> Result<Vec<Vec<ProcId>>, Memory>
    ensures { IfOk result (λ drivers.
        AreDriven (flat design.now) (length design.now.processes.items) drivers.items) }
{
    let mut drivers = empty_rows(alloc, design.signals.len())?;
    for number in 0..design.processes.len() {
        drive(&mut drivers, design, ProcId(number as u32))?;
    }
    Ok(drivers)
}
