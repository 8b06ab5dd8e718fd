//! The queue from which a simulator begins.

ghost use Rattle.std.specs.Prelude.{ℕ, ◌≡◌, ◌<◌, ◌≤◌, ◌==◌, ◌&&◌, ◌||◌, Some, false, length, map, replicate, IfOk};
ghost use Rattle.rtl_flat.specs.Process.{doing};
ghost use Rattle.rtl_flat.specs.Signs.{width_in};
ghost use Rattle.rtl_flat.specs.Value.{store};
ghost use Rattle.rtl_flat.specs.WellFormed.{IsProcess};
ghost use Rattle.rank_set.specs.Ranks.{flag};
ghost use Rattle.event_model.specs.Queue.{doing_at, is_assignment, power_up, settled_at};
ghost use Rattle.rtl_flat.specs.Flats.{flat};
ghost use Rattle.event_tables.specs.event_write.Stored.{AreStored};
ghost use Rattle.event_queue.specs.First.{AreDriven, IsFirst, IsFresh, blank, driver_in, first_driver, first_value, now_driver};

use crate::first_tallies::first_tallies;
use agenda::Agenda;
use event_tables::event_write::queue_state::QueueState;
use event_tables::event_write::stores::evaluate;
use rank_set::RankSet;
use rtl_bits::{Bit, Vec4};
use rtl_flat::act::{Does, ProcId};
use rtl_flat::design::Design;
use rtl_flat::signal::{Kind, Signal};
use std::alloc::Global;
use text_ground::memory::Memory;

/// The first value of a signal.
fn first_value(signal: &Signal) -> Vec4
    requires { (1 ≤ signal.now.width) × (signal.now.width ≤ 128) }
    ensures { result ≡ first_value signal.now }
{
    let bit = match signal.kind {
        Kind::TopInput => Bit::X,
        Kind::Net => Bit::Z,
        Kind::Var => Bit::X,
    };
    Vec4::filled(signal.width, bit)
}

/// The first value of each signal of a design.
fn first_values(alloc: Global, design: &Design) -> Result<Vec<Vec4>, Memory>
    ensures { IfOk result (λ values. values.items ≡ map first_value design.now.signals.items) }
{
    let mut values = Vec::new(alloc);
    for signal in &design.signals {
        values.push(first_value(signal))?;
    }
    Ok(values)
}

/// z for each bit that a process drives; a body drives none, and has one z.
fn blank(signals: &[Signal], does: &Does) -> Vec4
    requires { IsProcess signals.now (doing does.now) }
    ensures { result ≡ blank (width_in signals.now) (doing does.now) }
{
    match does {
        Does::Assign { target: _, value } => Vec4::filled(value.width, Bit::Z),
        Does::Comb { list: _, body: _ } => Vec4::of_bit(Bit::Z),
        Does::Edge { events: _, body: _ } => Vec4::of_bit(Bit::Z),
    }
}

/// Such a value for each process.
fn blanks(alloc: Global, design: &Design) -> Result<Vec<Vec4>, Memory>
    ensures { IfOk result (λ values. values.items
        ≡ map (λ process. blank (width_in design.now.signals.items) (doing process.does))
        design.now.processes.items) }
{
    let mut values = Vec::new(alloc);
    for process in &design.processes {
        values.push(blank(&design.signals, &process.does))?;
    }
    Ok(values)
}

/// What a process drives before its first update.
fn first_driver(signals: &[Signal], does: &Does) -> Option<Vec4>
    requires { IsProcess signals.now (doing does.now) }
    ensures { result ≡ first_driver (width_in signals.now) (doing does.now) }
{
    match does {
        Does::Assign {
            target: _,
            value: _,
        } => Some(blank(signals, does)),
        Does::Comb { list: _, body: _ } => None,
        Does::Edge { events: _, body: _ } => None,
    }
}

/// What each process drives before its first update.
fn first_drivers(alloc: Global, design: &Design) -> Result<Vec<Option<Vec4>>, Memory>
    ensures { IfOk result (λ drivers. drivers.items
        ≡ map (λ process. first_driver (width_in design.now.signals.items) (doing process.does))
        design.now.processes.items) }
{
    let mut drivers = Vec::new(alloc);
    for process in &design.processes {
        drivers.push(first_driver(&design.signals, &process.does))?;
    }
    Ok(drivers)
}

/// What a process drives where its assignment is up to date.
fn now_driver(signals: &[Signal], values: &[Vec4], does: &Does) -> Option<Vec4>
    requires process { IsProcess signals.now (doing does.now) }
    requires stored { AreStored signals.now values.now }
    ensures { result ≡ now_driver (store values.now) (doing does.now) }
{
    match does {
        Does::Assign { target: _, value } => Some(evaluate(signals, values, value)),
        Does::Comb { list: _, body: _ } => None,
        Does::Edge { events: _, body: _ } => None,
    }
}

/// What each process drives where all assignments are up to date.
fn now_drivers(alloc: Global, design: &Design, values: &[Vec4]) -> Result<Vec<Option<Vec4>>, Memory>
    requires { AreStored design.now.signals.items values.now }
    ensures { IfOk result (λ drivers. drivers.items
        ≡ map (λ process. now_driver (store values.now) (doing process.does))
        design.now.processes.items) }
{
    let mut drivers = Vec::new(alloc);
    for process in &design.processes {
        drivers.push(now_driver(&design.signals, values, &process.does))?;
    }
    Ok(drivers)
}

/// A copy of values.
fn copied(alloc: Global, values: &[Vec4]) -> Result<Vec<Vec4>, Memory>
    ensures { IfOk result (λ copy. copy.items ≡ values.now) }
{
    let mut copy = Vec::new(alloc);
    for value in values {
        copy.push(*value)?;
    }
    Ok(copy)
}

/// QueueState where nothing is to be done, with room for so many prepared writes.
fn fresh(
    alloc: Global,
    design: &Design,
    levels: Vec<Option<u32>>,
    values: Vec<Vec4>,
    table: &[Vec<ProcId>],
    drivers: Vec<Option<Vec4>>,
    room: usize,
) -> Result<QueueState, Memory>
    requires levels { length levels.items ≡ length design.now.processes.items }
    requires table { length table.now ≡ length design.now.signals.items }
    requires stored { AreStored design.now.signals.items values.items }
    requires driven { AreDriven (flat design.now) drivers.items }
    ensures { IfOk result (λ queue.
        IsFresh (flat design.now) (store values.items)
        (driver_in drivers.items) levels.items room queue) }
{
    let tallies = first_tallies(alloc, design, &values, table, &drivers)?;
    let offered_values = first_values(alloc, design)?;
    let pending_values = blanks(alloc, design)?;
    let processes = design.processes.len();
    let signals = design.signals.len();
    let woken = Agenda::new(alloc, levels)?;
    let pending = RankSet::new(alloc, processes)?;
    let offered = RankSet::new(alloc, signals)?;
    let active = Vec::with_capacity(alloc, room)?;
    let waiting = Vec::with_capacity(alloc, room)?;
    let scratch = Vec::with_capacity(alloc, 128)?;
    Ok(QueueState {
        values,
        woken,
        drivers,
        tallies,
        pending,
        pending_values,
        offered,
        offered_values,
        active,
        next: 0,
        waiting,
        scratch,
    })
}

/// Wakes a process if it is a continuous assignment.
fn wake_if(woken: &mut Agenda, number: usize, does: &Does)
    requires { number < length woken.old.flags }
    ensures size { length woken.new.flags ≡ length woken.old.flags }
    ensures levels { woken.new.levels ≡ woken.old.levels }
    ensures flags { (p : ℕ) → flag woken.new.flags p
        ≡ (flag woken.old.flags p || ((p == number) && is_assignment (Some (doing does.now)))) }
{
    if is_assignment(does) {
        woken.insert(number);
    }
}

/// Whether a process is a continuous assignment.
fn is_assignment(does: &Does) -> bool
    ensures { result ≡ is_assignment (Some (doing does.now)) }
{
    match does {
        Does::Assign {
            target: _,
            value: _,
        } => true,
        Does::Comb { list: _, body: _ } => false,
        Does::Edge { events: _, body: _ } => false,
    }
}

/// Wakes the continuous assignments of a design, where no process is woken.
fn wake_assignments(design: &Design, woken: &mut Agenda)
    requires { woken.old.flags ≡ replicate (length design.now.processes.items) false }
    ensures size { length woken.new.flags ≡ length woken.old.flags }
    ensures levels { woken.new.levels ≡ woken.old.levels }
    ensures flags { (p : ℕ) → flag woken.new.flags p
        ≡ is_assignment (doing_at (flat design.now) p) }
{
    for number in 0..design.processes.len() {
        wake_if(woken, number, &design.processes[number].does);
    }
}

/// The queue at power-up, with room for so many prepared writes.
pub(crate) fn power_up(
    alloc: Global,
    design: &Design,
    table: &[Vec<ProcId>],
    levels: Vec<Option<u32>>,
    room: usize,
) -> Result<QueueState, Memory>
    requires levels { length levels.items ≡ length design.now.processes.items }
    requires table { length table.now ≡ length design.now.signals.items }
    ensures { IfOk result (λ queue.
        IsFirst (flat design.now) (power_up (flat design.now)) levels.items room queue) }
{
    let values = first_values(alloc, design)?;
    let drivers = first_drivers(alloc, design)?;
    let mut queue = fresh(alloc, design, levels, values, table, drivers, room)?;
    wake_assignments(design, &mut queue.woken);
    Ok(queue)
}

/// The queue with given values where nothing is to be done, with room for so many prepared writes.
pub(crate) fn settled(
    alloc: Global,
    design: &Design,
    values: &[Vec4],
    table: &[Vec<ProcId>],
    levels: Vec<Option<u32>>,
    room: usize,
) -> Result<QueueState, Memory>
    requires levels { length levels.items ≡ length design.now.processes.items }
    requires table { length table.now ≡ length design.now.signals.items }
    requires stored { AreStored design.now.signals.items values.now }
    ensures { IfOk result (λ queue.
        IsFirst (flat design.now) (settled_at (flat design.now) (store values.now)) levels.items
        room queue) }
{
    let drivers = now_drivers(alloc, design, values)?;
    let copy = copied(alloc, values)?;
    fresh(alloc, design, levels, copy, table, drivers, room)
}
