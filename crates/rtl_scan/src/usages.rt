// Variables that hold nothing between the runs of the one process that uses them.

ghost use Rattle.std.specs.Prelude.{ℕ, ◌≡◌, ◌==◌, ◌&&◌, ◌||◌, ◌↔◌, true, map, length, Some, IfOk, OnOk};
ghost use Rattle.std.specs.List.{slice_get};
ghost use Rattle.rtl_flat.specs.Signs.{width_in};
ghost use Rattle.rtl_flat.specs.PathSets.{IsTemporary};
ghost use Rattle.rtl_flat.specs.Process.{task};
ghost use Rattle.rtl_scan.specs.Accesses.{IsAccess};
ghost use Rattle.rtl_scan.specs.Usage as spec;

use crate::bits::{BitSet, Bits, Row};
use crate::scan::{Counted, Sets};
use crate::sets::{list, scan, widths_of};
use crate::spans::Widths;
use rtl_flat::act::Process;
use rtl_flat::design::Design;
use rtl_flat::expr::SigId;
use rtl_flat::signal::{Kind, Signal};
use std::alloc::Global;
use text_ground::memory::Memory;

/// Which processes use a signal, of those that were looked at.
#[derive(Clone, Copy)]
pub(crate) enum Usage {
    Unused,
    /// One process uses it.
    Only {
        process: usize,
        writes: bool,
        /// It does so by a nonblocking assignment, or reads a bit before it has written it.
        keeps: bool,
    },
    Shared,
}

impl Usage {
    /// One process more uses the signal.
    fn used_by(self, process: usize, writes: bool, keeps: bool) -> Usage
        ensures { result ≡ spec.used_by process writes keeps self }
    {
        match self {
            Usage::Unused => Usage::Only {
                process,
                writes,
                keeps,
            },
            Usage::Only {
                process: user,
                writes: _,
                keeps: _,
            } => { if user == process { self } else { Usage::Shared } }
            Usage::Shared => Usage::Shared,
        }
    }

    /// Whether one process alone uses the signal, and writes it before each read.
    fn is_alone(self) -> bool
        ensures { result ≡ spec.is_alone self }
    {
        match self {
            Usage::Unused => false,
            Usage::Only {
                process: _,
                writes,
                keeps,
            } => writes && !keeps,
            Usage::Shared => false,
        }
    }
}

/// Whether a signal is a variable that no output shows.
fn is_inner(signal: &Signal) -> bool
    ensures { result ≡ spec.is_inner signal.now }
{
    match signal.kind {
        Kind::TopInput => false,
        Kind::Net => false,
        Kind::Var => !signal.top_output,
    }
}

impl BitSet {
    /// Whether it has a bit of a signal.
    fn has_some(&self, signal: u32) -> bool
        ensures { result ≡ spec.has_some self.now.masks signal }
    {
        self.mask(SigId(signal)) != 0
    }
}

impl Sets {
    /// Whether a nonblocking assignment writes a signal, or a bit of it is read first.
    fn keeps(&self, signal: u32) -> bool
        ensures { result ≡ (spec.has_some self.now.late.masks signal
            || spec.has_some self.now.reads.masks signal) }
    {
        self.late.has_some(signal) || self.reads.has_some(signal)
    }
}

/// Notes a process that was scanned at the signal of a row.
fn note_row(usages: &mut [Usage], row: &Row, process: usize, found: &Sets)
    ensures { spec.AreNoted (λ s. s == row.now.signal.0) process found.now usages.old usages.new }
{
    let signal = row.signal.0;
    let place = signal as usize;
    if place >= usages.len() {
        return;
    }
    let writes = found.writes.has_some(signal);
    usages[place] = usages[place].used_by(process, writes, found.keeps(signal));
}

/// Notes a process that was scanned at the signals of rows.
fn note_rows(usages: &mut [Usage], rows: &[Row], process: usize, found: &Sets)
    ensures { spec.AreNoted (spec.has_row_of rows.now) process found.now usages.old usages.new }
{
    for row in rows {
        note_row(usages, row, process, found);
    }
}

/// What a process externally reads, may write and lists.
#[derive(Drop)]
pub(crate) struct Access {
    pub(crate) reads: Bits,
    pub(crate) writes: Bits,
    pub(crate) lists: Bits,
}

/// Notes a process at the signals that it writes, reads or lists, and gives what it accesses.
pub(crate) fn note(
    alloc: Global,
    widths: Widths,
    process: &Process,
    number: usize,
    usages: &mut [Usage],
) -> Result<Access, Memory>
    ensures noted { OnOk result (spec.IsNotedIn (width_in widths.entry.signals.now)
        (task process.now) number usages.old usages.new) }
    ensures access { IfOk result (IsAccess (width_in widths.entry.signals.now) (task process.now)) }
{
    let found = scan(alloc, widths, &process.does, Counted::Blocking)?;
    let outside = found.reads.to_bits(alloc)?;
    let written = found.writes.to_bits(alloc)?;
    let listed = list(alloc, widths, &process.does)?;
    let watched = listed.to_bits(alloc)?;
    note_rows(usages, &written.rows, number, &found);
    // What is read but not outside is written first, and so among what is written.
    note_rows(usages, &outside.rows, number, &found);
    note_rows(usages, &watched.rows, number, &found);
    Ok(Access {
        reads: outside,
        writes: written,
        lists: watched,
    })
}

/// Which processes use each signal.
fn usages_of(alloc: Global, widths: Widths, processes: &[Process]) -> Result<Vec<Usage>, Memory>
    ensures { IfOk result (λ usages.
        spec.AreUsages widths.entry.signals.now (map task processes.now)
        (length processes.now) usages.items) }
{
    let mut usages = vec![in alloc; Usage::Unused; widths.signals.len()]?;
    for number in 0..processes.len() {
        note(alloc, widths, &processes[number], number, &mut usages)?;
    }
    Ok(usages)
}

/// Whether a signal is a temporary, from the processes that use it.
fn is_temporary(signal: &Signal, usage: Usage) -> bool
    ensures { result ≡ (spec.is_inner signal.now && spec.is_alone usage) }
{
    is_inner(signal) && usage.is_alone()
}

/// Whether each signal is a temporary, from the processes that use it.
pub(crate) fn answers(
    alloc: Global,
    signals: &[Signal],
    usages: &[Usage],
) -> Result<Vec<bool>, Memory>
    requires { length usages.now ≡ length signals.now }
    ensures { IfOk result (λ answers.
        spec.AreAnswers signals.now usages.now (length signals.now) answers.items) }
{
    let mut answers = Vec::new(alloc);
    for place in 0..signals.len() {
        answers.push(is_temporary(&signals[place], usages[place]))?;
    }
    Ok(answers)
}

/// Whether each signal is a temporary of one of the processes.
pub(crate) fn temporaries_of(
    alloc: Global,
    widths: Widths,
    processes: &[Process],
) -> Result<Vec<bool>, Memory>
    ensures length { IfOk result (λ answers. length answers.items
        ≡ length widths.entry.signals.now) }
    ensures each { IfOk result (λ answers. (s : ℕ) → slice_get answers.items s ≡ Some true
        ↔ IsTemporary widths.entry.signals.now (map task processes.now) s) }
{
    let usages = usages_of(alloc, widths, processes)?;
    answers(alloc, widths.signals, &usages)
}

/// Whether each signal is a temporary: a variable that no output shows, that one process alone
/// writes, reads and lists, and that this process writes by blocking assignments alone and never
/// reads before it has written what it reads.
pub fn temporaries(alloc: Global, d: &Design) -> Result<Vec<bool>, Memory>
    ensures length { IfOk result (λ answers. length answers.items ≡ length d.now.signals.items) }
    ensures each { IfOk result (λ answers. (s : ℕ) → slice_get answers.items s ≡ Some true
        ↔ IsTemporary d.now.signals.items (map task d.now.processes.items) s) }
{
    temporaries_of(alloc, widths_of(d), &d.processes)
}
