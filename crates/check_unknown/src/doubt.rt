// What may be x after power-up.

ghost use Rattle.std.specs.Prelude.{ℕ, [], ◌≡◌, ◌↔◌, ◌<◌, ◌==◌, ◌&&◌, nat_lt, not, false, true, slice_index_or, length, Some, IfOk, OnOk};
ghost use Rattle.std.specs.List.{slice_get};
ghost use Rattle.rtl_flat.specs.Process.{Task, doing};
ghost use Rattle.rtl_rule.specs.Parts.{is_clocked};
ghost use Rattle.rtl_flat.specs.Flats.{flat};
ghost use Rattle.check_chains.specs.rtl_scan.Usage.{has_row_of};
ghost use Rattle.check_chains.specs.Chains.{chain_of, has_chain};
ghost use Rattle.check_chains.specs.check_found.Scanned.{AreScans};
ghost use Rattle.check_gates.specs.Admitted.{AreGates, gates_of};
ghost use Rattle.check_unknown.specs.Spreading.{Among, AreLatches, AreReaders, IsReader, IsStarting, Marks, Notes, Reaches, Visits, bucket, is_unset, reads, starts};
ghost use Rattle.check_unknown.specs.Unknowns.{IsDoubtful};

use crate::choices::is_marked;
use check_chains::chain::chain_of;
use check_chains::check_found::scans::Scans;
use check_chains::rtl_scan::bits::Row;
use check_gates::{Gate, gated};
use rtl_flat::act::{Does, ProcId};
use rtl_flat::design::Design;
use rtl_flat::expr::SigId;
use std::alloc::Global;
use text_ground::memory::Memory;

/// The signals that may be x, and those of them whose readers weren't looked at yet.
#[derive(Drop)]
struct Spread {
    marked: Vec<bool>,
    waiting: Vec<u32>,
}

impl Spread {
    /// Marks a signal.
    fn mark(&mut self, signal: u32) -> Result<(), Memory>
        ensures { OnOk result (Marks (λ s. s == signal) self.old self.new) }
    {
        let place = signal as usize;
        if place >= self.marked.len() || self.marked[place] {
            return Ok(());
        }
        self.marked[place] = true;
        self.waiting.push(signal)?;
        Ok(())
    }

    /// Marks a signal that isn't a temporary.
    fn mark_unless(&mut self, signal: u32, temporary: bool) -> Result<(), Memory>
        ensures { OnOk result (Marks (λ s. (s == signal) && not temporary) self.old self.new) }
    {
        if temporary {
            return Ok(());
        }
        self.mark(signal)
    }

    /// Marks the signals of rows that aren't temporaries.
    fn mark_kept(&mut self, rows: &[Row], temporaries: &[bool]) -> Result<(), Memory>
        ensures { OnOk result (Marks
            (λ s. has_row_of rows.now s && not (slice_index_or temporaries.now s false))
            self.old self.new) }
    {
        for row in rows {
            let temporary = is_marked(temporaries, row.signal);
            self.mark_unless(row.signal.0, temporary)?;
        }
        Ok(())
    }

    /// Marks the signals of rows.
    fn mark_rows(&mut self, rows: &[Row]) -> Result<(), Memory>
        ensures { OnOk result (Marks (has_row_of rows.now) self.old self.new) }
    {
        for row in rows {
            self.mark(row.signal.0)?;
        }
        Ok(())
    }
}

/// Whether a clocked process has a chain with an asynchronous reset.
fn has_reset(alloc: Global, design: &Design, does: &Does) -> Result<bool, Memory>
    ensures { let chain = chain_of (flat design.now) (doing does.now) in
        IfOk result (λ has. has ≡ has_chain (λ one. nat_lt 0 (length one.resets)) chain) }
{
    match chain_of(alloc, design, does)? {
        Some(chain) => Ok(!chain.resets.is_empty()),
        None => Ok(false),
    }
}

/// Whether a process is clocked.
fn is_clocked(does: &Does) -> bool
    ensures { result ≡ is_clocked (doing does.now) }
{
    match does {
        Does::Assign {
            target: _,
            value: _,
        } => false,
        Does::Comb { list: _, body: _ } => false,
        Does::Edge { events: _, body: _ } => true,
    }
}

/// Whether what a process holds may be x from the start: it is a latch, or clocked without an
/// asynchronous reset.
fn is_unset(alloc: Global, design: &Design, does: &Does, latch: bool) -> Result<bool, Memory>
    ensures { let d = flat design.now in
        IfOk result (λ unset. unset ≡ is_unset d latch (doing does.now)) }
{
    if latch {
        return Ok(true);
    }
    if !is_clocked(does) {
        return Ok(false);
    }
    let has = has_reset(alloc, design, does)?;
    Ok(!has)
}

/// Whether a process is marked.
fn is_latch(gated: &[bool], p: ProcId) -> bool
    ensures { result ≡ slice_index_or gated.now p.0 false }
{
    gated.get(p.0 as usize).copied().unwrap_or(false)
}

/// Marks the registers of a clocked process that has no asynchronous reset, and those of a latch.
fn start(
    alloc: Global,
    scans: &Scans,
    p: ProcId,
    gated: &[bool],
    temporaries: &[bool],
    spread: &mut Spread,
) -> Result<(), Memory>
    requires scans { AreScans scans.now }
    requires there { p.0 < length scans.now.design.now.processes.items }
    ensures { let d = flat scans.now.design.now in
        let latch = slice_index_or gated.now p.0 false in
        OnOk result ((task : Task) → slice_get d.tasks p.0 ≡ Some task
        → Marks (starts d temporaries.now latch task) spread.old spread.new) }
{
    let does = &scans.design.processes[p.0 as usize].does;
    let unset = is_unset(alloc, scans.design, does, is_latch(gated, p))?;
    if !unset {
        return Ok(());
    }
    spread.mark_kept(&scans.written(p).rows, temporaries)
}

/// Looks at a process that reads what may be x: all that it writes may be x.
fn visit(scans: &Scans, p: ProcId, seen: &mut [bool], spread: &mut Spread) -> Result<(), Memory>
    requires scans { AreScans scans.now }
    requires there { p.0 < length scans.now.design.now.processes.items }
    requires seen { length seen.old ≡ length scans.now.design.now.processes.items }
    requires reader { IsReader (flat scans.now.design.now) p.0 }
    ensures { let d = flat scans.now.design.now in
        OnOk result (Visits d p.0 seen.old spread.old seen.new spread.new) }
{
    let place = p.0 as usize;
    if seen[place] {
        return Ok(());
    }
    seen[place] = true;
    spread.mark_rows(&scans.written(p).rows)
}

/// Marks the registers that no asynchronous reset sets, and the latches.
fn started(alloc: Global, scans: &Scans, gated: &[bool]) -> Result<Spread, Memory>
    requires scans { AreScans scans.now }
    requires gated { AreLatches (flat scans.now.design.now) gated.now }
    ensures { let count = length scans.now.design.now.processes.items in
        IfOk result (λ spread. IsStarting (flat scans.now.design.now) count spread) }
{
    let temporaries = scans.temporaries();
    let mut spread = Spread {
        marked: vec![in alloc; false; scans.design.signals.len()]?,
        waiting: Vec::new(alloc),
    };
    for p in 0..scans.design.processes.len() {
        start(
            alloc,
            scans,
            ProcId(p as u32),
            gated,
            temporaries,
            &mut spread,
        )?;
    }
    Ok(spread)
}

/// Empty rows for signals.
fn no_readers(alloc: Global, count: usize) -> Result<Vec<Vec<u32>>, Memory>
    ensures length { IfOk result (λ table. length table.items ≡ count) }
    ensures empty { IfOk result (λ table. (s : ℕ) → bucket table.items s ≡ []) }
{
    let mut table = Vec::new(alloc);
    for _ in 0..count {
        table.push(Vec::new(alloc))?;
    }
    Ok(table)
}

/// Puts a process into the row of a signal.
fn note(table: &mut Vec<Vec<u32>>, signal: SigId, p: ProcId) -> Result<(), Memory>
    ensures { OnOk result (Notes (λ s. s == signal.0) p.0 table.old.items table.new.items) }
{
    let place = signal.0 as usize;
    if place >= table.len() {
        return Ok(());
    }
    table[place].push(p.0)?;
    Ok(())
}

/// Puts a process into the rows of signals.
fn note_rows(table: &mut Vec<Vec<u32>>, rows: &[Row], p: ProcId) -> Result<(), Memory>
    ensures { OnOk result (Notes (has_row_of rows.now) p.0 table.old.items table.new.items) }
{
    for row in rows {
        note(table, row.signal, p)?;
    }
    Ok(())
}

/// Puts a process into the rows of the signals that it reads before it has written them.
fn note_process(scans: &Scans, p: ProcId, table: &mut Vec<Vec<u32>>) -> Result<(), Memory>
    requires scans { AreScans scans.now }
    requires there { p.0 < length scans.now.design.now.processes.items }
    ensures { let d = flat scans.now.design.now in
        OnOk result ((task : Task) → slice_get d.tasks p.0 ≡ Some task
        → Notes (reads d task) p.0 table.old.items table.new.items) }
{
    note_rows(table, &scans.read_outside(p).rows, p)
}

/// The processes that read each signal before they have written it.
fn readers(alloc: Global, scans: &Scans) -> Result<Vec<Vec<u32>>, Memory>
    requires { AreScans scans.now }
    ensures { let count = length scans.now.design.now.processes.items in
        IfOk result (λ table. AreReaders (flat scans.now.design.now) count table.items) }
{
    let mut table = no_readers(alloc, scans.design.signals.len())?;
    for p in 0..scans.design.processes.len() {
        note_process(scans, ProcId(p as u32), &mut table)?;
    }
    Ok(table)
}

/// Looks at the processes that read a signal which may be x.
fn visit_all(
    scans: &Scans,
    readers: &[u32],
    seen: &mut [bool],
    spread: &mut Spread,
) -> Result<(), Memory>
    requires scans { AreScans scans.now }
    requires seen { length seen.old ≡ length scans.now.design.now.processes.items }
    requires readers { let d = flat scans.now.design.now in
        (p : ℕ) → Among readers.now p → IsReader d p }
    ensures { let d = flat scans.now.design.now in
        OnOk result (Reaches d readers.now seen.old spread.old seen.new spread.new) }
{
    for p in readers {
        visit(scans, ProcId(*p), seen, spread)?;
    }
    Ok(())
}

/// Whether each signal may be x after power-up: a register without an asynchronous reset, a latch,
/// or what a process may write that reads such a signal before it has written it.
///
/// Fails where memory runs out.
pub fn doubtful(alloc: Global, scans: &Scans, gates: &[Gate]) -> Result<Vec<bool>, Memory>
    requires scans { AreScans scans.now }
    requires gates { AreGates (flat scans.now.design.now) (gates_of gates.now) }
    ensures length { IfOk result (λ answers. length answers.items
        ≡ length scans.now.design.now.signals.items) }
    ensures each { IfOk result (λ answers. (s : ℕ) → slice_get answers.items s
        ≡ Some true ↔ IsDoubtful (flat scans.now.design.now) s) }
{
    let gated = gated(alloc, scans.design, gates)?;
    let readers = readers(alloc, scans)?;
    let mut seen = vec![in alloc; false; scans.design.processes.len()]?;
    let mut spread = started(alloc, scans, &gated)?;
    while let Some(signal) = spread.waiting.pop() {
        visit_all(scans, &readers[signal as usize], &mut seen, &mut spread)?;
    }
    Ok(spread.marked)
}
