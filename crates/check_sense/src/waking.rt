// Level lists that nothing can wake.

ghost use Rattle.std.specs.Prelude.{◌≡◌, ◌<◌, Some, length, IfOk, OnOk};
ghost use Rattle.std.specs.List.{list_any, slice_get};
ghost use Rattle.rtl_flat.specs.Process.{doing, Task};
ghost use Rattle.rtl_flat.specs.Flats.{flat};
ghost use Rattle.check_found.specs.rtl_scan.Sets.{has_rows};
ghost use Rattle.check_found.specs.Gathered.{Gets, task_sites};
ghost use Rattle.check_found.specs.Scanned.{AreScans};
ghost use Rattle.event_model.specs.Queue.{is_input_kind};
ghost use Rattle.check_sense.specs.Sense.{AreNeverWakes, IsNeverWakes, can_wake, never_wakes_at};
ghost use Rattle.check_sense.specs.Telling.{AreWriters, GetsWriter, has_level_list, itself, row_wakes, top_at};

use check_found::masks::SignalMasks;
use check_found::rtl_scan::bits::{BitSet, Bits, Row};
use check_found::scans::Scans;
use rtl_flat::act::{Does, ProcId};
use rtl_flat::expr::SigId;
use rtl_flat::signal::{Kind, Signal};
use rtl_rule::finding::Finding;
use rtl_rule::rule::Rule;
use std::alloc::Global;
use text_ground::memory::Memory;

/// The bits that one process at least may write, and those that several may.
#[derive(Drop)]
struct Writers {
    once: SignalMasks,
    twice: SignalMasks,
}

impl Writers {
    /// One process more may write some bits.
    fn add(&mut self, written: &Bits) -> Result<(), Memory>
        ensures { OnOk result (GetsWriter (has_rows written.now.rows.items) self.old self.new) }
    {
        self.twice.insert_shared(&written.rows, &self.once)?;
        self.once.insert_all(&written.rows)
    }

    /// Those of a design.
    fn of(alloc: Global, scans: &Scans) -> Result<Writers, Memory>
        requires { AreScans scans.now }
        ensures { let d = flat scans.now.design.now in
            IfOk result (λ writers. AreWriters d d.tasks writers) }
    {
        let mut writers = Writers {
            once: SignalMasks::new(alloc),
            twice: SignalMasks::new(alloc),
        };
        for number in 0..scans.design.processes.len() {
            writers.add(scans.written(ProcId(number as u32)))?;
        }
        Ok(writers)
    }

    /// Whether a bit of a row is of a top input, or may be written by a process other than one that
    /// may write some bits.
    fn wake(&self, signals: &[Signal], own: &BitSet, row: Row) -> bool
        ensures { result ≡ row_wakes signals.now self.now own.now.masks row }
    {
        if is_top(signals, row.signal) {
            return row.mask != 0;
        }
        let once = self.once.mask(row.signal);
        let twice = self.twice.mask(row.signal);
        row.mask & (twice | (once & (once ^ own.mask(row.signal)))) != 0
    }
}

/// Whether a signal is an input of the top module.
fn is_top(signals: &[Signal], signal: SigId) -> bool
    ensures { result ≡ top_at signals.now signal.0 }
{
    let place = signal.0 as usize;
    if place >= signals.len() {
        return false;
    }
    is_input(&signals[place])
}

fn is_input(signal: &Signal) -> bool
    ensures { result ≡ is_input_kind signal.now.kind }
{
    matches!(signal.kind, Kind::TopInput)
}

fn wake_some(signals: &[Signal], writers: &Writers, own: &BitSet, rows: &[Row]) -> bool
    ensures { result ≡ list_any (row_wakes signals.now writers.now own.now.masks) rows.now }
{
    for row in rows {
        if writers.wake(signals, own, *row) {
            return true;
        }
    }
    false
}

/// Whether something can wake a process with a level list.
fn can_wake(alloc: Global, scans: &Scans, writers: &Writers, p: ProcId) -> Result<bool, Memory>
    requires scans { AreScans scans.now }
    requires inside { p.0 < length scans.now.design.now.processes.items }
    requires writers { let d = flat scans.now.design.now in AreWriters d d.tasks writers.now }
    ensures { let d = flat scans.now.design.now in
        IfOk result (λ wakes. (task : Task) → slice_get d.tasks p.0 ≡ Some task
        → wakes ≡ can_wake d p.0 task.does) }
{
    let listed = scans.listed(p);
    let own = BitSet::of(alloc, &scans.written(p).rows)?;
    Ok(wake_some(&scans.design.signals, writers, &own, &listed.rows))
}

/// Whether a process has a list without an edge.
fn has_level_list(does: &Does) -> bool
    ensures { result ≡ has_level_list (doing does.now) }
{
    match does {
        Does::Assign {
            target: _,
            value: _,
        } => false,
        Does::Comb { list: _, body: _ } => true,
        Does::Edge { events: _, body: _ } => false,
    }
}

fn push_never(
    alloc: Global,
    scans: &Scans,
    writers: &Writers,
    p: ProcId,
    found: &mut Vec<Finding>,
) -> Result<(), Memory>
    requires scans { AreScans scans.now }
    requires inside { p.0 < length scans.now.design.now.processes.items }
    requires writers { let d = flat scans.now.design.now in AreWriters d d.tasks writers.now }
    ensures { let d = flat scans.now.design.now in
        OnOk result ((task : Task) → slice_get d.tasks p.0 ≡ Some task
        → Gets (IsNeverWakes d) (never_wakes_at d)
        (task_sites itself p.0 task) found.old.items found.new.items) }
{
    let process = &scans.design.processes[p.0 as usize];
    if !has_level_list(&process.does) {
        return Ok(());
    }
    let wakes = can_wake(alloc, scans, writers, p)?;
    if wakes {
        return Ok(());
    }
    found.push(Finding {
        rule: Rule::NeverWakes,
        signal: scans.first_written(p),
        instance: process.instance,
        spot: process.spot,
    })?;
    Ok(())
}

/// Processes with a list without edges, of which no bit is of a top input or may be written by
/// another process.
pub fn never_wakes(alloc: Global, scans: &Scans) -> Result<Vec<Finding>, Memory>
    requires { AreScans scans.now }
    ensures { IfOk result (λ found. AreNeverWakes (flat scans.now.design.now) found.items) }
{
    let writers = Writers::of(alloc, scans)?;
    let mut found = Vec::new(alloc);
    for number in 0..scans.design.processes.len() {
        push_never(alloc, scans, &writers, ProcId(number as u32), &mut found)?;
    }
    Ok(found)
}
