// What a process reads, writes, surely writes and lists.

ghost use Rattle.std.specs.Prelude.{ℕ, ◌≡◌, ◌<◌, ◌≤◌, ◌↔◌, true, false, [], map, length, OnOk, IfOk};
ghost use Rattle.rtl_flat.specs.Signs.{width_in};
ghost use Rattle.rtl_flat.specs.Process.{doing, selection, task, watched};
ghost use Rattle.rtl_flat.specs.Paths.{MayWrite, IsSure, ReadsOutside, may_read};
ghost use Rattle.rtl_flat.specs.Flows.{flow_of, may_select};
ghost use Rattle.rtl_flat.specs.PathSets.{OfProcess, Lists, listed, items_list};
ghost use Rattle.rtl_scan.specs.Sets.{has, has_row, has_rows, IsInOrder};
ghost use Rattle.rtl_scan.specs.Scan.{FlowScanned, ScannedOver, HasScanned};

use crate::bits::{BitSet, Bits, Row};
use crate::scan::{Counted, Sets};
use crate::spans::Widths;
use crate::steps::Pass;
use rtl_flat::act::{Does, EventItem, Listed, ProcId};
use rtl_flat::design::Design;
use rtl_flat::expr::{Select, SigId};
use rtl_flat::signal::Signal;
use std::alloc::Global;
use text_ground::memory::Memory;

/// Scans a process from nothing.
pub(crate) fn scan(
    alloc: Global,
    widths: Widths,
    does: &Does,
    counted: Counted,
) -> Result<Sets, Memory>
    ensures { IfOk result (λ sets.
        HasScanned counted (flow_of (width_in widths.entry.signals.now) (doing does.now)) sets) }
{
    let pass = Pass {
        alloc,
        widths,
        counted,
    };
    let mut sets = Sets::new(alloc);
    pass.process(does, &mut sets)?;
    Ok(sets)
}

impl<'d> Pass<'d> {
    fn process(&self, does: &Does, sets: &mut Sets) -> Result<(), Memory>
        ensures { OnOk result (ScannedOver self.now.counted
            (flow_of (width_in self.now.widths.signals.now) (doing does.now)) sets.old sets.new) }
    {
        let mut log = Vec::new(self.alloc);
        match does {
            Does::Assign { target, value } => self.connect(&target.parts, value, sets, &mut log),
            Does::Comb { list: _, body } => self.statements(body, sets, &mut log),
            Does::Edge { events: _, body } => self.statements(body, sets, &mut log),
        }
    }
}

/// The bits that a process lists.
pub(crate) fn list(alloc: Global, widths: Widths, does: &Does) -> Result<BitSet, Memory>
    ensures { IfOk result (λ bits. (s k : ℕ)
        → has bits.masks s k ≡ listed (width_in widths.entry.signals.now) (doing does.now) s k) }
{
    match does {
        Does::Assign {
            target: _,
            value: _,
        } => Ok(BitSet::new(alloc)),
        Does::Comb { list, body: _ } => match list {
            Listed::Star => read_anywhere(alloc, widths, does),
            Listed::Items(items) => listed_items(alloc, widths, items),
        },
        Does::Edge { events, body: _ } => listed_items(alloc, widths, events),
    }
}

/// The bits that a process reads on some path.
fn read_anywhere(alloc: Global, widths: Widths, does: &Does) -> Result<BitSet, Memory>
    ensures { IfOk result (λ bits. (s k : ℕ)
        → has bits.masks s k ≡ may_read
        (flow_of (width_in widths.entry.signals.now) (doing does.now)) s k) }
{
    let sets = scan(alloc, widths, does, Counted::Nothing)?;
    Ok(sets.reads)
}

/// The bits that items list.
fn listed_items(alloc: Global, widths: Widths, items: &[EventItem]) -> Result<BitSet, Memory>
    ensures { IfOk result (λ bits. (s k : ℕ)
        → has bits.masks s k ≡ items_list (width_in widths.entry.signals.now)
        (map watched items.now) s k) }
{
    let mut bits = BitSet::new(alloc);
    for item in items {
        bits.insert(widths.may_row(item.signal, &item.select))?;
    }
    Ok(bits)
}

pub(crate) fn widths_of(d: &Design) -> Widths<'_>
    ensures { result.signals.now ≡ d.now.signals.items }
{
    Widths {
        signals: &d.signals,
    }
}

/// The bits that a process externally reads: some path of its body reads them with no blocking
/// assignment to them before.
pub fn reads(alloc: Global, d: &Design, p: ProcId) -> Result<Bits, Memory>
    requires { p.0 < length d.now.processes.items }
    ensures bits { IfOk result (λ bits. (s k : ℕ) → has_rows bits.rows.items s k ≡ true
        ↔ OfProcess ReadsOutside d.now.signals.items (map task d.now.processes.items) p.0 s k) }
    ensures order { IfOk result (λ bits. IsInOrder bits.rows.items) }
{
    let does = &d.processes[p.0 as usize].does;
    let sets = scan(alloc, widths_of(d), does, Counted::Blocking)?;
    sets.reads.to_bits(alloc)
}

/// The bits that some path of a process writes. Where an index of a left side is computed, that is
/// all of its signal.
pub fn writes(alloc: Global, d: &Design, p: ProcId) -> Result<Bits, Memory>
    requires { p.0 < length d.now.processes.items }
    ensures bits { IfOk result (λ bits. (s k : ℕ) → has_rows bits.rows.items s k ≡ true
        ↔ OfProcess MayWrite d.now.signals.items (map task d.now.processes.items) p.0 s k) }
    ensures order { IfOk result (λ bits. IsInOrder bits.rows.items) }
{
    let does = &d.processes[p.0 as usize].does;
    let sets = scan(alloc, widths_of(d), does, Counted::Blocking)?;
    sets.writes.to_bits(alloc)
}

/// The bits that every path of a process writes, by blocking or nonblocking assignments.
pub fn sure(alloc: Global, d: &Design, p: ProcId) -> Result<Bits, Memory>
    requires { p.0 < length d.now.processes.items }
    ensures bits { IfOk result (λ bits. (s k : ℕ) → has_rows bits.rows.items s k ≡ true
        ↔ OfProcess IsSure d.now.signals.items (map task d.now.processes.items) p.0 s k) }
    ensures order { IfOk result (λ bits. IsInOrder bits.rows.items) }
{
    let does = &d.processes[p.0 as usize].does;
    let sets = scan(alloc, widths_of(d), does, Counted::All)?;
    sets.done.to_bits(alloc)
}

/// The bits that a process lists: `@*` lists what its body reads, and an assignment lists none.
pub fn lists(alloc: Global, d: &Design, p: ProcId) -> Result<Bits, Memory>
    requires { p.0 < length d.now.processes.items }
    ensures bits { IfOk result (λ bits. (s k : ℕ) → has_rows bits.rows.items s k ≡ true
        ↔ Lists d.now.signals.items (map task d.now.processes.items) p.0 s k) }
    ensures order { IfOk result (λ bits. IsInOrder bits.rows.items) }
{
    let does = &d.processes[p.0 as usize].does;
    let bits = list(alloc, widths_of(d), does)?;
    bits.to_bits(alloc)
}

/// The bits that a select of a signal may mean: all of the signal where its index is computed.
pub fn selected(d: &Design, signal: SigId, select: &Select) -> Row
    ensures { (s k : ℕ) → has_row result s k
        ≡ may_select (width_in d.now.signals.items) signal.0 (selection select.now) s k }
{
    widths_of(d).may_row(signal, select)
}
