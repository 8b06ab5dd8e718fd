// Signals that several processes drive, and those with bits that none does.

ghost use Rattle.std.specs.Prelude.{ℕ, ◌≡◌, ◌&&◌, ◌||◌, ◌<◌, [], ◌∷◌, cond, length, not, Some, IfOk, OnOk};
ghost use Rattle.std.specs.List.{slice_get};
ghost use Rattle.std.specs.Ordering.{nat_cmp};
ghost use Rattle.std.specs.BTreeMap.{get};
ghost use Rattle.rtl_flat.specs.Process.{Task};
ghost use Rattle.rtl_rule.specs.Parts.{has_some, written};
ghost use Rattle.rtl_flat.specs.Flats.{flat, widths};
ghost use Rattle.check_loops.specs.check_found.Masks.{has_in, mask_in};
ghost use Rattle.check_loops.specs.check_found.Scanned.{AreScans};
ghost use Rattle.event_model.specs.Queue.{is_input_kind};
ghost use Rattle.check_assign.specs.Assigned.{AreSeveralDrivers, AreUndriven, IsSeveralDrivers, IsUndriven, is_written, lower_writes, several_drivers_at, undriven_at};
ghost use Rattle.check_assign.specs.Marks.{any_row, leaves, shares};
ghost use Rattle.check_loops.specs.check_found.Gathered.{Gets, signal_numbers, task_sites};

use check_loops::check_found::marks::{Among, Marks};
use check_loops::check_found::masks::SignalMasks;
use check_loops::check_found::scans::Scans;
use check_loops::rtl_scan::bits::Row;
use check_loops::rtl_scan::selected;
use rtl_flat::act::ProcId;
use rtl_flat::design::Design;
use rtl_flat::expr::{Select, SigId};
use rtl_flat::signal::{Kind, Signal};
use rtl_rule::finding::Finding;
use rtl_rule::rule::Rule;
use std::alloc::Global;
use text_ground::memory::Memory;
use text_ground::text::Spot;

/// Whether a bit of a row is in a set.
fn shares(masks: &SignalMasks, row: Row) -> bool
    ensures { result ≡ shares (mask_in masks.now) row }
{
    row.mask & masks.mask(row.signal) != 0
}

/// Whether a bit of a row isn't in a set.
fn leaves(masks: &SignalMasks, row: Row) -> bool
    ensures { result ≡ leaves (mask_in masks.now) row }
{
    row.mask & (row.mask ^ masks.mask(row.signal)) != 0
}

/// Marks the signals of rows that share a bit with a set.
fn mark_shared(
    rows: &[Row],
    lower: &SignalMasks,
    spot: Spot,
    marks: &mut Marks,
) -> Result<(), Memory>
    ensures { OnOk result ((s : ℕ) → get nat_cmp marks.new.spots s
        ≡ cond (any_row (shares (mask_in lower.now)) rows.now s) (Some spot)
        (get nat_cmp marks.old.spots s)) }
{
    for row in rows {
        if shares(lower, *row) {
            marks.put(row.signal, spot)?;
        }
    }
    Ok(())
}

/// Adds the findings of a process, where the processes below it may write the bits of a set; its own
/// go into the set.
fn push_shared(
    alloc: Global,
    scans: &Scans,
    p: ProcId,
    lower: &mut SignalMasks,
    found: &mut Vec<Finding>,
) -> Result<(), Memory>
    requires scans { AreScans scans.now }
    requires inside { p.0 < length scans.now.design.now.processes.items }
    requires lower { let d = flat scans.now.design.now in
        (s k : ℕ) → has_in lower.old s k ≡ lower_writes d p.0 s k }
    ensures found { let d = flat scans.now.design.now in
        OnOk result ((task : Task) → slice_get d.tasks p.0 ≡ Some task →
        Gets (IsSeveralDrivers d) several_drivers_at (task_sites (signal_numbers d) p.0 task)
        found.old.items found.new.items) }
    ensures lower { let d = flat scans.now.design.now in
        OnOk result ((task : Task) → slice_get d.tasks p.0 ≡ Some task → (s k : ℕ) →
        has_in lower.new s k ≡ (has_in lower.old s k || written d task.does s k)) }
{
    let process = &scans.design.processes[p.0 as usize];
    let written = scans.written(p);
    let mut marks = Marks::new(alloc);
    mark_shared(&written.rows, lower, process.spot, &mut marks)?;
    marks.push(Rule::SeveralDrivers, process, Among::All, found)?;
    lower.insert_all(&written.rows)
}

/// The findings of signals that several processes drive, and the bits that some process drives.
#[derive(Drop)]
pub(crate) struct Drivers {
    pub(crate) several: Vec<Finding>,
    pub(crate) driven: SignalMasks,
}

impl Drivers {
    /// Those of a design, from one look at each process.
    pub(crate) fn of(alloc: Global, scans: &Scans) -> Result<Drivers, Memory>
        requires { AreScans scans.now }
        ensures several { IfOk result (λ made.
            AreSeveralDrivers (flat scans.now.design.now) made.several.items) }
        ensures driven { IfOk result (λ made.
            (s k : ℕ) → has_in made.driven s k ≡ is_written (flat scans.now.design.now) s k) }
    {
        let mut several = Vec::new(alloc);
        let mut lower = SignalMasks::new(alloc);
        for number in 0..scans.design.processes.len() {
            push_shared(
                alloc,
                scans,
                ProcId(number as u32),
                &mut lower,
                &mut several,
            )?;
        }
        Ok(Drivers {
            several,
            driven: lower,
        })
    }
}

fn is_input(kind: Kind) -> bool
    ensures { result ≡ is_input_kind kind }
{
    match kind {
        Kind::TopInput => true,
        Kind::Net => false,
        Kind::Var => false,
    }
}

/// Whether a signal isn't a top input and has a bit that isn't in a set.
fn is_undriven(design: &Design, signal: &Signal, number: SigId, driven: &SignalMasks) -> bool
    ensures { result ≡ (not (is_input_kind signal.now.kind)
        && has_some (widths (flat design.now)) (λ s k. not (has_in driven.now s k)) number.0) }
{
    !is_input(signal.kind) && leaves(driven, selected(design, number, &Select::Whole))
}

/// Adds the finding of a signal where it has one, from the bits that processes may write.
fn push_undriven(
    design: &Design,
    signal: &Signal,
    number: SigId,
    driven: &SignalMasks,
    found: &mut Vec<Finding>,
) -> Result<(), Memory>
    requires { (s k : ℕ) → has_in driven.now s k ≡ is_written (flat design.now) s k }
    ensures { OnOk result (Gets (IsUndriven (flat design.now)) undriven_at
        ((number.0, signal.now) ∷ []) found.old.items found.new.items) }
{
    if !is_undriven(design, signal, number, driven) {
        return Ok(());
    }
    found.push(Finding {
        rule: Rule::Undriven,
        signal: Some(number),
        instance: signal.instance,
        spot: signal.spot,
    })?;
    Ok(())
}

/// The findings of signals that aren't top inputs and have a bit that isn't among those that processes may write.
pub(crate) fn undriven_beside(
    alloc: Global,
    design: &Design,
    driven: &SignalMasks,
) -> Result<Vec<Finding>, Memory>
    requires { (s k : ℕ) → has_in driven.now s k ≡ is_written (flat design.now) s k }
    ensures { IfOk result (λ found. AreUndriven (flat design.now) found.items) }
{
    let mut found = Vec::new(alloc);
    for number in 0..design.signals.len() {
        let signal = &design.signals[number];
        push_undriven(design, signal, SigId(number as u32), driven, &mut found)?;
    }
    Ok(found)
}
