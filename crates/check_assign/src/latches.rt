// Variables that hold their values without a clock.

ghost use Rattle.std.specs.Prelude.{ℕ, ◌≡◌, ◌<◌, ◌↔◌, cond, length, Some, true, IfOk, OnOk};
ghost use Rattle.std.specs.List.{slice_get};
ghost use Rattle.std.specs.Ordering.{nat_cmp};
ghost use Rattle.std.specs.BTreeMap.{get};
ghost use Rattle.rtl_flat.specs.Flows.{flow_of};
ghost use Rattle.rtl_flat.specs.Paths.{is_sure};
ghost use Rattle.rtl_flat.specs.Process.{Task};
ghost use Rattle.rtl_flat.specs.Flats.{flat, widths};
ghost use Rattle.check_gates.specs.Admitted.{AreGates, IsGatedProcess, gates_of};
ghost use Rattle.check_loops.specs.rtl_scan.Sets.{has, mask_of};
ghost use Rattle.check_loops.specs.check_found.Scanned.{AreScans};
ghost use Rattle.check_assign.specs.Assigned.{AreLatchInferred, IsLatchInferred, latch_inferred_at};
ghost use Rattle.check_assign.specs.Marks.{any_row, leaves};
ghost use Rattle.check_loops.specs.check_found.Gathered.{Gets, signal_numbers, task_sites};

use crate::kinds::is_comb;
use check_gates::{Gate, gated};
use check_loops::check_found::marks::{Among, Marks};
use check_loops::check_found::scans::Scans;
use check_loops::check_found::sets::sure;
use check_loops::rtl_scan::bits::{BitSet, Row};
use rtl_flat::act::ProcId;
use rtl_flat::design::Design;
use rtl_rule::finding::Finding;
use rtl_rule::rule::Rule;
use std::alloc::Global;
use text_ground::memory::Memory;
use text_ground::text::Spot;

/// Whether a bit of a row isn't in a set.
fn leaves(sure: &BitSet, row: Row) -> bool
    ensures { result ≡ leaves (mask_of sure.now.masks) row }
{
    row.mask & (row.mask ^ sure.mask(row.signal)) != 0
}

/// Marks the signals of rows with a bit outside a set.
fn mark_left(rows: &[Row], sure: &BitSet, spot: Spot, marks: &mut Marks) -> Result<(), Memory>
    ensures { OnOk result ((s : ℕ) → get nat_cmp marks.new.spots s
        ≡ cond (any_row (leaves (mask_of sure.now.masks)) rows.now s) (Some spot)
        (get nat_cmp marks.old.spots s)) }
{
    for row in rows {
        if leaves(sure, *row) {
            marks.put(row.signal, spot)?;
        }
    }
    Ok(())
}

/// The bits that every path of a process writes.
fn sure_bits(alloc: Global, design: &Design, p: ProcId) -> Result<BitSet, Memory>
    requires { p.0 < length design.now.processes.items }
    ensures { let d = flat design.now in
        IfOk result (λ bits. (task : Task) → slice_get d.tasks p.0 ≡ Some task → (s k : ℕ) →
        has bits.masks s k ≡ is_sure (flow_of (widths d) task.does) s k) }
{
    let sure = sure(alloc, design, p)?;
    BitSet::of(alloc, &sure.rows)
}

fn push_latches(
    alloc: Global,
    scans: &Scans,
    p: ProcId,
    gated: &[bool],
    found: &mut Vec<Finding>,
) -> Result<(), Memory>
    requires scans { AreScans scans.now }
    requires inside { p.0 < length scans.now.design.now.processes.items }
    requires size { length gated.now ≡ length scans.now.design.now.processes.items }
    requires gated { (p : ℕ) → slice_get gated.now p
        ≡ Some true ↔ IsGatedProcess (flat scans.now.design.now) p }
    ensures { let d = flat scans.now.design.now in
        OnOk result ((task : Task) → slice_get d.tasks p.0 ≡ Some task →
        Gets (IsLatchInferred d) latch_inferred_at (task_sites (signal_numbers d) p.0 task)
        found.old.items found.new.items) }
{
    let process = &scans.design.processes[p.0 as usize];
    if gated[p.0 as usize] {
        return Ok(());
    }
    if !is_comb(&process.does) {
        return Ok(());
    }
    let sure = sure_bits(alloc, scans.design, p)?;
    let mut marks = Marks::new(alloc);
    mark_left(&scans.written(p).rows, &sure, process.spot, &mut marks)?;
    marks.push(
        Rule::LatchInferred,
        process,
        Among::Kept(scans.temporaries()),
        found,
    )
}

/// Variables with a bit that some path of a body with a level list leaves, and that aren't
/// temporaries, unless the body is a latch with a gate from outside.
///
/// Fails where memory runs out.
pub fn latch_inferred(alloc: Global, scans: &Scans, gates: &[Gate]) -> Result<Vec<Finding>, Memory>
    requires scans { AreScans scans.now }
    requires gates { AreGates (flat scans.now.design.now) (gates_of gates.now) }
    ensures { IfOk result (λ found. AreLatchInferred (flat scans.now.design.now) found.items) }
{
    let gated = gated(alloc, scans.design, gates)?;
    let mut found = Vec::new(alloc);
    for number in 0..scans.design.processes.len() {
        push_latches(alloc, scans, ProcId(number as u32), &gated, &mut found)?;
    }
    Ok(found)
}
