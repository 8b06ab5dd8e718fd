// What processes with the form of a latch may write and read.

ghost use Rattle.std.specs.Prelude.{◌≡◌, ◌<◌, ◌↔◌, ℕ, true, length, Some, map, IfOk};
ghost use Rattle.std.specs.List.{slice_get};
ghost use Rattle.rtl_flat.specs.Process.{Task, action, body_of};
ghost use Rattle.rtl_flat.specs.Flats.{flat, widths};
ghost use Rattle.rtl_flat.specs.Flows.{item_reads};
ghost use Rattle.rtl_rule.specs.Parts.{items_of};
ghost use Rattle.check_chains.specs.check_found.Scanned.{AreScans};
ghost use Rattle.check_chains.specs.rtl_scan.Sets.{has, has_rows};
ghost use Rattle.check_gates.specs.Forms.{AreApart, AreClear, AreWithin, HaveOther, IsFit, LeaveOut, ReadsWell, WritesWell};

use crate::links::is_bit;
use crate::tops::is_marked;
use check_chains::check_found::scans::Scans;
use check_chains::check_parts::statements::items;
use check_chains::rtl_scan::bits::{BitSet, Row};
use check_chains::rtl_scan::{branch_reads, branch_sure, index_reads};
use rtl_flat::act::{Act, ProcId};
use rtl_flat::expr::SigId;
use std::alloc::Global;
use text_ground::memory::Memory;

/// Whether a set has all bits of some rows.
fn are_within(rows: &[Row], bits: &BitSet) -> bool
    ensures { result ≡ true ↔ AreWithin rows.now (has bits.now.masks) }
{
    for row in rows {
        if bits.lacks(*row).mask != 0 {
            return false;
        }
    }
    true
}

/// Whether a set has no bit of some rows.
fn are_apart(rows: &[Row], bits: &BitSet) -> bool
    ensures { result ≡ true ↔ AreApart rows.now (has bits.now.masks) }
{
    for row in rows {
        if bits.shared(*row).mask != 0 {
            return false;
        }
    }
    true
}

/// Whether no row has a bit of a signal.
fn leave_out(rows: &[Row], signal: SigId) -> bool
    ensures { result ≡ true ↔ LeaveOut rows.now signal.0 }
{
    for row in rows {
        if row.signal == signal && row.mask != 0 {
            return false;
        }
    }
    true
}

/// Whether some bit of rows is of a signal that isn't marked.
fn have_other(rows: &[Row], marks: &[bool]) -> bool
    ensures { result ≡ true ↔ HaveOther rows.now marks.now }
{
    for row in rows {
        if row.mask != 0 && !is_marked(marks, row.signal.0) {
            return true;
        }
    }
    false
}

/// Whether each bit that a process may write is surely written in its branch, and some of a variable that is no temporary.
fn writes_well(alloc: Global, scans: &Scans, p: ProcId, branch: &[Act]) -> Result<bool, Memory>
    requires scans { AreScans scans.now }
    requires there { p.0 < length scans.now.design.now.processes.items }
    ensures { let d = flat scans.now.design.now in
        IfOk result (λ well. (task : Task) → slice_get d.tasks p.0 ≡ Some task →
        well ≡ true ↔ WritesWell d task.does (body_of (map action branch.now))) }
{
    let rows = &scans.written(p).rows;
    if !have_other(rows, scans.temporaries()) {
        return Ok(false);
    }
    let sure = branch_sure(alloc, scans.design, branch)?;
    Ok(are_within(rows, &sure))
}

/// Whether a set has no bit of a signal.
fn lacks_signal(bits: &BitSet, signal: SigId) -> bool
    ensures { result ≡ true ↔ ((k : ℕ) → has bits.now.masks signal.0 k ≡ true → ⊥) }
{
    bits.mask(signal) == 0
}

/// Whether a process reads no bit that it may write, and its signal in no branch and no index of its list.
fn reads_well(
    alloc: Global,
    scans: &Scans,
    p: ProcId,
    branch: &[Act],
    signal: SigId,
) -> Result<bool, Memory>
    requires scans { AreScans scans.now }
    requires there { p.0 < length scans.now.design.now.processes.items }
    ensures { let d = flat scans.now.design.now in
        IfOk result (λ well. (task : Task) → slice_get d.tasks p.0 ≡ Some task →
        well ≡ true ↔ ReadsWell d task.does (body_of (map action branch.now)) signal.0) }
{
    let written = BitSet::of(alloc, &scans.written(p).rows)?;
    let listed = list_rows(alloc, scans, p)?;
    let read = branch_reads(alloc, scans.design, branch)?;
    let outside = &scans.read_outside(p).rows;
    Ok(are_clear(outside, &listed, &written, &read, signal))
}

/// Whether a set has no bit of some rows and of the rows of a list, and these and another set none of a signal.
fn are_clear(
    outside: &[Row],
    listed: &[Row],
    written: &BitSet,
    read: &BitSet,
    signal: SigId,
) -> bool
    ensures { result ≡ true ↔ AreClear outside.now listed.now (has written.now.masks) (has read.now.masks) signal.0 }
{
    if !are_apart(outside, written) {
        return false;
    }
    if !are_apart(listed, written) {
        return false;
    }
    if !leave_out(listed, signal) {
        return false;
    }
    lacks_signal(read, signal)
}

/// The bits that the indices of a process's list read.
fn list_rows(alloc: Global, scans: &Scans, p: ProcId) -> Result<Vec<Row>, Memory>
    requires { p.0 < length scans.now.design.now.processes.items }
    ensures { let d = flat scans.now.design.now in
        IfOk result (λ rows. (task : Task) → slice_get d.tasks p.0 ≡ Some task → (s k : ℕ) →
        has_rows rows.items s k ≡ item_reads (widths d) (items_of task.does) s k) }
{
    let process = &scans.design.processes[p.0 as usize];
    index_reads(alloc, scans.design, items(&process.does))
}

/// Whether a process whose body is one `if` on a signal is a latch by what it writes and reads.
pub(crate) fn fits(
    alloc: Global,
    scans: &Scans,
    p: ProcId,
    branch: &[Act],
    signal: SigId,
) -> Result<bool, Memory>
    requires scans { AreScans scans.now }
    requires there { p.0 < length scans.now.design.now.processes.items }
    ensures { let d = flat scans.now.design.now in
        IfOk result (λ fit. (task : Task) → slice_get d.tasks p.0 ≡ Some task →
        fit ≡ true ↔ IsFit d task.does (body_of (map action branch.now)) signal.0) }
{
    if !is_bit(scans.design, signal) {
        return Ok(false);
    }
    if !writes_well(alloc, scans, p, branch)? {
        return Ok(false);
    }
    reads_well(alloc, scans, p, branch, signal)
}
