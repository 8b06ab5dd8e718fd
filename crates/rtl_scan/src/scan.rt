// One pass over a body.

ghost use Rattle.std.specs.Prelude.{ℕ, [], ◌≡◌, ◌&&◌, ◌||◌, false, not, map, OnOk, IfOk};
ghost use Rattle.rtl_flat.specs.Signs.{width_in};
ghost use Rattle.rtl_flat.specs.Process.{piece};
ghost use Rattle.rtl_flat.specs.Flows.{may_target, targets};
ghost use Rattle.rtl_scan.specs.Sets.{has, has_rows, has_row};
ghost use Rattle.rtl_scan.specs.Counting.{counts_as_sure};

use crate::bits::{BitSet, Row};
use crate::spans::Widths;
use rtl_flat::act::TargetPart;
use std::alloc::Global;
use std::mem;
use text_ground::memory::Memory;

/// Which writes count as sure.
#[derive(Clone, Copy)]
pub(crate) enum Counted {
    /// None, so that each read counts.
    Nothing,
    /// Blocking assignments, which a later read sees.
    Blocking,
    All,
}

/// Whether an assignment's writes count as sure.
pub(crate) fn is_counted(counted: Counted, delayed: bool) -> bool
    ensures { result ≡ counts_as_sure counted delayed }
{
    match counted {
        Counted::Nothing => false,
        Counted::Blocking => !delayed,
        Counted::All => true,
    }
}

/// What a pass has found: bits read before they were written, bits that may be written, those
/// of them by nonblocking assignments, and bits surely written on the way.
#[derive(Drop)]
pub(crate) struct Sets {
    pub(crate) reads: BitSet,
    pub(crate) writes: BitSet,
    pub(crate) late: BitSet,
    pub(crate) done: BitSet,
    /// Room for the bits of one expression, which most passes need often.
    pub(crate) rows: Vec<Row>,
}

impl Sets {
    /// Nothing found yet.
    pub(crate) fn new(alloc: Global) -> Sets
        ensures reads { (s k : ℕ) → has result.reads.masks s k ≡ false }
        ensures writes { (s k : ℕ) → has result.writes.masks s k ≡ false }
        ensures late { (s k : ℕ) → has result.late.masks s k ≡ false }
        ensures done { (s k : ℕ) → has result.done.masks s k ≡ false }
    {
        Sets {
            reads: BitSet::new(alloc),
            writes: BitSet::new(alloc),
            late: BitSet::new(alloc),
            done: BitSet::new(alloc),
            rows: Vec::new(alloc),
        }
    }

    /// The room, empty.
    pub(crate) fn take_rows(&mut self, alloc: Global) -> Vec<Row>
        ensures empty { result.items ≡ [] }
        ensures reads { self.new.reads ≡ self.old.reads }
        ensures writes { self.new.writes ≡ self.old.writes }
        ensures late { self.new.late ≡ self.old.late }
        ensures done { self.new.done ≡ self.old.done }
    {
        let mut rows = mem::replace(&mut self.rows, Vec::new(alloc));
        rows.clear();
        rows
    }
}

/// Adds the bits of rows that aren't written yet.
pub(crate) fn add_reads(reads: &mut BitSet, done: &BitSet, rows: &[Row]) -> Result<(), Memory>
    ensures { OnOk result ((s k : ℕ)
        → has reads.new.masks s k ≡ (has reads.old.masks s k
        || (not (has done.now.masks s k) && has_rows rows.now s k))) }
{
    for row in rows {
        reads.insert(done.lacks(*row))?;
    }
    Ok(())
}

/// Adds the bits that a target may mean.
pub(crate) fn add_writes(
    widths: &Widths,
    writes: &mut BitSet,
    parts: &[TargetPart],
) -> Result<(), Memory>
    ensures { OnOk result ((s k : ℕ)
        → has writes.new.masks s k ≡ (has writes.old.masks s k
        || may_target (width_in widths.now.signals.now) (map piece parts.now) s k)) }
{
    for part in parts {
        writes.insert(widths.may_row(part.signal, &part.select))?;
    }
    Ok(())
}

/// Adds the bits that a target may mean in a nonblocking assignment.
pub(crate) fn add_late(
    widths: &Widths,
    late: &mut BitSet,
    parts: &[TargetPart],
    delayed: bool,
) -> Result<(), Memory>
    ensures { OnOk result ((s k : ℕ)
        → has late.new.masks s k ≡ (has late.old.masks s k
        || (delayed && may_target (width_in widths.now.signals.now) (map piece parts.now) s k))) }
{
    if !delayed {
        return Ok(());
    }
    add_writes(widths, late, parts)
}

/// Adds the bits of a row, and logs those that are new.
#[tactic(auto, using(crate::proofs::Masks::has_rows_push))]
fn mark(done: &mut BitSet, log: &mut Vec<Row>, row: Row) -> Result<(), Memory>
    ensures { OnOk result ((s k : ℕ)
        → (has done.new.masks s k ≡ (has done.old.masks s k || has_row row s k))
        × (has_rows log.new.items s k ≡ (has_rows log.old.items s k
        || (not (has done.old.masks s k) && has_row row s k)))) }
{
    let fresh = done.lacks(row);
    done.insert(row)?;
    log.push(fresh)?;
    Ok(())
}

/// Adds the bits that a target surely means.
pub(crate) fn add_sure(
    widths: &Widths,
    done: &mut BitSet,
    log: &mut Vec<Row>,
    parts: &[TargetPart],
) -> Result<(), Memory>
    ensures { OnOk result ((s k : ℕ)
        → (has done.new.masks s k ≡ (has done.old.masks s k
        || targets (width_in widths.now.signals.now) (map piece parts.now) s k))
        × (has_rows log.new.items s k ≡ (has_rows log.old.items s k
        || (not (has done.old.masks s k)
        && targets (width_in widths.now.signals.now) (map piece parts.now) s k)))) }
{
    for part in parts {
        mark(done, log, widths.sure_row(part.signal, &part.select))?;
    }
    Ok(())
}

/// Adds the bits of rows, and logs those that are new.
pub(crate) fn add_kept(done: &mut BitSet, log: &mut Vec<Row>, kept: &[Row]) -> Result<(), Memory>
    ensures { OnOk result ((s k : ℕ)
        → (has done.new.masks s k ≡ (has done.old.masks s k || has_rows kept.now s k))
        × (has_rows log.new.items s k ≡ (has_rows log.old.items s k
        || (not (has done.old.masks s k) && has_rows kept.now s k)))) }
{
    for row in kept {
        mark(done, log, *row)?;
    }
    Ok(())
}

/// Takes the bits of rows back.
pub(crate) fn take_back(done: &mut BitSet, log: &[Row]) -> Result<(), Memory>
    ensures { OnOk result ((s k : ℕ)
        → has done.new.masks s k ≡ (has done.old.masks s k && not (has_rows log.now s k))) }
{
    for row in log {
        done.remove(*row)?;
    }
    Ok(())
}

/// The bits of rows that a set has.
pub(crate) fn common(alloc: Global, done: &BitSet, kept: &[Row]) -> Result<Vec<Row>, Memory>
    ensures { IfOk result (λ both. (s k : ℕ)
        → has_rows both.items s k ≡ (has_rows kept.now s k && has done.now.masks s k)) }
{
    let mut both = Vec::new(alloc);
    for row in kept {
        push_some(&mut both, done.shared(*row))?;
    }
    Ok(both)
}

/// Adds a row that has bits.
#[tactic(auto, using(crate::proofs::Adding::no_row_added, crate::proofs::Masks::has_rows_push))]
fn push_some(rows: &mut Vec<Row>, row: Row) -> Result<(), Memory>
    ensures { OnOk result ((s k : ℕ)
        → has_rows rows.new.items s k ≡ (has_rows rows.old.items s k || has_row row s k)) }
{
    if row.mask == 0 {
        return Ok(());
    }
    rows.push(row)?;
    Ok(())
}
