// What single statements read and write.

ghost use Rattle.std.specs.Prelude.{ℕ, ◌≡◌, [], ◌∷◌, map, OnOk, IfOk};
ghost use Rattle.rtl_flat.specs.Signs.{width_in};
ghost use Rattle.rtl_flat.specs.Expression.{tree};
ghost use Rattle.rtl_flat.specs.Process.{piece};
ghost use Rattle.rtl_flat.specs.Paths.{End, either};
ghost use Rattle.rtl_flat.specs.Flows.{reads, reads_all, labels_of, target_reads};
ghost use Rattle.rtl_scan.specs.Sets.{has, has_rows};
ghost use Rattle.rtl_scan.specs.Scan.{FlowScanned, Reads, Commits, Restores, assign_flow, connect_flow, write_flow};
ghost use Rattle.rtl_scan.specs.Bodies.{branches_of};

use crate::bits::Row;
use crate::scan::{
    Counted, Sets, add_kept, add_late, add_reads, add_sure, add_writes, is_counted, take_back,
};
use crate::spans::Widths;
use rtl_flat::act::{CaseItem, TargetPart};
use rtl_flat::expr::SizedExpr;
use std::alloc::Global;
use text_ground::memory::Memory;

/// What stays the same in a pass.
#[derive(Drop)]
pub(crate) struct Pass<'d> {
    pub(crate) alloc: Global,
    pub(crate) widths: Widths<'d>,
    pub(crate) counted: Counted,
}

impl<'d> Pass<'d> {
    /// Reads an expression.
    pub(crate) fn read(&self, e: &SizedExpr, sets: &mut Sets) -> Result<(), Memory>
        ensures { OnOk result (Reads (reads (width_in self.now.widths.signals.now) (tree e.now))
            sets.old sets.new) }
    {
        let mut rows = sets.take_rows(self.alloc);
        self.widths.push_reads(e, &mut rows)?;
        read_rows(rows, sets)
    }

    /// Reads a selector and all labels of a case.
    pub(crate) fn read_case(
        &self,
        selector: &SizedExpr,
        items: &[CaseItem],
        sets: &mut Sets,
    ) -> Result<(), Memory>
        ensures { OnOk result (Reads (either
            (reads (width_in self.now.widths.signals.now) (tree selector.now))
            (reads_all (width_in self.now.widths.signals.now) (labels_of (branches_of items.now))))
            sets.old sets.new) }
    {
        let mut rows = sets.take_rows(self.alloc);
        self.widths.push_reads(selector, &mut rows)?;
        self.widths.push_labels(items, &mut rows)?;
        read_rows(rows, sets)
    }

    /// Reads the value and the indices of an assignment.
    fn read_assign(
        &self,
        parts: &[TargetPart],
        value: &SizedExpr,
        sets: &mut Sets,
    ) -> Result<(), Memory>
        ensures { OnOk result (Reads (either
            (reads (width_in self.now.widths.signals.now) (tree value.now))
            (target_reads (width_in self.now.widths.signals.now) (map piece parts.now))) sets.old
            sets.new) }
    {
        let mut rows = sets.take_rows(self.alloc);
        self.widths.push_reads(value, &mut rows)?;
        self.widths.push_indices(parts, &mut rows)?;
        read_rows(rows, sets)
    }

    /// Writes a target.
    fn write(
        &self,
        parts: &[TargetPart],
        delayed: bool,
        sets: &mut Sets,
        log: &mut Vec<Row>,
    ) -> Result<(), Memory>
        ensures { OnOk result (FlowScanned self.now.counted
            (write_flow (width_in self.now.widths.signals.now) (map piece parts.now) delayed)
            sets.old log.old.items sets.new log.new.items) }
    {
        add_writes(&self.widths, &mut sets.writes, parts)?;
        add_late(&self.widths, &mut sets.late, parts, delayed)?;
        if !is_counted(self.counted, delayed) {
            return Ok(());
        }
        add_sure(&self.widths, &mut sets.done, log, parts)
    }

    /// A continuous assignment.
    pub(crate) fn connect(
        &self,
        parts: &[TargetPart],
        value: &SizedExpr,
        sets: &mut Sets,
        log: &mut Vec<Row>,
    ) -> Result<(), Memory>
        ensures { OnOk result (FlowScanned self.now.counted
            (connect_flow (width_in self.now.widths.signals.now) (map piece parts.now)
            (tree value.now)) sets.old log.old.items sets.new log.new.items) }
    {
        self.read(value, sets)?;
        self.write(parts, false, sets, log)
    }

    /// An assignment: its value and all its indices are read first.
    pub(crate) fn assign(
        &self,
        parts: &[TargetPart],
        value: &SizedExpr,
        delayed: bool,
        sets: &mut Sets,
        log: &mut Vec<Row>,
    ) -> Result<(), Memory>
        ensures { OnOk result (FlowScanned self.now.counted
            (assign_flow (width_in self.now.widths.signals.now) (map piece parts.now)
            (tree value.now) delayed) sets.old log.old.items sets.new log.new.items) }
    {
        self.read_assign(parts, value, sets)?;
        self.write(parts, delayed, sets, log)
    }
}

/// Reads these bits; their room serves again.
fn read_rows(rows: Vec<Row>, sets: &mut Sets) -> Result<(), Memory>
    ensures { OnOk result (Reads (has_rows rows.items) sets.old sets.new) }
{
    add_reads(&mut sets.reads, &sets.done, &rows)?;
    sets.rows = rows;
    Ok(())
}

/// What all ways of a fork surely wrote stays written behind it.
pub(crate) fn commit(kept: &[Row], sets: &mut Sets, log: &mut Vec<Row>) -> Result<(), Memory>
    ensures { OnOk result (Commits kept.now sets.old log.old.items sets.new log.new.items) }
{
    add_kept(&mut sets.done, log, kept)
}

/// What one way of a fork wrote isn't written on another.
pub(crate) fn restore(log: &[Row], sets: &mut Sets) -> Result<(), Memory>
    ensures { OnOk result (Restores log.now sets.old sets.new) }
{
    take_back(&mut sets.done, log)
}
