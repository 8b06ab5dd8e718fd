// The bits that targets mean, and what their indices and labels read.

ghost use Rattle.std.specs.Prelude.{ℕ, ◌≡◌, map, OnOk};
ghost use Rattle.rtl_flat.specs.Signs.{width_in};
ghost use Rattle.rtl_flat.specs.Expression.{tree};
ghost use Rattle.rtl_flat.specs.Process.{selection, piece};
ghost use Rattle.rtl_flat.specs.Flows.{may_select, selects, index_reads, target_reads, reads_all, labels_of};
ghost use Rattle.rtl_scan.specs.Sets.{has_row, Adds};
ghost use Rattle.rtl_scan.specs.Bodies.{branches_of};

use crate::bits::Row;
use crate::spans::{Widths, no_bits};
use rtl_flat::act::{CaseItem, TargetPart};
use rtl_flat::expr::{Index, Select, SigId, SizedExpr};
use text_ground::memory::Memory;

impl<'d> Widths<'d> {
    /// The bits that a select may mean.
    pub(crate) fn may_row(&self, signal: SigId, select: &Select) -> Row
        ensures { (s k : ℕ) → has_row result s k
            ≡ may_select (width_in self.now.signals.now) signal.0 (selection select.now) s k }
    {
        match select {
            Select::Whole => self.all(signal),
            Select::Bit { low, index } => match index {
                Index::Fixed(index) => self.bit(signal, *low, *index),
                Index::Computed(_) => self.all(signal),
            },
            Select::Part { low, width } => {
                self.span(signal, *low, u16::from(*low) + u16::from(*width))
            }
        }
    }

    /// The bits that a select means whatever its index is.
    pub(crate) fn sure_row(&self, signal: SigId, select: &Select) -> Row
        ensures { (s k : ℕ) → has_row result s k
            ≡ selects (width_in self.now.signals.now) signal.0 (selection select.now) s k }
    {
        match select {
            Select::Whole => self.all(signal),
            Select::Bit { low, index } => match index {
                Index::Fixed(index) => self.bit(signal, *low, *index),
                Index::Computed(_) => no_bits(signal),
            },
            Select::Part { low, width } => {
                self.span(signal, *low, u16::from(*low) + u16::from(*width))
            }
        }
    }

    /// Adds the bits that the index of a select reads.
    #[tactic(auto, using(crate::proofs::Adding::adds_none))]
    pub(crate) fn push_index(&self, select: &Select, rows: &mut Vec<Row>) -> Result<(), Memory>
        ensures { OnOk result (Adds (index_reads (width_in self.now.signals.now)
            (selection select.now)) rows.old.items rows.new.items) }
    {
        match select {
            Select::Whole => Ok(()),
            Select::Bit { low: _, index } => match index {
                Index::Fixed(_) => Ok(()),
                Index::Computed(index) => self.push_reads(index, rows),
            },
            Select::Part { low: _, width: _ } => Ok(()),
        }
    }

    /// Adds the bits that the indices of a target read.
    pub(crate) fn push_indices(
        &self,
        parts: &[TargetPart],
        rows: &mut Vec<Row>,
    ) -> Result<(), Memory>
        ensures { OnOk result (Adds (target_reads (width_in self.now.signals.now)
            (map piece parts.now)) rows.old.items rows.new.items) }
    {
        for part in parts {
            self.push_index(&part.select, rows)?;
        }
        Ok(())
    }

    /// Adds the bits that expressions read.
    fn push_all(&self, labels: &[SizedExpr], rows: &mut Vec<Row>) -> Result<(), Memory>
        ensures { OnOk result (Adds (reads_all (width_in self.now.signals.now)
            (map tree labels.now)) rows.old.items rows.new.items) }
    {
        for label in labels {
            self.push_reads(label, rows)?;
        }
        Ok(())
    }

    /// Adds the bits that the labels of a case read.
    #[tactic(auto, using(crate::proofs::Adding::reads_all_append))]
    pub(crate) fn push_labels(&self, items: &[CaseItem], rows: &mut Vec<Row>) -> Result<(), Memory>
        ensures { OnOk result (Adds (reads_all (width_in self.now.signals.now)
            (labels_of (branches_of items.now))) rows.old.items rows.new.items) }
    {
        for item in items {
            self.push_all(&item.labels, rows)?;
        }
        Ok(())
    }
}
