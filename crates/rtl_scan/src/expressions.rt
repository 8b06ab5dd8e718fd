// The bits that expressions read.

ghost use Rattle.std.specs.Prelude.{map, OnOk};
ghost use Rattle.rtl_flat.specs.Signs.{width_in};
ghost use Rattle.rtl_flat.specs.Expression.{tree, form, read, beside};
ghost use Rattle.rtl_flat.specs.Flows.{reads};
ghost use Rattle.rtl_scan.specs.Sets.{has_row, Adds};

use crate::bits::Row;
use crate::spans::Widths;
use rtl_flat::expr::{Index, Node, Select, SigId, SizedExpr};
use text_ground::memory::Memory;

impl<'d> Widths<'d> {
    /// Adds the bits that an expression reads.
    #[cycle(reads)]
    pub(crate) fn push_reads(&self, e: &SizedExpr, rows: &mut Vec<Row>) -> Result<(), Memory>
        ensures { OnOk result (Adds (reads (width_in self.now.signals.now) (tree e.now))
            rows.old.items rows.new.items) }
    {
        self.push_node(&e.node, rows)
    }

    #[cycle(reads)]
    #[tactic(auto, using(crate::proofs::Adding::adds_then, crate::proofs::Adding::adds_none, crate::proofs::Parts::concat_parts))]
    fn push_node(&self, node: &Node, rows: &mut Vec<Row>) -> Result<(), Memory>
        ensures { OnOk result (Adds (reads (width_in self.now.signals.now) (form node.now))
            rows.old.items rows.new.items) }
    {
        match node {
            Node::Literal(_) => Ok(()),
            Node::Read(signal, select) => self.push_select(*signal, select, rows),
            Node::Turned(_, a) => self.push_reads(a, rows),
            Node::Joined(_, a, b) => {
                self.push_reads(a, rows)?;
                self.push_reads(b, rows)
            }
            Node::Compared(_, a, b) => {
                self.push_reads(a, rows)?;
                self.push_reads(b, rows)
            }
            Node::Linked(_, a, b) => {
                self.push_reads(a, rows)?;
                self.push_reads(b, rows)
            }
            Node::Folded(_, a) => self.push_reads(a, rows),
            Node::Shifted(_, a, amount) => {
                self.push_reads(a, rows)?;
                self.push_reads(amount, rows)
            }
            Node::Chosen(condition, taken, otherwise) => {
                self.push_reads(condition, rows)?;
                self.push_reads(taken, rows)?;
                self.push_reads(otherwise, rows)
            }
            Node::Concat(parts) => self.push_parts(parts, rows),
            Node::Repeated(_, a) => self.push_reads(a, rows),
            Node::Recast(a) => self.push_reads(a, rows),
        }
    }

    #[cycle(reads)]
    #[tactic(auto, using(crate::proofs::Adding::adds_then))]
    fn push_select(&self, signal: SigId, select: &Select, rows: &mut Vec<Row>) -> Result<(), Memory>
        ensures { OnOk result (Adds (reads (width_in self.now.signals.now)
            (read signal.0 select.now)) rows.old.items rows.new.items) }
    {
        match select {
            Select::Whole => push_row(rows, self.all(signal)),
            Select::Bit { low, index } => match index {
                Index::Fixed(index) => push_row(rows, self.bit(signal, *low, *index)),
                Index::Computed(index) => {
                    self.push_reads(index, rows)?;
                    push_row(rows, self.all(signal))
                }
            },
            Select::Part { low, width } => {
                let high = u16::from(*low) + u16::from(*width);
                push_row(rows, self.span(signal, *low, high))
            }
        }
    }

    /// Adds the bits that the parts of a concatenation read.
    #[cycle(reads)]
    #[tactic(auto, using(crate::proofs::Adding::adds_then))]
    fn push_parts(&self, parts: &[SizedExpr], rows: &mut Vec<Row>) -> Result<(), Memory>
        ensures { OnOk result (Adds (reads (width_in self.now.signals.now)
            (beside (map tree parts.now))) rows.old.items rows.new.items) }
    {
        for part in parts {
            self.push_reads(part, rows)?;
        }
        Ok(())
    }
}

#[tactic(auto, using(crate::proofs::Adding::adds_row))]
pub(crate) fn push_row(rows: &mut Vec<Row>, row: Row) -> Result<(), Memory>
    ensures { OnOk result (Adds (has_row row) rows.old.items rows.new.items) }
{
    rows.push(row)?;
    Ok(())
}
