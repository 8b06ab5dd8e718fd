// Cases that are complete by their labels.

ghost use Rattle.std.specs.Prelude.{ℕ, ◌≡◌, ◌++◌, min, map, OnOk, IfOk, length};
ghost use Rattle.std.specs.List.{list_any, list_all};
ghost use Rattle.rtl_flat.specs.Signs.{width_in};
ghost use Rattle.rtl_flat.specs.Sizes.{width_of};
ghost use Rattle.rtl_flat.specs.Expression.{tree, form, read, beside};
ghost use Rattle.rtl_flat.specs.Flows.{literal, literals, labels_of, is_wild, cover, covers, complete_by_labels, is_complete};
ghost use Rattle.rtl_scan.specs.Bodies.{branches_of};

use crate::sets::widths_of;
use crate::spans::Widths;
use crate::values::{Labels, literal_of};
use rtl_bits::{Bit, Vec4};
use rtl_flat::act::{CaseItem, CaseKind};
use rtl_flat::design::Design;
use rtl_flat::expr::{Index, Node, Select, SigId, SizedExpr};
use std::alloc::Global;
use text_ground::memory::Memory;

/// Adds a label if it is a literal.
fn push_literal(label: &SizedExpr, found: &mut Vec<Vec4>) -> Result<(), Memory>
    ensures { OnOk result (found.new.items ≡ found.old.items ++ literal (tree label.now)) }
{
    if let Some(bits) = literal_of(label) {
        found.push(bits)?;
    }
    Ok(())
}

/// Adds the literals among some labels.
#[tactic(auto, using(std::proofs::lemmas::List::append_assoc))]
fn push_literals(labels: &[SizedExpr], found: &mut Vec<Vec4>) -> Result<(), Memory>
    ensures { OnOk result (found.new.items ≡ found.old.items ++ literals (map tree labels.now)) }
{
    for label in labels {
        push_literal(label, found)?;
    }
    Ok(())
}

/// The literals among the labels of a case.
#[tactic(auto, using(std::proofs::lemmas::List::append_assoc, crate::proofs::Covers::literals_append))]
fn literal_labels(alloc: Global, items: &[CaseItem]) -> Result<Vec<Vec4>, Memory>
    ensures { IfOk result (λ found. found.items ≡ literals (labels_of (branches_of items.now))) }
{
    let mut found = Vec::new(alloc);
    for item in items {
        push_literals(&item.labels, &mut found)?;
    }
    Ok(found)
}

/// Whether a bit of a label matches any bit.
fn is_wild_bit(kind: CaseKind, bit: Bit) -> bool
    ensures { result ≡ is_wild kind bit }
{
    match kind {
        CaseKind::Plain => false,
        CaseKind::Z => matches!(bit, Bit::Z),
        CaseKind::X => matches!(bit, Bit::X | Bit::Z),
    }
}

/// Whether a label matches anything.
fn is_wild_label(kind: CaseKind, label: Vec4) -> bool
    ensures { result ≡ list_all (is_wild kind) label }
{
    for at in 0..label.width() {
        if !is_wild_bit(kind, label.bit(at)) {
            return false;
        }
    }
    true
}

fn any_wild(kind: CaseKind, labels: &[Vec4]) -> bool
    ensures { result ≡ list_any (list_all (is_wild kind)) labels.now }
{
    for label in labels {
        if is_wild_label(kind, *label) {
            return true;
        }
    }
    false
}

/// Whether labels match each value of `own` bits, extended to a width.
fn do_cover(
    alloc: Global,
    kind: CaseKind,
    own: u8,
    width: u8,
    signed: bool,
    labels: &[Vec4],
) -> Result<bool, Memory>
    ensures { IfOk result (λ complete. complete ≡ cover kind own width signed labels.now) }
{
    if own < 1 || own > 16 || own > width || width > 128 {
        return Ok(false);
    }
    let labels = Labels::sorted(alloc, width, labels)?;
    Ok(labels.match_all(kind, own, width, signed))
}

impl<'d> Widths<'d> {
    /// The width of a form of expression by itself, or 17 where it is more than 16.
    #[tactic(auto, using(crate::proofs::Parts::concat_parts))]
    fn own_width(&self, node: &Node) -> u8
        ensures { result ≡ min (width_of (width_in self.now.signals.now) (form node.now)) 17 }
    {
        match node {
            Node::Literal(bits) => bits.width().min(17),
            Node::Read(signal, select) => self.read_width(*signal, select),
            Node::Turned(_, a) => a.width.min(17),
            Node::Joined(_, a, _) => a.width.min(17),
            Node::Compared(_, _, _) => 1,
            Node::Linked(_, _, _) => 1,
            Node::Folded(_, _) => 1,
            Node::Shifted(_, a, _) => a.width.min(17),
            Node::Chosen(_, a, _) => a.width.min(17),
            Node::Concat(parts) => parts_width(parts),
            Node::Repeated(times, a) => (u64::from(*times) * u64::from(a.width)).min(17) as u8,
            Node::Recast(a) => a.width.min(17),
        }
    }

    fn read_width(&self, signal: SigId, select: &Select) -> u8
        ensures { result ≡ min (width_of (width_in self.now.signals.now) (read signal.0 select.now))
            17 }
    {
        match select {
            Select::Whole => self.width(signal).min(17),
            Select::Bit { low: _, index } => match index {
                Index::Fixed(_) => 1,
                Index::Computed(_) => 1,
            },
            Select::Part { low: _, width } => (*width).min(17),
        }
    }
}

/// The width of the parts of a concatenation together, or 17 where it is more than 16.
fn parts_width(parts: &[SizedExpr]) -> u8
    ensures { (ws : ℕ → ℕ) → result ≡ min (width_of ws (beside (map tree parts.now))) 17 }
{
    let mut width = 0;
    for part in parts {
        width = (width + part.width.min(17)).min(17);
    }
    width
}

/// Whether some item of a case without `default` surely runs.
pub(crate) fn is_complete(
    alloc: Global,
    widths: &Widths,
    kind: CaseKind,
    full: bool,
    selector: &SizedExpr,
    items: &[CaseItem],
) -> Result<bool, Memory>
    ensures { IfOk result (λ complete. complete
        ≡ is_complete (width_in widths.now.signals.now) kind full (tree selector.now)
        (branches_of items.now)) }
{
    if full {
        return Ok(true);
    }
    by_labels(alloc, widths, kind, selector, items)
}

/// Whether the labels of a case make it complete: one matches every value of the selector, or together
/// they do. Fails where memory runs out.
pub fn is_complete_by_labels(
    alloc: Global,
    d: &Design,
    kind: CaseKind,
    selector: &SizedExpr,
    items: &[CaseItem],
) -> Result<bool, Memory>
    ensures { let ws = width_in d.now.signals.items in IfOk result (λ complete.
        complete ≡ complete_by_labels ws kind (tree selector.now) (branches_of items.now)) }
{
    by_labels(alloc, &widths_of(d), kind, selector, items)
}

fn by_labels(
    alloc: Global,
    widths: &Widths,
    kind: CaseKind,
    selector: &SizedExpr,
    items: &[CaseItem],
) -> Result<bool, Memory>
    ensures { IfOk result (λ complete. complete
        ≡ complete_by_labels (width_in widths.now.signals.now) kind (tree selector.now)
        (branches_of items.now)) }
{
    let labels = literal_labels(alloc, items)?;
    if any_wild(kind, &labels) {
        return Ok(true);
    }
    widths.is_covered(alloc, kind, selector, &labels)
}

impl<'d> Widths<'d> {
    /// Whether labels match every value over which a selector ranges.
    #[tactic(auto, using(crate::proofs::Covers::cover_capped))]
    fn is_covered(
        &self,
        alloc: Global,
        kind: CaseKind,
        selector: &SizedExpr,
        labels: &[Vec4],
    ) -> Result<bool, Memory>
        ensures { IfOk result (λ complete. complete
            ≡ covers (width_in self.now.signals.now) kind (tree selector.now) labels.now) }
    {
        let own = self.own_width(&selector.node);
        do_cover(alloc, kind, own, selector.width, selector.signed, labels)
    }
}
