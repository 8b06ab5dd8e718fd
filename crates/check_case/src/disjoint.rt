// Items of a case that are shown disjoint.

ghost use Rattle.std.specs.Prelude.{◌≡◌, false, map, List, Some, OnOk, IfOk};
ghost use Rattle.std.specs.List.{list_any};
ghost use Rattle.rtl_bits.specs.declared.Bit.{Bit};
ghost use Rattle.rtl_bits.specs.Bits.{all_with, may_equal};
ghost use Rattle.rtl_flat.specs.Expression.{tree};
ghost use Rattle.rtl_flat.specs.Flows.{literal};
ghost use Rattle.check_parts.specs.rtl_scan.Bodies.{branches_of};
ghost use Rattle.check_parts.specs.rtl_scan.Values.{listed_of};
ghost use Rattle.check_case.specs.Cases.{all_disjoint};
ghost use Rattle.check_case.specs.Literals.{GetsSeen, GetsAllSeen, meets, overlap_in, overlap_tree, overlap_some};

use check_parts::rtl_scan::values::{insert_number, literal_of};
use rtl_bits::{Bit, Vec4};
use rtl_flat::act::CaseItem;
use rtl_flat::expr::SizedExpr;
use std::alloc::Global;
use std::collections::BTreeSet;
use text_ground::memory::Memory;

/// Whether two bits may be the same.
fn may_equal_bit(one: Bit, other: Bit) -> bool
    ensures { result ≡ may_equal one other }
{
    match one {
        Bit::Zero => !matches!(other, Bit::One),
        Bit::One => !matches!(other, Bit::Zero),
        Bit::X => true,
        Bit::Z => true,
    }
}

/// Whether no bit is 0 in one and 1 in the other.
fn may_equal(one: Vec4, other: Vec4) -> bool
    ensures { result ≡ all_with may_equal one other }
{
    if one.width() == other.width() {
        return one.matches_x(other);
    }
    for at in 0..one.width().min(other.width()) {
        if !may_equal_bit(one.bit(at), other.bit(at)) {
            return false;
        }
    }
    true
}

fn any_may_equal(labels: &[Vec4], bits: Vec4) -> bool
    ensures { result ≡ list_any (λ label. all_with may_equal label bits) labels.now }
{
    for label in labels {
        if may_equal(*label, bits) {
            return true;
        }
    }
    false
}

/// The labels of the items before one.
#[derive(Drop)]
struct Seen {
    /// The width by which labels are sorted.
    width: u8,
    /// There is one.
    some: bool,
    /// One isn't a literal.
    strange: bool,
    /// Those that are literals.
    literals: Vec<Vec4>,
    /// Of these, those of the width without x and z, by their numbers: they differ from each other
    /// where their numbers do.
    numbers: BTreeSet<u128>,
    /// The other literals.
    others: Vec<Vec4>,
}

impl Seen {
    fn new(alloc: Global, width: u8) -> Seen
        ensures { (y : List (List Bit)) → overlap_in result y ≡ false }
    {
        Seen {
            width,
            some: false,
            strange: false,
            literals: Vec::new(alloc),
            numbers: BTreeSet::new(alloc),
            others: Vec::new(alloc),
        }
    }

    /// Whether a literal isn't shown disjoint from one of the literals.
    fn meets(&self, bits: Vec4) -> bool
        ensures { result ≡ meets self.now bits }
    {
        if bits.width() == self.width && bits.is_known() {
            return self.numbers.contains(&bits.number()) || any_may_equal(&self.others, bits);
        }
        any_may_equal(&self.literals, bits)
    }

    /// Whether a label isn't shown disjoint from one of them.
    fn overlaps(&self, label: &SizedExpr) -> bool
        ensures { result ≡ overlap_tree self.now (tree label.now) }
    {
        match literal_of(label) {
            None => self.some,
            Some(bits) => self.strange || self.meets(bits),
        }
    }

    fn overlaps_some(&self, labels: &[SizedExpr]) -> bool
        ensures { result ≡ overlap_some self.now (map tree labels.now) }
    {
        for label in labels {
            if self.overlaps(label) {
                return true;
            }
        }
        false
    }

    fn add_literal(&mut self, bits: Vec4) -> Result<(), Memory>
        ensures { OnOk result (GetsSeen (listed_of (Some bits)) self.old self.new) }
    {
        self.some = true;
        self.literals.push(bits)?;
        if bits.width() == self.width && bits.is_known() {
            return insert_number(&mut self.numbers, bits.number());
        }
        self.others.push(bits)?;
        Ok(())
    }

    fn add(&mut self, label: &SizedExpr) -> Result<(), Memory>
        ensures { OnOk result (GetsSeen (literal (tree label.now)) self.old self.new) }
    {
        match literal_of(label) {
            Some(bits) => self.add_literal(bits),
            None => {
                self.some = true;
                self.strange = true;
                Ok(())
            }
        }
    }

    fn add_all(&mut self, labels: &[SizedExpr]) -> Result<(), Memory>
        ensures { OnOk result (GetsAllSeen (map tree labels.now) self.old self.new) }
    {
        for label in labels {
            self.add(label)?;
        }
        Ok(())
    }
}

/// Whether all items of a case are shown disjoint, its labels sorted by a width.
pub(crate) fn are_disjoint(alloc: Global, width: u8, items: &[CaseItem]) -> Result<bool, Memory>
    ensures { IfOk result (λ disjoint. disjoint ≡ all_disjoint (branches_of items.now)) }
{
    let mut seen = Seen::new(alloc, width);
    for item in items {
        if seen.overlaps_some(&item.labels) {
            return Ok(false);
        }
        seen.add_all(&item.labels)?;
    }
    Ok(true)
}
