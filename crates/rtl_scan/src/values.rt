//! Labels of a case that are literals, and the values that they match.

ghost use Rattle.std.specs.Prelude.{ℕ, ◌≡◌, ◌≤◌, ◌^◌, ◌==◌, cond, true, false, OnOk, IfOk, length};
ghost use Rattle.std.specs.List.{list_any};
ghost use Rattle.std.specs.Ordering.{nat_cmp};
ghost use Rattle.std.specs.BTreeSet.{contains};
ghost use Rattle.rtl_bits.specs.Bits.{bits_of, extended, has_unknown};
ghost use Rattle.rtl_flat.specs.Expression.{tree};
ghost use Rattle.rtl_flat.specs.Flows.{literal, literal_matches, each_below};
ghost use Rattle.rtl_scan.specs.Values.{listed_of, matches_some, GetsLabel, AreSorted};

use rtl_bits::Vec4;
use rtl_expr::is_match;
use rtl_flat::act::CaseKind;
use rtl_flat::expr::{Node, SizedExpr};
use std::alloc::Global;
use std::collections::BTreeSet;
use text_ground::memory::Memory;

/// The bits of a label that is a literal.
pub fn literal_of(label: &SizedExpr) -> Option<Vec4>
    ensures { listed_of result ≡ literal (tree label.now) }
{
    match &label.node {
        Node::Literal(bits) => Some(*bits),
        _ => None,
    }
}

fn matches_one(kind: CaseKind, value: Vec4, label: Vec4) -> bool
    ensures { result ≡ literal_matches kind value label }
{
    value.width() == label.width() && is_match(kind, value, label)
}

/// Whether some label matches a value.
fn any_matches(kind: CaseKind, value: Vec4, labels: &[Vec4]) -> bool
    ensures { result ≡ list_any (literal_matches kind value) labels.now }
{
    for label in labels {
        if matches_one(kind, value, *label) {
            return true;
        }
    }
    false
}

/// Puts a number into a set. Fails where memory runs out.
pub fn insert_number(numbers: &mut BTreeSet<u128>, number: u128) -> Result<(), Memory>
    ensures { OnOk result ((n : ℕ)
        → contains nat_cmp numbers.new n
        ≡ cond (n == number) true (contains nat_cmp numbers.old n)) }
{
    numbers.insert(number)?;
    Ok(())
}

/// Labels of a case: those of a width without x and z by their numbers, each of which matches one
/// value, and the others.
#[derive(Drop)]
pub(crate) struct Labels {
    numbers: BTreeSet<u128>,
    others: Vec<Vec4>,
}

impl Labels {
    fn add(&mut self, width: u8, label: Vec4) -> Result<(), Memory>
        ensures { OnOk result (GetsLabel width label self.old self.new) }
    {
        if label.width() == width && label.is_known() {
            return insert_number(&mut self.numbers, label.number());
        }
        self.others.push(label)?;
        Ok(())
    }

    pub(crate) fn sorted(alloc: Global, width: u8, labels: &[Vec4]) -> Result<Labels, Memory>
        ensures { IfOk result (λ sorted. AreSorted width labels.now sorted) }
    {
        let mut sorted = Labels {
            numbers: BTreeSet::new(alloc),
            others: Vec::new(alloc),
        };
        for label in labels {
            sorted.add(width, *label)?;
        }
        Ok(sorted)
    }

    /// Whether one of them matches a value.
    fn match_one(&self, kind: CaseKind, value: Vec4) -> bool
        requires { has_unknown value ≡ false }
        ensures { result ≡ matches_some kind value self.now }
    {
        self.numbers.contains(&value.number()) || any_matches(kind, value, &self.others)
    }

    /// Whether they match each value of `own` bits, extended to a width.
    pub(crate) fn match_all(&self, kind: CaseKind, own: u8, width: u8, signed: bool) -> bool
        requires some { 1 ≤ own }
        requires fits { own ≤ width }
        requires few { own ≤ 16 }
        requires at_most { width ≤ 128 }
        ensures { result ≡ each_below (2 ^ own)
            (λ n. matches_some kind (extended width signed (bits_of own n)) self.now) }
    {
        for n in 0..1u128 << own {
            let value = Vec4::of_number(own, n).extend(width, signed);
            if !self.match_one(kind, value) {
                return false;
            }
        }
        true
    }
}
