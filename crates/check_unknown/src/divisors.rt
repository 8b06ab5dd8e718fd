// Divisors that aren't a constant power of two.

ghost use Rattle.std.specs.Prelude.{◌≡◌, ◌<◌, ◌++◌, map, length, Some, IfOk, OnOk};
ghost use Rattle.std.specs.List.{slice_get};
ghost use Rattle.rtl_bits.specs.Bit.{is_one};
ghost use Rattle.rtl_bits.specs.Bits.{top_bit};
ghost use Rattle.rtl_flat.specs.Expression.{tree};
ghost use Rattle.rtl_flat.specs.Process.{Task};
ghost use Rattle.rtl_rule.specs.declared.rule.Rule.TheVariants.{DivideVariable};
ghost use Rattle.rtl_flat.specs.Flats.{flat, widths};
ghost use Rattle.rtl_flat.specs.Sizes.{IsSized};
ghost use Rattle.check_chains.specs.check_parts.Reads.{AreUnknowns};
ghost use Rattle.check_unknown.specs.Lists.{AreNodes, is_division, nodes_found};
ghost use Rattle.check_unknown.specs.Unknowns.{divides_by_other, has_one, is_power};

use crate::places::push_all;
use check_chains::check_parts::reads::constant_of;
use rtl_bits::{Bit, Vec4};
use rtl_flat::act::ProcId;
use rtl_flat::design::Design;
use rtl_flat::expr::{Join, Node, SizedExpr};
use rtl_rule::finding::Finding;
use rtl_rule::rule::Rule;
use std::alloc::Global;
use text_ground::memory::Memory;

/// Whether bits are known and just one of them is 1.
fn has_one(bits: Vec4) -> bool
    ensures { result ≡ has_one bits }
{
    let mut some = false;
    for at in 0..bits.width() {
        match bits.bit(at) {
            Bit::Zero => {}
            Bit::One => {
                if some {
                    return false;
                }
                some = true;
            }
            Bit::X | Bit::Z => return false,
        }
    }
    some
}

/// Whether the highest bit is 1.
fn has_top(bits: Vec4) -> bool
    ensures { result ≡ is_one (top_bit bits) }
{
    match bits.bit(bits.width() - 1) {
        Bit::One => true,
        Bit::Zero | Bit::X | Bit::Z => false,
    }
}

/// Whether a divisor is a constant and a power of two, which a negative number isn't.
fn is_power(signed: bool, divisor: Option<Vec4>) -> bool
    ensures { result ≡ is_power signed divisor }
{
    match divisor {
        None => false,
        Some(bits) => has_one(bits) && !(signed && has_top(bits)),
    }
}

/// Whether an operator divides.
fn is_division(operator: Join) -> bool
    ensures { result ≡ is_division operator }
{
    match operator {
        Join::Divide | Join::Remainder => true,
        _ => false,
    }
}

/// Whether an expression divides by anything but a constant power of two, given all signals with
/// every bit x.
fn divides_by_other(
    alloc: Global,
    design: &Design,
    unknowns: &[Vec4],
    e: &SizedExpr,
) -> Result<bool, Memory>
    requires unknown { AreUnknowns (flat design.now) unknowns.now }
    requires sized { let d = flat design.now in
        IsSized (length d.signals) (widths d) (tree e.now) }
    ensures { IfOk result (λ is. is ≡ divides_by_other (flat design.now) (tree e.now)) }
{
    match &e.node {
        Node::Joined(operator, a, b) => {
            if !is_division(*operator) {
                return Ok(false);
            }
            let divisor = constant_of(alloc, design, unknowns, b)?;
            Ok(!is_power(a.signed, divisor))
        }
        _ => Ok(false),
    }
}

/// Adds the findings of divisions among all expressions of a process.
pub(crate) fn push_divisions(
    alloc: Global,
    design: &Design,
    unknowns: &[Vec4],
    p: ProcId,
    all: &[&SizedExpr],
    found: &mut Vec<Finding>,
) -> Result<(), Memory>
    requires unknown { AreUnknowns (flat design.now) unknowns.now }
    requires there { p.0 < length design.now.processes.items }
    requires all { AreNodes (flat design.now) p.0 (map (λ e. tree e.now) all.now) }
    ensures { OnOk result ((task : Task) → slice_get (flat design.now).tasks p.0 ≡ Some task
        → found.new.items ≡ found.old.items ++ nodes_found DivideVariable
        (divides_by_other (flat design.now)) (flat design.now) task) }
{
    let mut spots = Vec::new(alloc);
    for e in all {
        if divides_by_other(alloc, design, unknowns, e)? {
            spots.push(e.spot)?;
        }
    }
    push_all(alloc, design, p, Rule::DivideVariable, &spots, found)
}
