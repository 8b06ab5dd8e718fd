// Tests of resets.

ghost use Rattle.std.specs.Prelude.{◌≡◌, ◌==◌};
ghost use Rattle.std.specs.Option.{option_map};
ghost use Rattle.rtl_flat.specs.Expression.{tree};
ghost use Rattle.rtl_flat.specs.Flats.{flat};
ghost use Rattle.rtl_flat.specs.Sizing.{signed_in};
ghost use Rattle.check_chains.specs.Chains as spec;
ghost use Rattle.check_chains.specs.Inner.{compared_with, complement_test, level_test, test_view, whole_of};

use rtl_bits::Vec4;
use rtl_flat::design::Design;
use rtl_flat::expr::{Compare, Fold, Node, Select, SigId, SizedExpr, Turn};
use rtl_flat::signal::Signal;

/// A test of a reset: its signal, and the level at which it holds.
#[derive(Clone, Copy)]
pub struct Test {
    pub signal: SigId,
    pub level: bool,
}

/// The signal that an expression is, as it stands.
fn whole_of(e: &SizedExpr) -> Option<SigId>
    ensures { option_map (λ s. s.0) result ≡ whole_of (tree e.now) }
{
    match &e.node {
        Node::Read(signal, select) => match select {
            Select::Whole => Some(*signal),
            Select::Bit { low: _, index: _ } => None,
            Select::Part { low: _, width: _ } => None,
        },
        _ => None,
    }
}

fn is_signed(signals: &[Signal], signal: SigId) -> bool
    ensures { result ≡ signed_in signals.now signal.0 }
{
    match signals.get(signal.0 as usize) {
        Some(signal) => signal.signed,
        None => false,
    }
}

/// The test of a signal by `==` with a literal, where the comparison isn't signed, and a signed signal has no wider one.
fn compared(signed: bool, own: bool, signal: SigId, bits: Vec4) -> Option<Test>
    ensures { option_map test_view result ≡ spec.compared signed own signal.0 bits }
{
    if signed || (own && bits.width() != 1) || !bits.is_known() {
        return None;
    }
    match bits.number() {
        1 => Some(Test {
            signal,
            level: true,
        }),
        0 => Some(Test {
            signal,
            level: false,
        }),
        _ => None,
    }
}

/// The test of an expression by `==` with another.
fn compared_with(design: &Design, e: &SizedExpr, other: &SizedExpr) -> Option<Test>
    ensures { option_map test_view result
        ≡ compared_with (flat design.now) (tree e.now) (tree other.now) }
{
    let signal = whole_of(e)?;
    match &other.node {
        Node::Literal(bits) => {
            let own = is_signed(&design.signals, signal);
            compared(e.signed, own, signal, *bits)
        }
        _ => None,
    }
}

fn test_of(e: &SizedExpr, level: bool) -> Option<Test>
    ensures { option_map test_view result ≡ level_test level (whole_of (tree e.now)) }
{
    let signal = whole_of(e)?;
    Some(Test { signal, level })
}

/// The test of a signal of one bit by `~`: of more bits some are true at either level.
fn complemented(a: &SizedExpr) -> Option<Test>
    ensures { option_map test_view result ≡ complement_test a.now.width (whole_of (tree a.now)) }
{
    if a.width != 1 {
        return None;
    }
    test_of(a, false)
}

/// What an expression tests: `r`, `!r`, `~r`, `r == 1'b1` or `r == 1'b0`.
pub fn tested(design: &Design, e: &SizedExpr) -> Option<Test>
    ensures { option_map test_view result ≡ spec.tested (flat design.now) (tree e.now) }
{
    match &e.node {
        Node::Read(_, _) => test_of(e, true),
        Node::Folded(operator, a) => match operator {
            Fold::Negation => test_of(a, false),
            _ => None,
        },
        Node::Turned(operator, a) => match operator {
            Turn::Complement => complemented(a),
            _ => None,
        },
        Node::Compared(operator, a, b) => match operator {
            Compare::Equal => compared_with(design, a, b),
            _ => None,
        },
        Node::Literal(_) => None,
        Node::Joined(..) => None,
        Node::Linked(..) => None,
        Node::Shifted(..) => None,
        Node::Chosen(..) => None,
        Node::Concat(_) => None,
        Node::Repeated(..) => None,
        Node::Recast(_) => None,
    }
}
