//! Arguments whose value doesn't hang on whether the port's width is a context of theirs.

ghost use Rattle.std.specs.Prelude.{◌≡◌};
ghost use Rattle.rtl_tree.specs.TreeExpr.{formula};
ghost use Rattle.elab_readings.specs.Steady.{goes_right, is_signed_whole, keeps_width, same_sign, steady, within};
ghost use Rattle.elab_uses.specs.elab_scope.Names.{meanings};

use elab_uses::elab_scope::known::Known;
use elab_uses::elab_scope::names::Names;
use elab_uses::elab_scope::operators::{Operation, Prefix, binary, unary};
use elab_uses::elab_scope::own::{breadth, is_signed, sign};
use elab_uses::elab_scope::widths::Breadth;
use rtl_flat::expr::{Join, Shift, Turn};
use rtl_tree::tree::expr::Expr;
use rtl_tree::tree::operators::SystemFunction;

fn keeps_width(operator: Join) -> bool
    ensures { result ≡ keeps_width operator }
{
    match operator {
        Join::And | Join::Or | Join::Xor | Join::Divide | Join::Remainder => true,
        Join::Add | Join::Subtract | Join::Multiply | Join::Xnor => false,
    }
}

fn goes_right(operator: Shift) -> bool
    ensures { result ≡ goes_right operator }
{
    match operator {
        Shift::Right | Shift::ArithmeticRight => true,
        Shift::Left => false,
    }
}

/// Whether an operand that is extended by zeros has no bits above its own, by its operators alone.
fn within(e: &Expr) -> bool
    ensures { result ≡ within (formula e.now) }
{
    match e {
        Expr::Number(_, _)
        | Expr::Read(_)
        | Expr::ReadBit(_, _)
        | Expr::ReadPart(_, _, _, _)
        | Expr::Apply(_, _, _)
        | Expr::Concat(_, _)
        | Expr::Repeat(_, _, _) => true,
        Expr::Parens(_, inner) => within(inner),
        Expr::Unary(operator, _, _) => match unary(*operator) {
            Prefix::Turn(_) => false,
            Prefix::Fold(_) => true,
        },
        Expr::Binary(operator, _, left, right) => match binary(*operator) {
            Operation::Join(operator) => keeps_width(operator) && within(left) && within(right),
            Operation::Compare(_) | Operation::Link(_) | Operation::Power => true,
            Operation::Shift(operator) => goes_right(operator) && within(left),
        },
        Expr::Choose(_, _, taken, otherwise) => within(taken) && within(otherwise),
    }
}

/// Whether a part of so many bits is all of a signed signal.
fn is_signed_whole(known: Option<Known>, own: Breadth) -> bool
    ensures { result ≡ is_signed_whole known own }
{
    match (known, own) {
        (
            Some(
                Known::Signal {
                    shape: Some(shape),
                    ..
                },
            ),
            Breadth::Bits(width),
        ) => shape.signed && width == shape.width,
        _ => false,
    }
}

fn same_sign(a: bool, b: bool) -> bool
    ensures { result ≡ same_sign a b }
{
    if a { b } else { !b }
}

/// Whether an argument has the same value in the context of a wider port as by itself, extended by its own sign.
pub fn steady(e: &Expr, names: &Names) -> bool
    ensures { result ≡ steady (meanings names.now) (formula e.now) }
{
    match e {
        Expr::Number(_, _)
        | Expr::Read(_)
        | Expr::ReadBit(_, _)
        | Expr::Concat(_, _)
        | Expr::Repeat(_, _, _) => true,
        Expr::ReadPart(name, _, _, _) => {
            !is_signed_whole(names.find(&name.text), breadth(e, names))
        }
        Expr::Parens(_, inner) => steady(inner, names),
        Expr::Apply(function, _, inner) => match function {
            SystemFunction::Signed | SystemFunction::Unsigned => {
                same_sign(is_signed(*function), sign(inner, names)) && steady(inner, names)
            }
            SystemFunction::Clog2 => true,
        },
        Expr::Unary(operator, _, operand) => match unary(*operator) {
            Prefix::Turn(Turn::Plus) => steady(operand, names),
            Prefix::Turn(_) => false,
            Prefix::Fold(_) => true,
        },
        Expr::Binary(operator, _, _, _) => match binary(*operator) {
            Operation::Power => true,
            _ => within(e) && !sign(e, names),
        },
        Expr::Choose(_, _, _, _) => within(e) && !sign(e, names),
    }
}
