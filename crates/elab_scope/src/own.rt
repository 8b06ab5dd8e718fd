//! The width and the sign that an expression has by itself.

ghost use Rattle.std.specs.Prelude.{◌≡◌, map};
ghost use Rattle.rtl_tree.specs.TreeExpr.{formula, formula_row};
ghost use Rattle.elab_scope.specs.Names.{meanings};
ghost use Rattle.elab_scope.specs.Own.{breadth, function_breadth, is_signed, name_breadth, name_sign, part_breadth, row_breadth, sign};

use crate::known::Known;
use crate::names::Names;
use crate::operators::{Operation, Prefix, binary, unary};
use crate::selects::ends_of;
use crate::widths::{Breadth, breadth_of, field_of};
use rtl_const::evaluate::constant;
use rtl_const::fault::ConstFault;
use rtl_tree::tree::expr::Expr;
use rtl_tree::tree::operators::SystemFunction;

pub fn name_breadth(known: Option<Known>) -> Breadth
    ensures { result ≡ name_breadth known }
{
    match known {
        Some(
            Known::Signal {
                shape: Some(shape),
                ..
            },
        ) => breadth_of(u32::from(shape.width)),
        Some(Known::Parameter { width, .. }) => breadth_of(u32::from(width)),
        Some(Known::Integer(_)) => Breadth::Bits(32),
        None | Some(Known::Signal { shape: None, .. }) => Breadth::Hidden,
    }
}

pub fn part_breadth(
    known: Option<Known>,
    msb: Result<i64, ConstFault>,
    lsb: Result<i64, ConstFault>,
) -> Breadth
    ensures { result ≡ part_breadth known msb lsb }
{
    match (known, msb, lsb) {
        (
            Some(
                Known::Signal {
                    shape: Some(shape),
                    ..
                },
            ),
            Ok(msb),
            Ok(lsb),
        ) => {
            match field_of(shape, msb, lsb) {
                Some(field) => Breadth::Bits(field.width),
                None => Breadth::Hidden,
            }
        }
        _ => Breadth::Hidden,
    }
}

/// How many bits a function of the system gives.
pub fn function_breadth(function: SystemFunction, argument: Breadth) -> Breadth
    ensures { result ≡ function_breadth function argument }
{
    match function {
        SystemFunction::Signed | SystemFunction::Unsigned => argument,
        SystemFunction::Clog2 => Breadth::Bits(32),
    }
}

/// How many bits the expression has by itself.
#[cycle(own_breadth)]
#[tactic(auto, using(crate::proofs::Views::concat_breadth, crate::proofs::Views::repeat_breadth))]
pub fn breadth(e: &Expr, names: &Names) -> Breadth
    ensures { result ≡ breadth (meanings names.now) (formula e.now) }
{
    match e {
        Expr::Number(value, _) => breadth_of(u32::from(value.width)),
        Expr::Read(name) => name_breadth(names.find(&name.text)),
        Expr::ReadBit(_, _) => Breadth::Bits(1),
        Expr::ReadPart(name, kind, first, second) => {
            let ends = ends_of(*kind, first, second, names);
            part_breadth(names.find(&name.text), ends.msb, ends.lsb)
        }
        Expr::Parens(_, inner) => breadth(inner, names),
        Expr::Apply(function, _, inner) => function_breadth(*function, breadth(inner, names)),
        Expr::Concat(_, parts) => row_breadth(parts, names).fit(),
        Expr::Repeat(_, times, parts) => {
            row_breadth(parts, names)
                .fit()
                .repeated(constant(times, names))
        }
        Expr::Unary(operator, _, operand) => match unary(*operator) {
            Prefix::Turn(_) => breadth(operand, names),
            Prefix::Fold(_) => Breadth::Bits(1),
        },
        Expr::Binary(operator, _, left, right) => match binary(*operator) {
            Operation::Join(_) => breadth(left, names).wider(breadth(right, names)),
            Operation::Compare(_) | Operation::Link(_) => Breadth::Bits(1),
            Operation::Shift(_) | Operation::Power => breadth(left, names),
        },
        Expr::Choose(_, _, taken, otherwise) => {
            breadth(taken, names).wider(breadth(otherwise, names))
        }
    }
}

/// How many bits parts have beside one another.
#[cycle(own_breadth)]
#[tactic(auto, using(crate::proofs::Views::beside_beside, crate::proofs::Views::beside_none, crate::proofs::Views::row_alone))]
pub(crate) fn row_breadth(parts: &[Expr], names: &Names) -> Breadth
    ensures { result ≡ row_breadth (meanings names.now) (formula_row (map formula parts.now)) }
{
    let mut all = Breadth::Bits(0);
    for part in parts {
        all = all.beside(breadth(part, names));
    }
    all
}

pub fn name_sign(known: Option<Known>) -> bool
    ensures { result ≡ name_sign known }
{
    match known {
        Some(
            Known::Signal {
                shape: Some(shape),
                ..
            },
        ) => shape.signed,
        Some(Known::Parameter { signed, .. }) => signed,
        Some(Known::Integer(_)) => true,
        None | Some(Known::Signal { shape: None, .. }) => false,
    }
}

/// Whether what it gives is signed.
pub fn is_signed(function: SystemFunction) -> bool
    ensures { result ≡ is_signed function }
{
    match function {
        SystemFunction::Signed | SystemFunction::Clog2 => true,
        SystemFunction::Unsigned => false,
    }
}

/// Whether the expression is signed by itself.
pub fn sign(e: &Expr, names: &Names) -> bool
    ensures { result ≡ sign (meanings names.now) (formula e.now) }
{
    match e {
        Expr::Number(value, _) => value.signed,
        Expr::Read(name) => name_sign(names.find(&name.text)),
        Expr::Parens(_, inner) => sign(inner, names),
        Expr::Apply(function, _, _) => is_signed(*function),
        Expr::Unary(operator, _, operand) => match unary(*operator) {
            Prefix::Turn(_) => sign(operand, names),
            Prefix::Fold(_) => false,
        },
        Expr::Binary(operator, _, left, right) => match binary(*operator) {
            Operation::Join(_) => sign(left, names) && sign(right, names),
            Operation::Compare(_) | Operation::Link(_) => false,
            Operation::Shift(_) | Operation::Power => sign(left, names),
        },
        Expr::Choose(_, _, taken, otherwise) => sign(taken, names) && sign(otherwise, names),
        Expr::ReadBit(_, _)
        | Expr::ReadPart(_, _, _, _)
        | Expr::Concat(_, _)
        | Expr::Repeat(_, _, _) => false,
    }
}
