//! Expressions that are sized otherwise where parameters have their standard formats.

ghost use Rattle.std.specs.Prelude.{◌≡◌, ◌≤◌, map};
ghost use Rattle.rtl_tree.specs.TreeExpr.{formula, formula_row};
ghost use Rattle.elab_walk.specs.elab_scope.Operators.{prefix};
ghost use Rattle.elab_walk.specs.elab_scope.Trees.{left_context, operand_context, own_context, right_context};
ghost use Rattle.elab_standard.specs.Differing.{argument_differs, context_differs, differs, literal_differs, row_differs, same_sign};
ghost use Rattle.elab_standard.specs.Scopes.{restated, scopes};

use crate::contexts::{left_context, operand_context, own_context, right_context};
use crate::literals::{named_bits, read_bits};
use crate::scopes::{By, Scopes};
use crate::standard::Standard;
use elab_walk::elab_scope::context::Context;
use elab_walk::elab_scope::known::Known;
use elab_walk::elab_scope::operators::{Operation, binary, unary};
use rtl_tree::tree::expr::Expr;
use rtl_tree::tree::names::Name;
use rtl_tree::tree::operators::{SystemFunction, UnaryOperator};

pub(crate) fn same_sign(a: bool, b: bool) -> bool
    ensures { result ≡ same_sign a b }
{
    if a { b } else { !b }
}

fn context_differs(desk: Context, standard: Context) -> bool
    ensures { result ≡ context_differs desk standard }
{
    !(desk.width == standard.width && same_sign(desk.signed, standard.signed))
}

/// Whether a parameter has other bits in a context.
fn literal_differs(context: Context, known: Option<Known>, standard: Option<Standard>) -> bool
    requires not_empty { 1 ≤ context.width }
    requires at_most { context.width ≤ 128 }
    ensures { result ≡ literal_differs context known standard }
{
    let desk = named_bits(known).extend(context.width, context.signed);
    let standard = read_bits(known, standard).extend(context.width, context.signed);
    !desk.matches(standard)
}

/// The context of an operand by the desk, and by the standard.
#[derive(Clone, Copy)]
struct Contexts {
    desk: Context,
    standard: Context,
}

/// Those of an operand before its operator.
fn left_contexts(
    operator: Operation,
    a: &Expr,
    b: &Expr,
    desk: Context,
    standard: Context,
    kept: &Scopes,
) -> Contexts
    requires desk_not_empty { 1 ≤ desk.width }
    requires desk_at_most { desk.width ≤ 128 }
    requires not_empty { 1 ≤ standard.width }
    requires at_most { standard.width ≤ 128 }
    ensures desk { result.desk ≡ left_context (scopes kept.now).scope operator (formula a.now)
        (formula b.now) desk }
    ensures standard { result.standard ≡ left_context (restated (scopes kept.now)) operator
        (formula a.now) (formula b.now) standard }
    ensures desk_not_empty { 1 ≤ result.desk.width }
    ensures desk_at_most { result.desk.width ≤ 128 }
    ensures not_empty { 1 ≤ result.standard.width }
    ensures at_most { result.standard.width ≤ 128 }
{
    Contexts {
        desk: left_context(operator, a, b, desk, kept, By::Desk),
        standard: left_context(operator, a, b, standard, kept, By::Standard),
    }
}

/// Those of the second operand.
fn right_contexts(
    operator: Operation,
    a: &Expr,
    b: &Expr,
    desk: Context,
    standard: Context,
    kept: &Scopes,
) -> Contexts
    requires desk_not_empty { 1 ≤ desk.width }
    requires desk_at_most { desk.width ≤ 128 }
    requires not_empty { 1 ≤ standard.width }
    requires at_most { standard.width ≤ 128 }
    ensures desk { result.desk ≡ right_context (scopes kept.now).scope operator (formula a.now)
        (formula b.now) desk }
    ensures standard { result.standard ≡ right_context (restated (scopes kept.now)) operator
        (formula a.now) (formula b.now) standard }
    ensures desk_not_empty { 1 ≤ result.desk.width }
    ensures desk_at_most { result.desk.width ≤ 128 }
    ensures not_empty { 1 ≤ result.standard.width }
    ensures at_most { result.standard.width ≤ 128 }
{
    Contexts {
        desk: right_context(operator, a, b, desk, kept, By::Desk),
        standard: right_context(operator, a, b, standard, kept, By::Standard),
    }
}

/// Whether a node of an expression has another width, sign or literal in the desk's context than in the standard's.
#[cycle(differing)]
#[tactic(auto, using(crate::proofs::Views::concat_differs, crate::proofs::Views::repeat_differs))]
pub(crate) fn differs(e: &Expr, desk: Context, standard: Context, kept: &Scopes) -> bool
    requires desk_not_empty { 1 ≤ desk.width }
    requires desk_at_most { desk.width ≤ 128 }
    requires not_empty { 1 ≤ standard.width }
    requires at_most { standard.width ≤ 128 }
    ensures { result ≡ differs (scopes kept.now) (formula e.now) desk standard }
{
    if let Expr::Parens(_, inner) = e {
        return differs(inner, desk, standard, kept);
    }
    if context_differs(desk, standard) {
        return true;
    }
    match e {
        Expr::Number(_, _) | Expr::ReadBit(_, _) | Expr::ReadPart(_, _, _, _) => false,
        Expr::Read(name) => name_differs(name, desk, kept),
        Expr::Parens(_, inner) => differs(inner, desk, standard, kept),
        Expr::Apply(function, _, inner) => argument_differs(*function, inner, kept),
        Expr::Concat(_, parts) | Expr::Repeat(_, _, parts) => row_differs(parts, kept),
        Expr::Unary(operator, _, a) => operand_differs(*operator, a, desk, standard, kept),
        Expr::Binary(operator, _, a, b) => {
            let operator = binary(*operator);
            if let Operation::Power = operator {
                return false;
            }
            let left = left_contexts(operator, a, b, desk, standard, kept);
            let right = right_contexts(operator, a, b, desk, standard, kept);
            differs(a, left.desk, left.standard, kept)
                || differs(b, right.desk, right.standard, kept)
        }
        Expr::Choose(_, condition, taken, otherwise) => {
            differs_alone(condition, kept)
                || differs(taken, desk, standard, kept)
                || differs(otherwise, desk, standard, kept)
        }
    }
}

/// Whether a name has other bits in a context.
fn name_differs(name: &Name, context: Context, kept: &Scopes) -> bool
    requires not_empty { 1 ≤ context.width }
    requires at_most { context.width ≤ 128 }
    ensures { result ≡ literal_differs context ((scopes kept.now).scope name.now.text)
        ((scopes kept.now).standards name.now.text) }
{
    let known = kept.names.find(&name.text);
    literal_differs(context, known, kept.standards.find(&name.text))
}

/// Of an expression that is sized by itself.
#[cycle(differing)]
fn differs_alone(e: &Expr, kept: &Scopes) -> bool
    ensures { let s = scopes kept.now in
        result ≡ differs s (formula e.now) (own_context s.scope (formula e.now))
        (own_context (restated s) (formula e.now)) }
{
    let desk = own_context(e, kept, By::Desk);
    differs(e, desk, own_context(e, kept, By::Standard), kept)
}

/// Of the argument of a function: that of `$clog2` is a constant.
#[cycle(differing)]
fn argument_differs(function: SystemFunction, e: &Expr, kept: &Scopes) -> bool
    ensures { let s = scopes kept.now in
        result ≡ argument_differs function (differs s (formula e.now)
        (own_context s.scope (formula e.now)) (own_context (restated s) (formula e.now))) }
{
    match function {
        SystemFunction::Signed | SystemFunction::Unsigned => differs_alone(e, kept),
        SystemFunction::Clog2 => false,
    }
}

/// Of the operand behind an operator.
#[cycle(differing)]
fn operand_differs(
    operator: UnaryOperator,
    a: &Expr,
    desk: Context,
    standard: Context,
    kept: &Scopes,
) -> bool
    requires desk_not_empty { 1 ≤ desk.width }
    requires desk_at_most { desk.width ≤ 128 }
    requires not_empty { 1 ≤ standard.width }
    requires at_most { standard.width ≤ 128 }
    ensures { let s = scopes kept.now in
        result ≡ differs s (formula a.now)
        (operand_context s.scope (prefix operator) (formula a.now) desk)
        (operand_context (restated s) (prefix operator) (formula a.now) standard) }
{
    let operator = unary(operator);
    let desk = operand_context(operator, a, desk, kept, By::Desk);
    let standard = operand_context(operator, a, standard, kept, By::Standard);
    differs(a, desk, standard, kept)
}

/// Of parts beside one another, each sized by itself.
#[cycle(differing)]
fn row_differs(parts: &[Expr], kept: &Scopes) -> bool
    ensures { result ≡ row_differs (scopes kept.now) (formula_row (map formula parts.now)) }
{
    for part in parts {
        if differs_alone(part, kept) {
            return true;
        }
    }
    false
}
