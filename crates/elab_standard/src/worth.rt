//! What constant expressions are worth by the standard.

ghost use Rattle.std.specs.Prelude.{◌≡◌, ◌≤◌, length};
ghost use Rattle.rtl_tree.specs.TreeExpr.{Unary, formula};
ghost use Rattle.elab_standard.specs.Scopes.{read_bits, scopes};
ghost use Rattle.elab_standard.specs.Worth.{own_worth, taken_context, taken_worth, worth};

use crate::contexts::{left_context, operand_context, own_context, right_context};
use crate::literals::{literal, read_bits};
use crate::powers::{logarithm, raise};
use crate::scopes::{By, Scopes};
use elab_walk::elab_scope::context::Context;
use elab_walk::elab_scope::operators::{Operation, Prefix, binary, unary};
use rtl_bits::{Bit, Vec4};
use rtl_expr::operators::{choose, compare, fold, join, link, shift, turn};
use rtl_tree::tree::expr::Expr;
use rtl_tree::tree::names::Name;
use rtl_tree::tree::operators::{SystemFunction, UnaryOperator};

/// The bits of a constant expression in a context; x where it has no value. It takes no memory.
#[cycle(worth)]
pub(crate) fn worth(e: &Expr, context: Context, kept: &Scopes) -> Vec4
    requires not_empty { 1 ≤ context.width }
    requires at_most { context.width ≤ 128 }
    ensures bits { result ≡ worth (scopes kept.now) (formula e.now) context }
    ensures width { length result ≡ context.width }
{
    match e {
        Expr::Number(value, _) => literal(value, context),
        Expr::Read(name) => named(name, kept).extend(context.width, context.signed),
        Expr::Parens(_, inner) => worth(inner, context, kept),
        Expr::Apply(SystemFunction::Clog2, _, inner) => {
            let own = own_context(inner, kept, By::Standard);
            let bits = logarithm(worth(inner, own, kept), own.signed);
            bits.extend(context.width, context.signed)
        }
        Expr::Unary(operator, _, a) => applied(*operator, a, context, kept),
        Expr::Binary(operator, _, a, b) => {
            let operator = binary(*operator);
            let left = left_context(operator, a, b, context, kept, By::Standard);
            let right = right_context(operator, a, b, context, kept, By::Standard);
            let a = worth(a, left, kept);
            let b = worth(b, right, kept);
            match operator {
                Operation::Join(operator) => join(operator, context.signed, a, b),
                Operation::Compare(operator) => {
                    compare(operator, left.signed, a, b).extend(context.width, context.signed)
                }
                Operation::Link(operator) => {
                    link(operator, a, b).extend(context.width, context.signed)
                }
                Operation::Shift(operator) => shift(operator, context.signed, a, b),
                Operation::Power => raise(a, b, right.signed),
            }
        }
        Expr::Choose(_, condition, taken, otherwise) => {
            let own = own_context(condition, kept, By::Standard);
            let condition = worth(condition, own, kept);
            let taken = worth(taken, context, kept);
            choose(condition, taken, worth(otherwise, context, kept))
        }
        _ => Vec4::filled(context.width, Bit::X),
    }
}

/// What a name that stands for a number is worth.
fn named(name: &Name, kept: &Scopes) -> Vec4
    ensures { result ≡ read_bits ((scopes kept.now).scope name.now.text)
        ((scopes kept.now).standards name.now.text) }
{
    read_bits(kept.names.find(&name.text), kept.standards.find(&name.text))
}

/// What an operator before an operand is worth.
#[cycle(worth)]
fn applied(operator: UnaryOperator, a: &Expr, context: Context, kept: &Scopes) -> Vec4
    requires not_empty { 1 ≤ context.width }
    requires at_most { context.width ≤ 128 }
    ensures bits { result ≡ worth (scopes kept.now) (Unary operator 0 (formula a.now)) context }
    ensures width { length result ≡ context.width }
{
    let operator = unary(operator);
    let own = operand_context(operator, a, context, kept, By::Standard);
    let a = worth(a, own, kept);
    match operator {
        Prefix::Turn(operator) => turn(operator, a),
        Prefix::Fold(operator) => fold(operator, a).extend(context.width, context.signed),
    }
}

/// The context of an expression that something of so many bits takes.
pub(crate) fn taken_context(wanted: u8, own: Context) -> Context
    requires { 1 ≤ own.width }
    ensures exact { result ≡ taken_context wanted own }
    ensures not_empty { 1 ≤ result.width }
    ensures at_most { result.width ≤ 128 }
{
    Context {
        width: wanted.max(own.width).min(128),
        signed: own.signed,
    }
}

/// What an expression is worth by itself.
pub(crate) fn own_worth(e: &Expr, kept: &Scopes) -> Vec4
    ensures { result ≡ own_worth (scopes kept.now) (formula e.now) }
{
    worth(e, own_context(e, kept, By::Standard), kept)
}

/// What something of so many bits takes of an expression.
pub(crate) fn taken_worth(wanted: u8, e: &Expr, kept: &Scopes) -> Vec4
    requires not_empty { 1 ≤ wanted }
    requires at_most { wanted ≤ 128 }
    ensures bits { result ≡ taken_worth (scopes kept.now) wanted (formula e.now) }
    ensures width { length result ≡ wanted }
{
    let own = own_context(e, kept, By::Standard);
    worth(e, taken_context(wanted, own), kept).extend(wanted, own.signed)
}
