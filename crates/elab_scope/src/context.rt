//! The widths and signs that operands take.

ghost use Rattle.std.specs.Prelude.{◌≡◌, ◌≤◌};
ghost use Rattle.rtl_tree.specs.TreeExpr.{formula};
ghost use Rattle.elab_scope.specs.Names.{meanings};
ghost use Rattle.elab_scope.specs.Trees.{left_context, operand_context, own_context, right_context, shared_context};

use crate::names::Names;
use crate::operators::{Operation, Prefix};
use crate::own::{breadth, sign};
use rtl_tree::tree::expr::Expr;

/// The width and the sign that an expression takes from what it stands in.
#[derive(Clone, Copy, PartialEq, Eq, Debug)]
pub struct Context {
    /// In bits, from 1 to 128.
    pub width: u8,
    pub signed: bool,
}

/// That of an expression by itself.
pub fn own_context(e: &Expr, names: &Names) -> Context
    ensures exact { result ≡ own_context (meanings names.now) (formula e.now) }
    ensures not_empty { 1 ≤ result.width }
    ensures at_most { result.width ≤ 128 }
{
    Context {
        width: breadth(e, names).bits(),
        signed: sign(e, names),
    }
}

/// That of operands that are sized with each other.
fn shared_context(a: &Expr, b: &Expr, names: &Names) -> Context
    ensures exact { result ≡ shared_context (meanings names.now) (formula a.now) (formula b.now) }
    ensures not_empty { 1 ≤ result.width }
    ensures at_most { result.width ≤ 128 }
{
    Context {
        width: breadth(a, names).wider(breadth(b, names)).bits(),
        signed: sign(a, names) && sign(b, names),
    }
}

/// That of an operand behind its operator.
pub(crate) fn operand_context(
    operator: Prefix,
    a: &Expr,
    context: Context,
    names: &Names,
) -> Context
    requires not_empty { 1 ≤ context.width }
    requires at_most { context.width ≤ 128 }
    ensures exact { result ≡ operand_context (meanings names.now) operator (formula a.now) context }
    ensures not_empty { 1 ≤ result.width }
    ensures at_most { result.width ≤ 128 }
{
    match operator {
        Prefix::Turn(_) => context,
        Prefix::Fold(_) => own_context(a, names),
    }
}

/// That of an operand before its operator.
pub(crate) fn left_context(
    operator: Operation,
    a: &Expr,
    b: &Expr,
    context: Context,
    names: &Names,
) -> Context
    requires not_empty { 1 ≤ context.width }
    requires at_most { context.width ≤ 128 }
    ensures exact { result ≡ left_context (meanings names.now) operator (formula a.now)
        (formula b.now) context }
    ensures not_empty { 1 ≤ result.width }
    ensures at_most { result.width ≤ 128 }
{
    match operator {
        Operation::Join(_) | Operation::Shift(_) | Operation::Power => context,
        Operation::Compare(_) => shared_context(a, b, names),
        Operation::Link(_) => own_context(a, names),
    }
}

/// That of the second operand.
pub(crate) fn right_context(
    operator: Operation,
    a: &Expr,
    b: &Expr,
    context: Context,
    names: &Names,
) -> Context
    requires not_empty { 1 ≤ context.width }
    requires at_most { context.width ≤ 128 }
    ensures exact { result ≡ right_context (meanings names.now) operator (formula a.now)
        (formula b.now) context }
    ensures not_empty { 1 ≤ result.width }
    ensures at_most { result.width ≤ 128 }
{
    match operator {
        Operation::Join(_) => context,
        Operation::Compare(_) => shared_context(a, b, names),
        Operation::Link(_) | Operation::Shift(_) | Operation::Power => own_context(b, names),
    }
}
