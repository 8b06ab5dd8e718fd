//! The widths and signs that expressions have by themselves and take from what they stand in, whoever reads their names.

ghost use Rattle.std.specs.Prelude.{◌≡◌, ◌≤◌, map};
ghost use Rattle.rtl_tree.specs.TreeExpr.{formula, formula_row};
ghost use Rattle.rtl_tree.specs.TreeStmt.{branch, branch_row};
ghost use Rattle.elab_walk.specs.elab_parts.elab_body.Acts.{branches_breadth, branches_sign, case_context, labels_breadth, labels_sign};
ghost use Rattle.elab_walk.specs.elab_scope.Own.{breadth, operation_breadth, operation_sign, prefix_breadth, prefix_sign, row_breadth, sign};
ghost use Rattle.elab_walk.specs.elab_scope.Trees.{left_context, operand_context, own_context, right_context, shared_context};
ghost use Rattle.elab_standard.specs.Reads.{read_by};
ghost use Rattle.elab_standard.specs.Scopes.{scopes};

use crate::scopes::{By, Scopes};
use elab_walk::elab_scope::context::Context;
use elab_walk::elab_scope::operators::{Operation, Prefix, binary, unary};
use elab_walk::elab_scope::own::{
    function_breadth, is_signed, name_breadth, name_sign, part_breadth,
};
use elab_walk::elab_scope::widths::{Breadth, breadth_of};
use rtl_tree::tree::expr::Expr;
use rtl_tree::tree::stmt::CaseItem;

/// How many bits the expression has by itself.
#[cycle(breadths)]
#[tactic(auto, using(crate::proofs::Breadths::concat_breadth, crate::proofs::Breadths::repeat_breadth))]
pub(crate) fn breadth(e: &Expr, kept: &Scopes, by: By) -> Breadth
    ensures { result ≡ breadth (read_by by (scopes kept.now)) (formula e.now) }
{
    match e {
        Expr::Number(value, _) => breadth_of(u32::from(value.width)),
        Expr::Read(name) => name_breadth(kept.find(by, &name.text)),
        Expr::ReadBit(_, _) => Breadth::Bits(1),
        Expr::ReadPart(name, kind, first, second) => {
            let ends = kept.ends(by, *kind, first, second);
            part_breadth(kept.find(by, &name.text), ends.msb, ends.lsb)
        }
        Expr::Parens(_, inner) => breadth(inner, kept, by),
        Expr::Apply(function, _, inner) => function_breadth(*function, breadth(inner, kept, by)),
        Expr::Concat(_, parts) => row_breadth(parts, kept, by).fit(),
        Expr::Repeat(_, times, parts) => {
            row_breadth(parts, kept, by)
                .fit()
                .repeated(kept.number(by, times))
        }
        Expr::Unary(operator, _, operand) => match unary(*operator) {
            Prefix::Turn(_) => breadth(operand, kept, by),
            Prefix::Fold(_) => Breadth::Bits(1),
        },
        Expr::Binary(operator, _, left, right) => match binary(*operator) {
            Operation::Join(_) => breadth(left, kept, by).wider(breadth(right, kept, by)),
            Operation::Compare(_) | Operation::Link(_) => Breadth::Bits(1),
            Operation::Shift(_) | Operation::Power => breadth(left, kept, by),
        },
        Expr::Choose(_, _, taken, otherwise) => {
            breadth(taken, kept, by).wider(breadth(otherwise, kept, by))
        }
    }
}

/// How many bits parts have beside one another.
#[cycle(breadths)]
#[tactic(auto, using(crate::proofs::Breadths::beside_beside, crate::proofs::Breadths::beside_none, crate::proofs::Breadths::row_alone))]
fn row_breadth(parts: &[Expr], kept: &Scopes, by: By) -> Breadth
    ensures { result ≡ row_breadth (read_by by (scopes kept.now))
        (formula_row (map formula parts.now)) }
{
    let mut all = Breadth::Bits(0);
    for part in parts {
        all = all.beside(breadth(part, kept, by));
    }
    all
}

/// Whether the expression is signed by itself.
pub(crate) fn sign(e: &Expr, kept: &Scopes, by: By) -> bool
    ensures { result ≡ sign (read_by by (scopes kept.now)) (formula e.now) }
{
    match e {
        Expr::Number(value, _) => value.signed,
        Expr::Read(name) => name_sign(kept.find(by, &name.text)),
        Expr::Parens(_, inner) => sign(inner, kept, by),
        Expr::Apply(function, _, _) => is_signed(*function),
        Expr::Unary(operator, _, operand) => match unary(*operator) {
            Prefix::Turn(_) => sign(operand, kept, by),
            Prefix::Fold(_) => false,
        },
        Expr::Binary(operator, _, left, right) => match binary(*operator) {
            Operation::Join(_) => sign(left, kept, by) && sign(right, kept, by),
            Operation::Compare(_) | Operation::Link(_) => false,
            Operation::Shift(_) | Operation::Power => sign(left, kept, by),
        },
        Expr::Choose(_, _, taken, otherwise) => {
            sign(taken, kept, by) && sign(otherwise, kept, by)
        }
        Expr::ReadBit(_, _)
        | Expr::ReadPart(_, _, _, _)
        | Expr::Concat(_, _)
        | Expr::Repeat(_, _, _) => false,
    }
}

/// That of an expression by itself.
pub(crate) fn own_context(e: &Expr, kept: &Scopes, by: By) -> Context
    ensures exact { result ≡ own_context (read_by by (scopes kept.now)) (formula e.now) }
    ensures not_empty { 1 ≤ result.width }
    ensures at_most { result.width ≤ 128 }
{
    Context {
        width: breadth(e, kept, by).bits(),
        signed: sign(e, kept, by),
    }
}

/// That of operands that are sized with each other.
fn shared_context(a: &Expr, b: &Expr, kept: &Scopes, by: By) -> Context
    ensures exact { result ≡ shared_context (read_by by (scopes kept.now)) (formula a.now)
        (formula b.now) }
    ensures not_empty { 1 ≤ result.width }
    ensures at_most { result.width ≤ 128 }
{
    Context {
        width: breadth(a, kept, by).wider(breadth(b, kept, by)).bits(),
        signed: sign(a, kept, by) && sign(b, kept, by),
    }
}

/// That of an operand behind its operator.
pub(crate) fn operand_context(
    operator: Prefix,
    a: &Expr,
    context: Context,
    kept: &Scopes,
    by: By,
) -> Context
    requires not_empty { 1 ≤ context.width }
    requires at_most { context.width ≤ 128 }
    ensures exact { result ≡ operand_context (read_by by (scopes kept.now)) operator
        (formula a.now) context }
    ensures not_empty { 1 ≤ result.width }
    ensures at_most { result.width ≤ 128 }
{
    match operator {
        Prefix::Turn(_) => context,
        Prefix::Fold(_) => own_context(a, kept, by),
    }
}

/// That of an operand before its operator.
pub(crate) fn left_context(
    operator: Operation,
    a: &Expr,
    b: &Expr,
    context: Context,
    kept: &Scopes,
    by: By,
) -> Context
    requires not_empty { 1 ≤ context.width }
    requires at_most { context.width ≤ 128 }
    ensures exact { result ≡ left_context (read_by by (scopes kept.now)) operator
        (formula a.now) (formula b.now) context }
    ensures not_empty { 1 ≤ result.width }
    ensures at_most { result.width ≤ 128 }
{
    match operator {
        Operation::Join(_) | Operation::Shift(_) | Operation::Power => context,
        Operation::Compare(_) => shared_context(a, b, kept, by),
        Operation::Link(_) => own_context(a, kept, by),
    }
}

/// That of the second operand.
pub(crate) fn right_context(
    operator: Operation,
    a: &Expr,
    b: &Expr,
    context: Context,
    kept: &Scopes,
    by: By,
) -> Context
    requires not_empty { 1 ≤ context.width }
    requires at_most { context.width ≤ 128 }
    ensures exact { result ≡ right_context (read_by by (scopes kept.now)) operator
        (formula a.now) (formula b.now) context }
    ensures not_empty { 1 ≤ result.width }
    ensures at_most { result.width ≤ 128 }
{
    match operator {
        Operation::Join(_) => context,
        Operation::Compare(_) => shared_context(a, b, kept, by),
        Operation::Link(_) | Operation::Shift(_) | Operation::Power => own_context(b, kept, by),
    }
}

fn labels_breadth(all: &[Expr], kept: &Scopes, by: By, widest: Breadth) -> Breadth
    ensures { result ≡ labels_breadth (read_by by (scopes kept.now)) widest (map formula all.now) }
{
    let mut widest = widest;
    for label in all {
        widest = widest.wider(breadth(label, kept, by));
    }
    widest
}

fn labels_sign(all: &[Expr], kept: &Scopes, by: By, signed: bool) -> bool
    ensures { result ≡ labels_sign (read_by by (scopes kept.now)) signed (map formula all.now) }
{
    let mut signed = signed;
    for label in all {
        signed = signed && sign(label, kept, by);
    }
    signed
}

fn items_breadth(items: &[CaseItem], kept: &Scopes, by: By, widest: Breadth) -> Breadth
    ensures { result ≡ branches_breadth (read_by by (scopes kept.now)) widest
        (branch_row (map branch items.now)) }
{
    let mut widest = widest;
    for item in items {
        if let CaseItem::Labelled(labels, _) = item {
            widest = labels_breadth(labels, kept, by, widest);
        }
    }
    widest
}

fn items_sign(items: &[CaseItem], kept: &Scopes, by: By, signed: bool) -> bool
    ensures { result ≡ branches_sign (read_by by (scopes kept.now)) signed
        (branch_row (map branch items.now)) }
{
    let mut signed = signed;
    for item in items {
        if let CaseItem::Labelled(labels, _) = item {
            signed = labels_sign(labels, kept, by, signed);
        }
    }
    signed
}

/// That of the selector of a case and of its labels.
pub(crate) fn case_context(selector: &Expr, items: &[CaseItem], kept: &Scopes, by: By) -> Context
    ensures exact { result ≡ case_context (read_by by (scopes kept.now)) (formula selector.now)
        (branch_row (map branch items.now)) }
    ensures not_empty { 1 ≤ result.width }
    ensures at_most { result.width ≤ 128 }
{
    Context {
        width: items_breadth(items, kept, by, breadth(selector, kept, by)).bits(),
        signed: items_sign(items, kept, by, sign(selector, kept, by)),
    }
}
