//! Cases whose selector and labels are extended by one sign or another.

ghost use Rattle.std.specs.Prelude.{◌≡◌, map};
ghost use Rattle.std.specs.List.{list_all, list_any};
ghost use Rattle.rtl_tree.specs.TreeExpr.{formula};
ghost use Rattle.rtl_tree.specs.TreeStmt.{branch, branch_row};
ghost use Rattle.elab_standard.specs.Cases.{case_labels, is_case_misread, is_extended_otherwise, is_labelled_literal, is_literal, is_mixed, is_natural, is_recast, is_worked_out, unconverted};
ghost use Rattle.elab_standard.specs.Scopes.{scopes};

use crate::contexts::{case_context, own_context, sign};
use crate::differing::same_sign;
use crate::literals::literal_bits;
use crate::notes::bare;
use crate::scopes::{By, Scopes};
use elab_walk::elab_scope::context::Context;
use rtl_bits::Bit;
use rtl_tree::tree::expr::Expr;
use rtl_tree::tree::operators::{BinaryOperator, SystemFunction};
use rtl_tree::tree::stmt::CaseItem;

/// Whether it is worked out where the design is made.
fn is_worked_out(e: &Expr) -> bool
    ensures { result ≡ is_worked_out (formula e.now) }
{
    match e {
        Expr::Apply(SystemFunction::Clog2, _, _) => true,
        Expr::Binary(BinaryOperator::Power, _, _, _) => true,
        _ => false,
    }
}

/// Whether this is a number whose highest bit is 0.
fn is_natural(e: &Expr) -> bool
    ensures { result ≡ is_natural (formula e.now) }
{
    match e {
        Expr::Number(value, _) => {
            let bits = literal_bits(value);
            matches!(bits.bit(bits.width() - 1), Bit::Zero)
        }
        _ => is_worked_out(e),
    }
}

fn is_literal(e: &Expr) -> bool
    ensures { result ≡ is_literal (formula e.now) }
{
    match e {
        Expr::Number(_, _) => true,
        _ => is_worked_out(e),
    }
}

/// Whether a label is a number.
fn is_labelled_literal(e: &Expr) -> bool
    ensures { result ≡ is_labelled_literal (formula e.now) }
{
    is_literal(bare(e))
}

/// Whether its own sign extends a selector or a label otherwise than a case of so many bits does, which isn't signed.
fn is_extended_otherwise(e: &Expr, kept: &Scopes, widest: u8) -> bool
    ensures { result ≡ is_extended_otherwise (scopes kept.now).scope widest (formula e.now) }
{
    sign(e, kept, By::Desk) && own_context(e, kept, By::Desk).width < widest && !is_natural(bare(e))
}

/// The expression without its parentheses and conversions.
fn unconverted(e: &Expr) -> &Expr
    ensures { formula result.now ≡ unconverted (formula e.now) }
{
    match e {
        Expr::Parens(_, inner) => unconverted(inner),
        Expr::Apply(SystemFunction::Signed, _, inner) => unconverted(inner),
        Expr::Apply(SystemFunction::Unsigned, _, inner) => unconverted(inner),
        _ => e,
    }
}

fn any_label(labels: &[Expr], kept: &Scopes, widest: u8) -> bool
    ensures { result ≡ list_any (is_extended_otherwise (scopes kept.now).scope widest)
        (map formula labels.now) }
{
    for label in labels {
        if is_extended_otherwise(label, kept, widest) {
            return true;
        }
    }
    false
}

#[tactic(auto, using(crate::proofs::Lists::any_append))]
fn any_item(items: &[CaseItem], kept: &Scopes, widest: u8) -> bool
    ensures { result ≡ list_any (is_extended_otherwise (scopes kept.now).scope widest)
        (case_labels (branch_row (map branch items.now))) }
{
    for item in items {
        if let CaseItem::Labelled(labels, _) = item {
            if any_label(labels, kept, widest) {
                return true;
            }
        }
    }
    false
}

fn are_literals(labels: &[Expr]) -> bool
    ensures { result ≡ list_all is_labelled_literal (map formula labels.now) }
{
    for label in labels {
        if !is_labelled_literal(label) {
            return false;
        }
    }
    true
}

#[tactic(auto, using(crate::proofs::Lists::all_append))]
fn all_literals(items: &[CaseItem]) -> bool
    ensures { result ≡ list_all is_labelled_literal
        (case_labels (branch_row (map branch items.now))) }
{
    for item in items {
        if let CaseItem::Labelled(labels, _) = item {
            if !are_literals(labels) {
                return false;
            }
        }
    }
    true
}

/// Whether a case that isn't signed holds something signed that is extended.
fn is_mixed(selector: &Expr, items: &[CaseItem], context: Context, kept: &Scopes) -> bool
    ensures { result ≡ is_mixed (scopes kept.now).scope context (formula selector.now)
        (case_labels (branch_row (map branch items.now))) }
{
    !context.signed
        && (is_extended_otherwise(selector, kept, context.width)
            || any_item(items, kept, context.width))
}

/// Whether a selector is extended to labels that are numbers, by another sign than it has below its conversions.
fn is_recast(selector: &Expr, items: &[CaseItem], context: Context, kept: &Scopes) -> bool
    ensures { result ≡ is_recast (scopes kept.now).scope context (formula selector.now)
        (case_labels (branch_row (map branch items.now))) }
{
    all_literals(items)
        && own_context(selector, kept, By::Desk).width < context.width
        && !same_sign(sign(unconverted(selector), kept, By::Desk), context.signed)
}

/// Whether the signs of a case hang on the reading.
pub(crate) fn is_case_misread(selector: &Expr, items: &[CaseItem], kept: &Scopes) -> bool
    ensures { result ≡ is_case_misread (scopes kept.now).scope (formula selector.now)
        (branch_row (map branch items.now)) }
{
    let context = case_context(selector, items, kept, By::Desk);
    is_mixed(selector, items, context, kept) || is_recast(selector, items, context, kept)
}
