//! Whether parameters are by the standard what they are by the desk, so that nothing is sized otherwise.

ghost use Rattle.std.specs.Prelude.{◌≡◌, Some, map};
ghost use Rattle.std.specs.List.{list_all};
ghost use Rattle.rtl_tree.specs.TreeExpr.{formula, formula_row};
ghost use Rattle.rtl_tree.specs.TreeStmt.{branch, branch_row};
ghost use Rattle.elab_walk.specs.elab_scope.declared.known.Known.TheVariants as known;
ghost use Rattle.elab_standard.specs.Alike.{case_alike, is_alike, reads_alike, row_alike};
ghost use Rattle.elab_standard.specs.Cases.{case_labels};
ghost use Rattle.elab_standard.specs.Scopes.{scopes};

use crate::differing::same_sign;
use crate::literals::{named_bits, standard_bits};
use crate::scopes::Scopes;
use crate::standard::Standard;
use elab_walk::elab_scope::known::Known;
use rtl_tree::tree::expr::Expr;
use rtl_tree::tree::names::Name;
use rtl_tree::tree::stmt::CaseItem;

fn parameter_alike(number: Option<i64>, width: u8, signed: bool, standard: Standard) -> bool
    ensures { result ≡ is_alike (Some (known.Parameter number width signed)) (Some standard) }
{
    if standard.width != width {
        return false;
    }
    let own = named_bits(Some(Known::Parameter {
        number,
        width,
        signed,
    }));
    same_sign(standard.signed, signed) && own.matches(standard_bits(standard))
}

fn is_alike(known: Option<Known>, standard: Standard) -> bool
    ensures { result ≡ is_alike known (Some standard) }
{
    match known {
        Some(
            Known::Parameter {
                number,
                width,
                signed,
            },
        ) => parameter_alike(number, width, signed, standard),
        None | Some(Known::Signal { .. }) | Some(Known::Integer(_)) => true,
    }
}

/// Most names are no parameters, so that one look tells.
fn name_alike(name: &Name, kept: &Scopes) -> bool
    ensures { result ≡ is_alike ((scopes kept.now).scope name.now.text)
        ((scopes kept.now).standards name.now.text) }
{
    match kept.standards.find(&name.text) {
        None => true,
        Some(standard) => is_alike(kept.names.find(&name.text), standard),
    }
}

/// Whether each name is so that an expression reads whole.
#[cycle(alike)]
#[tactic(auto, using(crate::proofs::Likeness::concat_alike, crate::proofs::Likeness::repeat_alike))]
pub(crate) fn reads_alike(e: &Expr, kept: &Scopes) -> bool
    ensures { result ≡ reads_alike (scopes kept.now) (formula e.now) }
{
    match e {
        Expr::Number(_, _) | Expr::ReadBit(_, _) | Expr::ReadPart(_, _, _, _) => true,
        Expr::Read(name) => name_alike(name, kept),
        Expr::Parens(_, inner) | Expr::Apply(_, _, inner) | Expr::Unary(_, _, inner) => {
            reads_alike(inner, kept)
        }
        Expr::Concat(_, parts) | Expr::Repeat(_, _, parts) => row_alike(parts, kept),
        Expr::Binary(_, _, a, b) => reads_alike(a, kept) && reads_alike(b, kept),
        Expr::Choose(_, condition, taken, otherwise) => {
            reads_alike(condition, kept) && reads_alike(taken, kept) && reads_alike(otherwise, kept)
        }
    }
}

#[cycle(alike)]
fn row_alike(parts: &[Expr], kept: &Scopes) -> bool
    ensures { result ≡ row_alike (scopes kept.now) (formula_row (map formula parts.now)) }
{
    for part in parts {
        if !reads_alike(part, kept) {
            return false;
        }
    }
    true
}

fn labels_alike(labels: &[Expr], kept: &Scopes) -> bool
    ensures { result ≡ list_all (reads_alike (scopes kept.now)) (map formula labels.now) }
{
    for label in labels {
        if !reads_alike(label, kept) {
            return false;
        }
    }
    true
}

#[tactic(auto, using(crate::proofs::Lists::all_append))]
fn items_alike(items: &[CaseItem], kept: &Scopes) -> bool
    ensures { result ≡ list_all (reads_alike (scopes kept.now))
        (case_labels (branch_row (map branch items.now))) }
{
    for item in items {
        if let CaseItem::Labelled(labels, _) = item {
            if !labels_alike(labels, kept) {
                return false;
            }
        }
    }
    true
}

/// The same of the selector and the labels of a case.
pub(crate) fn case_alike(selector: &Expr, items: &[CaseItem], kept: &Scopes) -> bool
    ensures { result ≡ case_alike (scopes kept.now) (formula selector.now)
        (branch_row (map branch items.now)) }
{
    reads_alike(selector, kept) && items_alike(items, kept)
}
