//! Numbers without a written width where their width counts.

ghost use Rattle.std.specs.Prelude.{◌≡◌, ◌++◌, map, OnOk};
ghost use Rattle.rtl_tree.specs.TreeExpr.{formula, formula_row};
ghost use Rattle.rtl_flat.specs.declared.note.Reading.TheVariants.{UnsizedNumber};
ghost use Rattle.elab_standard.specs.Notes.{note_if, root_place};
ghost use Rattle.elab_standard.specs.Scopes.{scopes};
ghost use Rattle.elab_standard.specs.Unsized.{is_function_unsized, is_misread, is_standard_unsized, is_unsized, operand_notes, unsized_notes};

use crate::notes::{push_if, root_place};
use crate::scopes::Scopes;
use crate::standard::Standard;
use crate::uses::Home;
use elab_walk::elab_scope::operators::{Operation, Prefix, binary, unary};
use rtl_flat::note::{Note, Reading};
use rtl_tree::literal::Literal;
use rtl_tree::tree::expr::Expr;
use rtl_tree::tree::operators::SystemFunction;
use text_ground::memory::Memory;

/// Whether the width of a parameter is that of a number without one.
fn is_standard_unsized(standard: Option<Standard>) -> bool
    ensures { result ≡ is_standard_unsized standard }
{
    match standard {
        Some(standard) => !standard.sized,
        None => false,
    }
}

/// The same of what a function of the system gives.
fn is_function_unsized(function: SystemFunction, argument: bool) -> bool
    ensures { result ≡ is_function_unsized function argument }
{
    match function {
        SystemFunction::Signed | SystemFunction::Unsigned => argument,
        SystemFunction::Clog2 => false,
    }
}

/// Whether the width of an expression is that of a number without one.
pub(crate) fn is_unsized(e: &Expr, kept: &Scopes) -> bool
    ensures { result ≡ is_unsized (scopes kept.now) (formula e.now) }
{
    match e {
        Expr::Number(value, _) => !value.sized,
        Expr::Read(name) => is_standard_unsized(kept.standards.find(&name.text)),
        Expr::Parens(_, inner) => is_unsized(inner, kept),
        Expr::Apply(function, _, inner) => is_function_unsized(*function, is_unsized(inner, kept)),
        Expr::Unary(operator, _, a) => match unary(*operator) {
            Prefix::Turn(_) => is_unsized(a, kept),
            Prefix::Fold(_) => false,
        },
        Expr::Binary(operator, _, a, b) => match binary(*operator) {
            Operation::Join(_) => is_unsized(a, kept) || is_unsized(b, kept),
            Operation::Compare(_) | Operation::Link(_) => false,
            Operation::Shift(_) | Operation::Power => is_unsized(a, kept),
        },
        Expr::Choose(_, _, taken, otherwise) => {
            is_unsized(taken, kept) || is_unsized(otherwise, kept)
        }
        Expr::ReadBit(_, _)
        | Expr::ReadPart(_, _, _, _)
        | Expr::Concat(_, _)
        | Expr::Repeat(_, _, _) => false,
    }
}

/// Whether tools read a number otherwise for want of a width.
#[tactic(auto, unfolding(rtl_bits::specs::Bits::is_one_at))]
fn is_misread(value: &Literal) -> bool
    ensures { result ≡ is_misread value.now }
{
    if value.sized {
        return false;
    }
    (value.signed && value.radix != 10) || (value.val >> 31) % 2 == 1 || (value.unk >> 31) % 2 == 1
}

/// Adds the numbers in an expression that are misread, and the operands of its concatenations without a width.
#[cycle(unsized_numbers)]
#[tactic(auto, using(crate::proofs::Views::concat_unsized, crate::proofs::Views::repeat_unsized))]
pub(crate) fn push_unsized(
    home: Home,
    kept: &Scopes,
    e: &Expr,
    made: &mut Vec<Note>,
) -> Result<(), Memory>
    ensures { OnOk result (made.new.items
        ≡ made.old.items ++ unsized_notes home (scopes kept.now) (formula e.now)) }
{
    match e {
        Expr::Number(value, at) => {
            push_if(is_misread(value), home, Reading::UnsizedNumber, *at, made)
        }
        Expr::Read(_) => Ok(()),
        Expr::ReadBit(_, inner)
        | Expr::Parens(_, inner)
        | Expr::Apply(_, _, inner)
        | Expr::Unary(_, _, inner) => push_unsized(home, kept, inner, made),
        Expr::ReadPart(_, _, a, b) | Expr::Binary(_, _, a, b) => {
            push_unsized(home, kept, a, made)?;
            push_unsized(home, kept, b, made)
        }
        Expr::Concat(_, parts) => push_operands(home, kept, parts, made),
        Expr::Repeat(_, times, parts) => {
            push_unsized(home, kept, times, made)?;
            push_operands(home, kept, parts, made)
        }
        Expr::Choose(_, condition, taken, otherwise) => {
            push_unsized(home, kept, condition, made)?;
            push_unsized(home, kept, taken, made)?;
            push_unsized(home, kept, otherwise, made)
        }
    }
}

/// Those of an operand of a concatenation.
#[cycle(unsized_numbers)]
fn push_operand(home: Home, kept: &Scopes, e: &Expr, made: &mut Vec<Note>) -> Result<(), Memory>
    ensures { OnOk result (made.new.items
        ≡ made.old.items ++ (note_if (is_unsized (scopes kept.now) (formula e.now)) home
        UnsizedNumber (root_place (formula e.now))
        ++ unsized_notes home (scopes kept.now) (formula e.now))) }
{
    let broken = is_unsized(e, kept);
    push_if(broken, home, Reading::UnsizedNumber, root_place(e), made)?;
    push_unsized(home, kept, e, made)
}

/// Those of all operands of a concatenation.
#[cycle(unsized_numbers)]
fn push_operands(
    home: Home,
    kept: &Scopes,
    parts: &[Expr],
    made: &mut Vec<Note>,
) -> Result<(), Memory>
    ensures { OnOk result (made.new.items
        ≡ made.old.items ++ operand_notes home (scopes kept.now)
        (formula_row (map formula parts.now))) }
{
    for part in parts {
        push_operand(home, kept, part, made)?;
    }
    Ok(())
}
