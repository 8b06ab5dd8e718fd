//! What other tools read otherwise in an expression, and in the constants and the computed indices within it.

ghost use Rattle.std.specs.Prelude.{◌≡◌, ◌++◌, map, OnOk};
ghost use Rattle.rtl_tree.specs.TreeExpr.{formula, formula_row};
ghost use Rattle.elab_standard.specs.Nested.{argument_notes, format_notes, index_notes, nested_notes, row_notes};
ghost use Rattle.elab_standard.specs.Numbers.{desk_number, number_notes};
ghost use Rattle.elab_standard.specs.Scopes.{scopes};

use crate::alike::reads_alike;
use crate::contexts::own_context;
use crate::differing::differs;
use crate::notes::{push_if, root_place};
use crate::numbers::push_number;
use crate::scopes::{By, Scopes};
use crate::uses::Home;
use crate::worth::taken_context;
use elab_walk::elab_scope::operators::{Operation, binary};
use rtl_const::evaluate::constant;
use rtl_flat::note::{Note, Reading};
use rtl_tree::tree::expr::Expr;
use rtl_tree::tree::operators::SystemFunction;
use text_ground::memory::Memory;

/// Adds what is told of the sizes of an expression in at least so many bits. Where its parameters are alike, it isn't sized.
pub(crate) fn push_format(
    home: Home,
    kept: &Scopes,
    e: &Expr,
    wanted: u8,
    made: &mut Vec<Note>,
) -> Result<(), Memory>
    ensures { OnOk result (made.new.items
        ≡ made.old.items ++ format_notes home (scopes kept.now) (formula e.now) wanted) }
{
    if reads_alike(e, kept) {
        return Ok(());
    }
    let desk = taken_context(wanted, own_context(e, kept, By::Desk));
    let standard = taken_context(wanted, own_context(e, kept, By::Standard));
    let broken = differs(e, desk, standard, kept);
    push_if(broken, home, Reading::ParameterFormat, root_place(e), made)
}

/// Adds what is told of the constants and the computed indices in an expression.
#[cycle(nested)]
#[tactic(auto, using(crate::proofs::Views::concat_nested, crate::proofs::Views::repeat_nested))]
pub(crate) fn push_nested(
    home: Home,
    kept: &Scopes,
    e: &Expr,
    made: &mut Vec<Note>,
) -> Result<(), Memory>
    ensures { OnOk result (made.new.items
        ≡ made.old.items ++ nested_notes home (scopes kept.now) (formula e.now)) }
{
    match e {
        Expr::Number(_, _) | Expr::Read(_) => Ok(()),
        Expr::ReadBit(_, index) => push_index(home, kept, index, made),
        Expr::ReadPart(_, _, first, second) => {
            push_number(home, kept, first, made)?;
            push_number(home, kept, second, made)
        }
        Expr::Parens(_, inner) | Expr::Unary(_, _, inner) => push_nested(home, kept, inner, made),
        Expr::Apply(function, _, inner) => push_argument(home, kept, *function, inner, made),
        Expr::Concat(_, parts) => push_row(home, kept, parts, made),
        Expr::Repeat(_, times, parts) => push_copies(home, kept, parts, times, made),
        Expr::Binary(operator, _, a, b) => {
            if let Operation::Power = binary(*operator) {
                return push_number(home, kept, e, made);
            }
            push_nested(home, kept, a, made)?;
            push_nested(home, kept, b, made)
        }
        Expr::Choose(_, condition, taken, otherwise) => {
            push_nested(home, kept, condition, made)?;
            push_nested(home, kept, taken, made)?;
            push_nested(home, kept, otherwise, made)
        }
    }
}

/// Of an index: one with a number is a constant, every other one is an expression of its own.
#[cycle(nested)]
fn push_index(home: Home, kept: &Scopes, index: &Expr, made: &mut Vec<Note>) -> Result<(), Memory>
    ensures { let s = scopes kept.now in
        OnOk result (made.new.items ≡ made.old.items
        ++ index_notes (desk_number s (formula index.now)) (number_notes home s (formula index.now))
        (format_notes home s (formula index.now) 0 ++ nested_notes home s (formula index.now))) }
{
    match constant(index, &kept.names) {
        Ok(_) => push_number(home, kept, index, made),
        Err(_) => {
            push_format(home, kept, index, 0, made)?;
            push_nested(home, kept, index, made)
        }
    }
}

/// Of the argument of a function: that of `$clog2` is a constant.
#[cycle(nested)]
fn push_argument(
    home: Home,
    kept: &Scopes,
    function: SystemFunction,
    argument: &Expr,
    made: &mut Vec<Note>,
) -> Result<(), Memory>
    ensures { let s = scopes kept.now in
        OnOk result (made.new.items ≡ made.old.items
        ++ argument_notes function (number_notes home s (formula argument.now))
        (nested_notes home s (formula argument.now))) }
{
    match function {
        SystemFunction::Signed | SystemFunction::Unsigned => push_nested(
            home, kept, argument, made,
        ),
        SystemFunction::Clog2 => push_number(home, kept, argument, made),
    }
}

/// Of parts that are repeated so often.
#[cycle(nested)]
fn push_copies(
    home: Home,
    kept: &Scopes,
    parts: &[Expr],
    times: &Expr,
    made: &mut Vec<Note>,
) -> Result<(), Memory>
    ensures { let s = scopes kept.now in
        OnOk result (made.new.items ≡ made.old.items ++ (number_notes home s (formula times.now)
        ++ row_notes home s (formula_row (map formula parts.now)))) }
{
    push_number(home, kept, times, made)?;
    push_row(home, kept, parts, made)
}

/// Of parts beside one another.
#[cycle(nested)]
fn push_row(home: Home, kept: &Scopes, parts: &[Expr], made: &mut Vec<Note>) -> Result<(), Memory>
    ensures { OnOk result (made.new.items
        ≡ made.old.items ++ row_notes home (scopes kept.now) (formula_row (map formula parts.now))) }
{
    for part in parts {
        push_nested(home, kept, part, made)?;
    }
    Ok(())
}
