//! The expressions of assignments as they are used.

ghost use Rattle.std.specs.Prelude.{◌≡◌, ◌≤◌, ◌++◌, ◌∷◌, [], OnOk, map};
ghost use Rattle.rtl_const.specs.Constant.{constant};
ghost use Rattle.rtl_tree.specs.TreeExpr.{formula};
ghost use Rattle.rtl_tree.specs.TreeStmt.{target, target_row};
ghost use Rattle.elab_body.specs.elab_scope.Names.{meanings, numbers_in};
ghost use Rattle.elab_body.specs.elab_scope.Targets.{target_breadth};
ghost use Rattle.elab_body.specs.elab_scope.Widths.{bits};
ghost use Rattle.elab_standard.specs.Scopes.{scopes as scopes_of};
ghost use Rattle.elab_standard.specs.Uses.{Number, Value, used};
ghost use Rattle.elab_uses.specs.Bodies.{assignment_uses, index_use, notes_in, number_in, parts_uses, target_uses};

use elab_body::elab_scope::names::Names;
use elab_body::elab_scope::rules::Writer;
use elab_body::elab_scope::targets::judge_parts;
use elab_standard::scopes::Scopes;
use elab_standard::uses::{Home, Use, push_use};
use rtl_const::evaluate::constant;
use rtl_flat::note::Note;
use rtl_tree::tree::expr::Expr;
use rtl_tree::tree::stmt::Lvalue;
use text_ground::memory::Memory;

/// A constant index is a number, every other one is worked out.
fn index_use<'a>(index: &'a Expr, names: &Names) -> Use<'a>
    ensures { used result ≡ index_use
        (constant (numbers_in (meanings names.now)) (formula index.now)) (formula index.now) }
{
    match constant(index, names) {
        Ok(_) => Use::Number(index),
        Err(_) => Use::Value {
            value: index,
            wanted: 0,
        },
    }
}

/// The width of a target, in bits.
fn target_width(written: &Lvalue, names: &Names) -> u8
    ensures { result ≡ bits (target_breadth (meanings names.now) (target written.now)) }
{
    let target = judge_parts(Writer::Procedural, written, names, None);
    target.breadth.bits()
}

/// The notes of an index.
pub(crate) fn push_index(
    index: &Expr,
    home: Home,
    scopes: &Scopes,
    made: &mut Vec<Note>,
) -> Result<(), Memory>
    ensures { let s = scopes_of scopes.now in
        let index = formula index.now in
        OnOk result (made.new.items ≡ made.old.items
        ++ notes_in home ((s, index_use (number_in s index) index) ∷ [])) }
{
    push_use(home, scopes, index_use(index, &scopes.names), made)
}

/// The notes of what stands in the brackets of a part.
pub(crate) fn push_ends(
    first: &Expr,
    second: &Expr,
    home: Home,
    scopes: &Scopes,
    made: &mut Vec<Note>,
) -> Result<(), Memory>
    ensures { let s = scopes_of scopes.now in
        OnOk result (made.new.items ≡ made.old.items
        ++ notes_in home ((s, Number (formula first.now)) ∷ (s, Number (formula second.now)) ∷ [])) }
{
    push_use(home, scopes, Use::Number(first), made)?;
    push_use(home, scopes, Use::Number(second), made)
}

/// The notes of a target.
#[cycle(push_target)]
#[tactic(auto, using(crate::proofs::Views::joined_uses))]
pub(crate) fn push_target(
    written: &Lvalue,
    home: Home,
    scopes: &Scopes,
    made: &mut Vec<Note>,
) -> Result<(), Memory>
    ensures { OnOk result (made.new.items ≡ made.old.items
        ++ notes_in home (target_uses (scopes_of scopes.now) (target written.now))) }
{
    match written {
        Lvalue::Whole(_) => Ok(()),
        Lvalue::Bit(_, index) => push_index(index, home, scopes, made),
        Lvalue::Part(_, _, first, second) => push_ends(first, second, home, scopes, made),
        Lvalue::Concat(_, parts) => push_parts(parts, home, scopes, made),
    }
}

/// The notes of targets in a row.
#[cycle(push_target)]
fn push_parts(
    parts: &[Lvalue],
    home: Home,
    scopes: &Scopes,
    made: &mut Vec<Note>,
) -> Result<(), Memory>
    ensures { OnOk result (made.new.items ≡ made.old.items
        ++ notes_in home (parts_uses (scopes_of scopes.now) (target_row (map target parts.now)))) }
{
    for part in parts {
        push_target(part, home, scopes, made)?;
    }
    Ok(())
}

/// The notes of a value that is given to a target of so many bits, by itself.
pub(crate) fn push_value(
    value: &Expr,
    wanted: u8,
    home: Home,
    scopes: &Scopes,
    made: &mut Vec<Note>,
) -> Result<(), Memory>
    ensures { OnOk result (made.new.items ≡ made.old.items
        ++ notes_in home ((scopes_of scopes.now, Value (formula value.now) wanted) ∷ [])) }
{
    push_use(home, scopes, Use::Value { value, wanted }, made)
}

/// The notes of an assignment.
pub(crate) fn push_assignment(
    written: &Lvalue,
    value: &Expr,
    home: Home,
    scopes: &Scopes,
    made: &mut Vec<Note>,
) -> Result<(), Memory>
    ensures { OnOk result (made.new.items ≡ made.old.items
        ++ notes_in home (assignment_uses (scopes_of scopes.now) (target written.now)
        (formula value.now))) }
{
    push_target(written, home, scopes, made)?;
    let wanted = target_width(written, &scopes.names);
    push_value(value, wanted, home, scopes, made)
}
