//! Parameters that are declared behind a connection that names them.

ghost use Rattle.std.specs.Prelude.{◌≡◌, ◌++◌, OnOk, map};
ghost use Rattle.name_map.specs.Values.{values_of};
ghost use Rattle.rtl_tree.specs.TreeExpr.{formula, formula_row};
ghost use Rattle.elab_uses.specs.elab_scope.Names.{meanings};
ghost use Rattle.elab_readings.specs.Connections.{is_behind, names_late, row_names_late};

use elab_uses::elab_scope::names::Names;
use name_map::NameMap;
use rtl_const::evaluate::constant;
use rtl_tree::tree::expr::Expr;

fn is_behind(at: u32, place: Option<u32>) -> bool
    ensures { result ≡ is_behind at place }
{
    match place {
        None => false,
        Some(place) => at < place,
    }
}

/// Whether an argument at a place names a parameter that is declared behind it, outside constant indices and ends of parts;
/// the map has the places of the parameters.
#[cycle(names_late)]
#[tactic(auto, using(crate::proofs::Borrowed::concat_late, crate::proofs::Borrowed::repeat_late))]
pub(crate) fn names_late(e: &Expr, names: &Names, places: &NameMap<u32>, at: u32) -> bool
    ensures { result ≡ names_late (meanings names.now) (values_of places.now) at (formula e.now) }
{
    match e {
        Expr::Number(_, _) | Expr::ReadPart(_, _, _, _) => false,
        Expr::Read(name) => is_behind(at, places.find(&name.text)),
        Expr::ReadBit(_, index) => {
            constant(index, names).is_err() && names_late(index, names, places, at)
        }
        Expr::Parens(_, inner) | Expr::Apply(_, _, inner) => {
            names_late(inner, names, places, at)
        }
        Expr::Concat(_, parts) => any_names_late(parts, names, places, at),
        Expr::Repeat(_, times, parts) => {
            names_late(times, names, places, at) || any_names_late(parts, names, places, at)
        }
        Expr::Unary(_, _, operand) => names_late(operand, names, places, at),
        Expr::Binary(_, _, left, right) => {
            names_late(left, names, places, at) || names_late(right, names, places, at)
        }
        Expr::Choose(_, condition, taken, otherwise) => {
            names_late(condition, names, places, at)
                || names_late(taken, names, places, at)
                || names_late(otherwise, names, places, at)
        }
    }
}

#[cycle(names_late)]
fn any_names_late(parts: &[Expr], names: &Names, places: &NameMap<u32>, at: u32) -> bool
    ensures { result ≡ row_names_late (meanings names.now) (values_of places.now) at
        (formula_row (map formula parts.now)) }
{
    for part in parts {
        if names_late(part, names, places, at) {
            return true;
        }
    }
    false
}
