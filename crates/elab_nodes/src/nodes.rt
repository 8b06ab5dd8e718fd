//! How many of so many nodes are left behind those of an expression; none where it has more. That takes no memory, and
//! no longer than the nodes that are left.

ghost use Rattle.std.specs.Prelude.{◌≡◌, map};
ghost use Rattle.rtl_const.specs.Constant.{constant};
ghost use Rattle.rtl_tree.specs.TreeExpr.{formula, formula_row};
ghost use Rattle.elab_scope.specs.Names.{meanings, numbers_in};
ghost use Rattle.elab_nodes.specs.Nodes.{argument_count, index_count, node_count, row_count};
ghost use Rattle.elab_nodes.specs.Spares.{spared};

use crate::spare::spare;
use elab_scope::names::Names;
use elab_scope::operators::{Operation, binary};
use rtl_const::evaluate::constant;
use rtl_tree::tree::expr::Expr;
use rtl_tree::tree::operators::SystemFunction;

/// How many of so many nodes are left behind those of an expression; none where it has more.
#[cycle(spend)]
#[tactic(auto, using(crate::proofs::Sparing::spared_more, crate::proofs::Sparing::spared_zero))]
pub fn spend(e: &Expr, names: &Names, left: u32) -> Option<u32>
    ensures { result ≡ spared left (node_count (meanings names.now) (formula e.now)) }
{
    match e {
        Expr::Number(_, _) | Expr::Read(_) | Expr::ReadPart(_, _, _, _) => spare(left, 1),
        Expr::ReadBit(_, index) => spend_index(index, names, spare(left, 1)?),
        Expr::Parens(_, inner) => spend(inner, names, left),
        Expr::Apply(function, _, inner) => spend_argument(*function, inner, names, spare(left, 1)?),
        Expr::Concat(_, parts) => spend_row(parts, names, spare(left, 1)?),
        Expr::Repeat(_, _, parts) => spend_row(parts, names, spare(left, 2)?),
        Expr::Unary(_, _, operand) => spend(operand, names, spare(left, 1)?),
        Expr::Binary(operator, _, a, b) => {
            let left = spare(left, 1)?;
            match binary(*operator) {
                Operation::Power => Some(left),
                _ => spend(b, names, spend(a, names, left)?),
            }
        }
        Expr::Choose(_, condition, taken, otherwise) => {
            let left = spend(condition, names, spare(left, 1)?)?;
            spend(otherwise, names, spend(taken, names, left)?)
        }
    }
}

/// The same for the argument of a function: that of `$clog2` isn't in the design.
#[cycle(spend)]
#[tactic(auto, using(crate::proofs::Sparing::spared_zero))]
fn spend_argument(function: SystemFunction, e: &Expr, names: &Names, left: u32) -> Option<u32>
    ensures { result ≡ spared left
        (argument_count function (node_count (meanings names.now) (formula e.now))) }
{
    match function {
        SystemFunction::Signed | SystemFunction::Unsigned => spend(e, names, left),
        SystemFunction::Clog2 => Some(left),
    }
}

/// The same for the index of a bit: a constant one has none.
#[cycle(spend)]
#[tactic(auto, using(crate::proofs::Sparing::spared_zero))]
pub(crate) fn spend_index(index: &Expr, names: &Names, left: u32) -> Option<u32>
    ensures { result ≡ spared left
        (index_count (constant (numbers_in (meanings names.now)) (formula index.now))
        (node_count (meanings names.now) (formula index.now))) }
{
    match constant(index, names) {
        Ok(_) => Some(left),
        Err(_) => spend(index, names, left),
    }
}

/// The same for parts beside one another.
#[cycle(spend)]
#[tactic(auto, using(crate::proofs::Sparing::spared_more, crate::proofs::Sparing::spared_zero))]
fn spend_row(parts: &[Expr], names: &Names, left: u32) -> Option<u32>
    ensures { result ≡ spared left
        (row_count (meanings names.now) (formula_row (map formula parts.now))) }
{
    let mut left = left;
    for part in parts {
        left = spend(part, names, left)?;
    }
    Some(left)
}
