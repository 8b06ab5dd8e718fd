//! Genvars in expressions.

ghost use Rattle.std.specs.Prelude.{◌≡◌, map};
ghost use Rattle.std.specs.List.{flat_map};
ghost use Rattle.std.specs.Option.{option_map};
ghost use Rattle.elab_genvars.specs.Genvars.{bounds_genvars, formula_genvars, in_any, told_of};
ghost use Rattle.elab_scope.specs.Faults.{after};
ghost use Rattle.rtl_tree.specs.TreeExpr.{bounds, formula};

use crate::sorts::Sorts;
use crate::uses::judge_use;
use rtl_tree::tree::expr::{Expr, Range};
use rtl_tree::tree::names::Name;

/// What is told after `best` of the genvars that the expression may not use so.
#[cycle(judge_exprs)]
#[tactic(auto, using(elab_scope::proofs::Least::after_append, crate::proofs::TreeGenvars::concat_genvars))]
pub fn judge_expr_genvars<'a, S: Sorts>(
    e: &'a Expr,
    names: &S,
    best: Option<&'a Name>,
) -> Option<&'a Name>
    ensures { option_map told_of result
        ≡ after (option_map told_of best.entry)
        (formula_genvars (S.sorts names.now) (formula e.now)) }
{
    match e {
        Expr::Number(_, _) => best,
        Expr::Read(name) => judge_use(name, false, names, best),
        Expr::ReadBit(name, index) => {
            let best = judge_use(name, true, names, best);
            judge_expr_genvars(index, names, best)
        }
        Expr::ReadPart(name, _, first, second) => {
            let best = judge_use(name, true, names, best);
            let best = judge_expr_genvars(first, names, best);
            judge_expr_genvars(second, names, best)
        }
        Expr::Parens(_, inner) | Expr::Apply(_, _, inner) | Expr::Unary(_, _, inner) => {
            judge_expr_genvars(inner, names, best)
        }
        Expr::Binary(_, _, left, right) => {
            let best = judge_expr_genvars(left, names, best);
            judge_expr_genvars(right, names, best)
        }
        Expr::Concat(_, parts) => judge_exprs(parts, names, best),
        Expr::Repeat(_, times, parts) => {
            let best = judge_expr_genvars(times, names, best);
            judge_exprs(parts, names, best)
        }
        Expr::Choose(_, condition, taken, otherwise) => {
            let best = judge_expr_genvars(condition, names, best);
            let best = judge_expr_genvars(taken, names, best);
            judge_expr_genvars(otherwise, names, best)
        }
    }
}

#[cycle(judge_exprs)]
#[tactic(auto, using(std::proofs::lemmas::Grind::common_steps, elab_scope::proofs::Least::after_append))]
pub(crate) fn judge_exprs<'a, S: Sorts>(
    all: &'a [Expr],
    names: &S,
    best: Option<&'a Name>,
) -> Option<&'a Name>
    ensures { option_map told_of result ≡ after (option_map told_of best.entry)
        (flat_map (formula_genvars (S.sorts names.now)) (map formula all.now)) }
{
    let mut best = best;
    for e in all {
        best = judge_expr_genvars(e, names, best);
    }
    best
}

/// Of an expression that may be left out.
pub(crate) fn judge_optional<'a, S: Sorts>(
    e: &'a Option<Expr>,
    names: &S,
    best: Option<&'a Name>,
) -> Option<&'a Name>
    ensures { option_map told_of result ≡ after (option_map told_of best.entry)
        (in_any (formula_genvars (S.sorts names.now)) (option_map formula e.now)) }
{
    match e {
        Some(e) => judge_expr_genvars(e, names, best),
        None => best,
    }
}

/// Of a range that may be left out.
#[tactic(auto, using(elab_scope::proofs::Least::after_append))]
pub(crate) fn judge_range<'a, S: Sorts>(
    range: &'a Option<Range>,
    names: &S,
    best: Option<&'a Name>,
) -> Option<&'a Name>
    ensures { option_map told_of result ≡ after (option_map told_of best.entry)
        (in_any (bounds_genvars (S.sorts names.now)) (option_map bounds range.now)) }
{
    match range {
        Some(range) => {
            let best = judge_expr_genvars(&range.msb, names, best);
            judge_expr_genvars(&range.lsb, names, best)
        }
        None => best,
    }
}
