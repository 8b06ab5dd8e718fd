// How much expressions take.

ghost use Rattle.std.specs.Prelude.{◌≡◌, ◌-◌, ◌^◌, map, min};
ghost use Rattle.std.specs.Option.{option_map};
ghost use Rattle.elab_sizes.specs.Sizes.{bounds_size, formula_size, if_any, sizes};
ghost use Rattle.rtl_tree.specs.TreeExpr.{bounds, formula};

use crate::names::{name_size, node};
use rtl_tree::tree::expr::{Expr, Range};

#[cycle(sized_exprs)]
pub fn expr_size(e: &Expr) -> u32
    ensures { result ≡ min (formula_size (formula e.now)) (2 ^ 32 - 1) }
{
    match e {
        Expr::Number(_, _) => 1,
        Expr::Read(name) => node(name_size(name)),
        Expr::ReadBit(name, index) => node(name_size(name).saturating_add(expr_size(index))),
        Expr::ReadPart(name, _, first, second) => {
            let ends = expr_size(first).saturating_add(expr_size(second));
            node(name_size(name).saturating_add(ends))
        }
        Expr::Parens(_, inner) | Expr::Apply(_, _, inner) | Expr::Unary(_, _, inner) => {
            node(expr_size(inner))
        }
        Expr::Binary(_, _, left, right) => node(expr_size(left).saturating_add(expr_size(right))),
        Expr::Concat(_, parts) => node(exprs_size(parts)),
        Expr::Repeat(_, times, parts) => node(expr_size(times).saturating_add(exprs_size(parts))),
        Expr::Choose(_, condition, taken, otherwise) => {
            let arms = expr_size(taken).saturating_add(expr_size(otherwise));
            node(expr_size(condition).saturating_add(arms))
        }
    }
}

#[cycle(sized_exprs)]
pub(crate) fn exprs_size(all: &[Expr]) -> u32
    ensures { result ≡ min (sizes formula_size (map formula all.now)) (2 ^ 32 - 1) }
{
    let mut sum: u32 = 0;
    for e in all {
        sum = sum.saturating_add(expr_size(e));
    }
    sum
}

/// Of an expression that may be left out.
pub(crate) fn optional_size(e: &Option<Expr>) -> u32
    ensures { result ≡ min (if_any formula_size (option_map formula e.now)) (2 ^ 32 - 1) }
{
    match e {
        Some(e) => expr_size(e),
        None => 0,
    }
}

/// Of a range that may be left out.
pub(crate) fn range_size(range: &Option<Range>) -> u32
    ensures { result ≡ min (if_any bounds_size (option_map bounds range.now)) (2 ^ 32 - 1) }
{
    match range {
        Some(range) => expr_size(&range.msb).saturating_add(expr_size(&range.lsb)),
        None => 0,
    }
}
