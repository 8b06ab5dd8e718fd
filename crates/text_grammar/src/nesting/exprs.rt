// How deep expressions are nested.

ghost use Rattle.std.specs.Prelude.{◌≡◌, ◌+◌, ◌-◌, ◌^◌, map, min};
ghost use Rattle.std.specs.Option.{option_map};
ghost use Rattle.text_grammar.specs.Depth.{bounds_depth, formula_depth, greatest, if_any};
ghost use Rattle.rtl_tree.specs.TreeExpr.{bounds, formula};

use rtl_tree::tree::expr::{Expr, Range};

/// One deeper; numbers stop at the greatest u32.
pub(crate) fn above(inner: u32) -> u32
    ensures { result ≡ min (1 + inner) (2 ^ 32 - 1) }
{
    inner.saturating_add(1)
}

#[cycle(nested_exprs)]
pub(crate) fn expr_depth(e: &Expr) -> u32
    ensures { result ≡ min (formula_depth (formula e.now)) (2 ^ 32 - 1) }
{
    match e {
        Expr::Number(_, _) | Expr::Read(_) => 1,
        Expr::ReadBit(_, inner)
        | Expr::Parens(_, inner)
        | Expr::Apply(_, _, inner)
        | Expr::Unary(_, _, inner) => above(expr_depth(inner)),
        Expr::ReadPart(_, _, left, right) | Expr::Binary(_, _, left, right) => {
            above(expr_depth(left).max(expr_depth(right)))
        }
        Expr::Concat(_, parts) => above(exprs_depth(parts)),
        Expr::Repeat(_, times, parts) => above(expr_depth(times).max(exprs_depth(parts))),
        Expr::Choose(_, condition, taken, otherwise) => {
            above(expr_depth(condition).max(expr_depth(taken).max(expr_depth(otherwise))))
        }
    }
}

#[cycle(nested_exprs)]
pub(crate) fn exprs_depth(all: &[Expr]) -> u32
    ensures { result ≡ min (greatest formula_depth (map formula all.now)) (2 ^ 32 - 1) }
{
    let mut most = 0;
    for e in all {
        most = expr_depth(e).max(most);
    }
    most
}

/// Of an expression that may be left out.
pub(crate) fn optional_depth(e: &Option<Expr>) -> u32
    ensures { result ≡ min (if_any formula_depth (option_map formula e.now)) (2 ^ 32 - 1) }
{
    match e {
        Some(e) => expr_depth(e),
        None => 0,
    }
}

/// Of a range that may be left out.
pub(crate) fn range_depth(range: &Option<Range>) -> u32
    ensures { result ≡ min (if_any bounds_depth (option_map bounds range.now)) (2 ^ 32 - 1) }
{
    match range {
        Some(range) => expr_depth(&range.msb).max(expr_depth(&range.lsb)),
        None => 0,
    }
}
