// How deep targets and statements are nested.

ghost use Rattle.std.specs.Prelude.{◌≡◌, ◌-◌, ◌^◌, map, min};
ghost use Rattle.std.specs.Option.{option_map};
ghost use Rattle.text_grammar.specs.Depth.{action_depth, branch_depth, greatest, if_any, pause_depth, span_depth, target_depth};
ghost use Rattle.rtl_tree.specs.TreeStmt.{action, branch, pause, span, target};

use crate::nesting::exprs::{above, expr_depth, exprs_depth};
use rtl_tree::tree::stmt::{CaseItem, Delay, Lvalue, Stmt, Ticks};

#[cycle(nested_targets)]
pub(crate) fn target_depth(lvalue: &Lvalue) -> u32
    ensures { result ≡ min (target_depth (target lvalue.now)) (2 ^ 32 - 1) }
{
    match lvalue {
        Lvalue::Whole(_) => 1,
        Lvalue::Bit(_, index) => above(expr_depth(index)),
        Lvalue::Part(_, _, first, second) => above(expr_depth(first).max(expr_depth(second))),
        Lvalue::Concat(_, parts) => above(targets_depth(parts)),
    }
}

#[cycle(nested_targets)]
pub(crate) fn targets_depth(all: &[Lvalue]) -> u32
    ensures { result ≡ min (greatest target_depth (map target all.now)) (2 ^ 32 - 1) }
{
    let mut most = 0;
    for lvalue in all {
        most = target_depth(lvalue).max(most);
    }
    most
}

/// Of how long a delay is, which holds an expression only in parentheses.
pub(crate) fn ticks_depth(ticks: &Ticks) -> u32
    ensures { result ≡ min (span_depth (span ticks.now)) (2 ^ 32 - 1) }
{
    match ticks {
        Ticks::Number(_) | Ticks::Name(_) => 0,
        Ticks::Parens(value) => expr_depth(value),
    }
}

pub(crate) fn delay_depth(delay: &Delay) -> u32
    ensures { result ≡ min (pause_depth (pause delay.now)) (2 ^ 32 - 1) }
{
    ticks_depth(&delay.ticks)
}

/// Of a delay that may be left out.
pub(crate) fn optional_delay_depth(delay: &Option<Delay>) -> u32
    ensures { result ≡ min (if_any pause_depth (option_map pause delay.now)) (2 ^ 32 - 1) }
{
    match delay {
        Some(delay) => delay_depth(delay),
        None => 0,
    }
}

#[cycle(nested_stmts)]
pub(crate) fn stmt_depth(stmt: &Stmt) -> u32
    ensures { result ≡ min (action_depth (action stmt.now)) (2 ^ 32 - 1) }
{
    match stmt {
        Stmt::Null(_) => 1,
        Stmt::Delayed(delay, body) => above(delay_depth(delay).max(stmt_depth(body))),
        Stmt::Assign(target, _, delay, value) => above(target_depth(target).max(
            optional_delay_depth(delay).max(expr_depth(value)),
        )),
        Stmt::If(_, condition, taken) => above(expr_depth(condition).max(stmt_depth(taken))),
        Stmt::IfElse(_, condition, taken, otherwise) => above(expr_depth(condition).max(stmt_depth(
            taken,
        ).max(stmt_depth(otherwise)))),
        Stmt::Case {
            selector,
            items,
            ..
        } => { above(expr_depth(selector).max(case_items_depth(items))) }
        Stmt::For {
            start,
            condition,
            step,
            body,
            ..
        } => above(expr_depth(start).max(expr_depth(condition).max(expr_depth(step).max(stmt_depth(
            body,
        ))))),
        Stmt::Block(_, _, body) => above(stmts_depth(body)),
    }
}

#[cycle(nested_stmts)]
fn stmts_depth(all: &[Stmt]) -> u32
    ensures { result ≡ min (greatest action_depth (map action all.now)) (2 ^ 32 - 1) }
{
    let mut most = 0;
    for stmt in all {
        most = stmt_depth(stmt).max(most);
    }
    most
}

#[cycle(nested_stmts)]
fn case_item_depth(item: &CaseItem) -> u32
    ensures { result ≡ min (branch_depth (branch item.now)) (2 ^ 32 - 1) }
{
    match item {
        CaseItem::Labelled(labels, body) => exprs_depth(labels).max(stmt_depth(body)),
        CaseItem::Default(_, body) => stmt_depth(body),
    }
}

#[cycle(nested_stmts)]
fn case_items_depth(all: &[CaseItem]) -> u32
    ensures { result ≡ min (greatest branch_depth (map branch all.now)) (2 ^ 32 - 1) }
{
    let mut most = 0;
    for item in all {
        most = case_item_depth(item).max(most);
    }
    most
}
