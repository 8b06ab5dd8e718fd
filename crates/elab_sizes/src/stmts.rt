// How much targets, delays and statements take.

ghost use Rattle.std.specs.Prelude.{◌≡◌, ◌-◌, ◌^◌, map, min};
ghost use Rattle.std.specs.Option.{option_map};
ghost use Rattle.elab_sizes.specs.Sizes.{action_size, branch_size, if_any, pause_size, sizes, span_size, target_size};
ghost use Rattle.rtl_tree.specs.TreeStmt.{action, branch, pause, span, target};

use crate::exprs::{expr_size, exprs_size};
use crate::names::{name_size, node, optional_name_size};
use rtl_tree::tree::stmt::{CaseItem, Delay, Lvalue, Stmt, Ticks};

#[cycle(sized_targets)]
pub(crate) fn target_size(lvalue: &Lvalue) -> u32
    ensures { result ≡ min (target_size (target lvalue.now)) (2 ^ 32 - 1) }
{
    match lvalue {
        Lvalue::Whole(name) => node(name_size(name)),
        Lvalue::Bit(name, index) => node(name_size(name).saturating_add(expr_size(index))),
        Lvalue::Part(name, _, first, second) => {
            let ends = expr_size(first).saturating_add(expr_size(second));
            node(name_size(name).saturating_add(ends))
        }
        Lvalue::Concat(_, parts) => node(targets_size(parts)),
    }
}

#[cycle(sized_targets)]
pub(crate) fn targets_size(all: &[Lvalue]) -> u32
    ensures { result ≡ min (sizes target_size (map target all.now)) (2 ^ 32 - 1) }
{
    let mut sum: u32 = 0;
    for lvalue in all {
        sum = sum.saturating_add(target_size(lvalue));
    }
    sum
}

fn ticks_size(ticks: &Ticks) -> u32
    ensures { result ≡ min (span_size (span ticks.now)) (2 ^ 32 - 1) }
{
    match ticks {
        Ticks::Number(_) => 1,
        Ticks::Name(name) => name_size(name),
        Ticks::Parens(value) => expr_size(value),
    }
}

fn delay_size(delay: &Delay) -> u32
    ensures { result ≡ min (pause_size (pause delay.now)) (2 ^ 32 - 1) }
{
    ticks_size(&delay.ticks)
}

/// Of a delay that may be left out.
pub(crate) fn optional_delay_size(delay: &Option<Delay>) -> u32
    ensures { result ≡ min (if_any pause_size (option_map pause delay.now)) (2 ^ 32 - 1) }
{
    match delay {
        Some(delay) => delay_size(delay),
        None => 0,
    }
}

#[cycle(sized_stmts)]
pub(crate) fn stmt_size(stmt: &Stmt) -> u32
    ensures { result ≡ min (action_size (action stmt.now)) (2 ^ 32 - 1) }
{
    match stmt {
        Stmt::Null(_) => 1,
        Stmt::Delayed(delay, body) => node(delay_size(delay).saturating_add(stmt_size(body))),
        Stmt::Assign(target, _, delay, value) => {
            let given = optional_delay_size(delay).saturating_add(expr_size(value));
            node(target_size(target).saturating_add(given))
        }
        Stmt::If(_, condition, taken) => {
            node(expr_size(condition).saturating_add(stmt_size(taken)))
        }
        Stmt::IfElse(_, condition, taken, otherwise) => {
            let arms = stmt_size(taken).saturating_add(stmt_size(otherwise));
            node(expr_size(condition).saturating_add(arms))
        }
        Stmt::Case {
            selector,
            items,
            ..
        } => node(expr_size(selector).saturating_add(case_items_size(items))),
        Stmt::For {
            index,
            start,
            condition,
            stepped,
            step,
            body,
            ..
        } => {
            let turn = expr_size(step).saturating_add(stmt_size(body));
            let from_stepped = name_size(stepped).saturating_add(turn);
            let from_condition = expr_size(condition).saturating_add(from_stepped);
            let from_start = expr_size(start).saturating_add(from_condition);
            node(name_size(index).saturating_add(from_start))
        }
        Stmt::Block(_, label, body) => {
            node(optional_name_size(label).saturating_add(stmts_size(body)))
        }
    }
}

#[cycle(sized_stmts)]
fn stmts_size(all: &[Stmt]) -> u32
    ensures { result ≡ min (sizes action_size (map action all.now)) (2 ^ 32 - 1) }
{
    let mut sum: u32 = 0;
    for stmt in all {
        sum = sum.saturating_add(stmt_size(stmt));
    }
    sum
}

#[cycle(sized_stmts)]
fn case_item_size(item: &CaseItem) -> u32
    ensures { result ≡ min (branch_size (branch item.now)) (2 ^ 32 - 1) }
{
    match item {
        CaseItem::Labelled(labels, body) => exprs_size(labels).saturating_add(stmt_size(body)),
        CaseItem::Default(_, body) => stmt_size(body),
    }
}

#[cycle(sized_stmts)]
fn case_items_size(all: &[CaseItem]) -> u32
    ensures { result ≡ min (sizes branch_size (map branch all.now)) (2 ^ 32 - 1) }
{
    let mut sum: u32 = 0;
    for item in all {
        sum = sum.saturating_add(case_item_size(item));
    }
    sum
}
