// Genvars in targets, delays and statements.

ghost use Rattle.std.specs.Prelude.{◌≡◌, ◌++◌, false, map};
ghost use Rattle.std.specs.List.{flat_map};
ghost use Rattle.std.specs.Option.{option_map};
ghost use Rattle.elab_genvars.specs.Genvars.{action_genvars, branch_genvars, formula_genvars, genvar_faults, in_any, pause_genvars, target_genvars, told_of};
ghost use Rattle.elab_scope.specs.Faults.{after};
ghost use Rattle.rtl_tree.specs.TreeExpr.{formula, identifier};
ghost use Rattle.rtl_tree.specs.TreeStmt.{action, branch, pause, target};

use crate::exprs::{judge_expr_genvars, judge_exprs};
use crate::sorts::Sorts;
use crate::uses::judge_use;
use rtl_tree::tree::expr::Expr;
use rtl_tree::tree::names::Name;
use rtl_tree::tree::stmt::{CaseItem, Delay, Lvalue, Stmt, Ticks};

#[cycle(judge_targets)]
#[tactic(auto, using(elab_scope::proofs::Least::after_append, crate::proofs::TreeGenvars::joined_genvars))]
pub(crate) fn judge_target<'a, S: Sorts>(
    lvalue: &'a Lvalue,
    names: &S,
    best: Option<&'a Name>,
) -> Option<&'a Name>
    ensures { option_map told_of result ≡ after (option_map told_of best.entry)
        (target_genvars (S.sorts names.now) (target lvalue.now)) }
{
    match lvalue {
        Lvalue::Whole(name) => judge_use(name, false, names, best),
        Lvalue::Bit(name, index) => {
            let best = judge_use(name, true, names, best);
            judge_expr_genvars(index, names, best)
        }
        Lvalue::Part(name, _, first, second) => {
            let best = judge_use(name, true, names, best);
            let best = judge_expr_genvars(first, names, best);
            judge_expr_genvars(second, names, best)
        }
        Lvalue::Concat(_, parts) => judge_targets(parts, names, best),
    }
}

#[cycle(judge_targets)]
#[tactic(auto, using(std::proofs::lemmas::Grind::common_steps, elab_scope::proofs::Least::after_append))]
pub(crate) fn judge_targets<'a, S: Sorts>(
    all: &'a [Lvalue],
    names: &S,
    best: Option<&'a Name>,
) -> Option<&'a Name>
    ensures { option_map told_of result ≡ after (option_map told_of best.entry)
        (flat_map (target_genvars (S.sorts names.now)) (map target all.now)) }
{
    let mut best = best;
    for lvalue in all {
        best = judge_target(lvalue, names, best);
    }
    best
}

fn judge_delay<'a, S: Sorts>(
    delay: &'a Delay,
    names: &S,
    best: Option<&'a Name>,
) -> Option<&'a Name>
    ensures { option_map told_of result ≡ after (option_map told_of best.entry)
        (pause_genvars (S.sorts names.now) (pause delay.now)) }
{
    match &delay.ticks {
        Ticks::Number(_) => best,
        Ticks::Name(name) => judge_use(name, false, names, best),
        Ticks::Parens(value) => judge_expr_genvars(value, names, best),
    }
}

/// Of a delay that may be left out.
pub(crate) fn judge_optional_delay<'a, S: Sorts>(
    delay: &'a Option<Delay>,
    names: &S,
    best: Option<&'a Name>,
) -> Option<&'a Name>
    ensures { option_map told_of result ≡ after (option_map told_of best.entry)
        (in_any (pause_genvars (S.sorts names.now)) (option_map pause delay.now)) }
{
    match delay {
        Some(delay) => judge_delay(delay, names, best),
        None => best,
    }
}

/// A name in the head of a loop, and the value that it is given there.
#[tactic(auto, using(elab_scope::proofs::Least::after_append))]
fn judge_given<'a, S: Sorts>(
    name: &'a Name,
    value: &'a Expr,
    names: &S,
    best: Option<&'a Name>,
) -> Option<&'a Name>
    ensures { let scope = S.sorts names.now in
        option_map told_of result ≡ after (option_map told_of best.entry)
        (genvar_faults scope false (identifier name.now) ++ formula_genvars scope (formula value.now)) }
{
    judge_expr_genvars(value, names, judge_use(name, false, names, best))
}

#[cycle(judge_stmts)]
#[tactic(auto, using(elab_scope::proofs::Least::after_append, crate::proofs::TreeGenvars::block_genvars))]
pub(crate) fn judge_stmt<'a, S: Sorts>(
    stmt: &'a Stmt,
    names: &S,
    best: Option<&'a Name>,
) -> Option<&'a Name>
    ensures { option_map told_of result ≡ after (option_map told_of best.entry)
        (action_genvars (S.sorts names.now) (action stmt.now)) }
{
    match stmt {
        Stmt::Null(_) => best,
        Stmt::Delayed(delay, body) => judge_stmt(body, names, judge_delay(delay, names, best)),
        Stmt::Assign(target, _, delay, value) => {
            let best = judge_optional_delay(delay, names, judge_target(target, names, best));
            judge_expr_genvars(value, names, best)
        }
        Stmt::If(_, condition, taken) => {
            judge_stmt(taken, names, judge_expr_genvars(condition, names, best))
        }
        Stmt::IfElse(_, condition, taken, otherwise) => {
            let best = judge_expr_genvars(condition, names, best);
            judge_stmt(otherwise, names, judge_stmt(taken, names, best))
        }
        Stmt::Case {
            selector,
            items,
            ..
        } => judge_case_items(items, names, judge_expr_genvars(selector, names, best)),
        Stmt::For {
            index,
            start,
            condition,
            stepped,
            step,
            body,
            ..
        } => {
            let best = judge_given(index, start, names, best);
            let best = judge_expr_genvars(condition, names, best);
            let best = judge_given(stepped, step, names, best);
            judge_stmt(body, names, best)
        }
        Stmt::Block(_, _, body) => judge_stmts(body, names, best),
    }
}

#[cycle(judge_stmts)]
#[tactic(auto, using(std::proofs::lemmas::Grind::common_steps, elab_scope::proofs::Least::after_append))]
fn judge_stmts<'a, S: Sorts>(all: &'a [Stmt], names: &S, best: Option<&'a Name>) -> Option<&'a Name>
    ensures { option_map told_of result ≡ after (option_map told_of best.entry)
        (flat_map (action_genvars (S.sorts names.now)) (map action all.now)) }
{
    let mut best = best;
    for stmt in all {
        best = judge_stmt(stmt, names, best);
    }
    best
}

#[cycle(judge_stmts)]
#[tactic(auto, using(elab_scope::proofs::Least::after_append))]
fn judge_case_item<'a, S: Sorts>(
    item: &'a CaseItem,
    names: &S,
    best: Option<&'a Name>,
) -> Option<&'a Name>
    ensures { option_map told_of result ≡ after (option_map told_of best.entry)
        (branch_genvars (S.sorts names.now) (branch item.now)) }
{
    match item {
        CaseItem::Labelled(labels, body) => judge_stmt(
            body,
            names,
            judge_exprs(labels, names, best),
        ),
        CaseItem::Default(_, body) => judge_stmt(body, names, best),
    }
}

#[cycle(judge_stmts)]
#[tactic(auto, using(std::proofs::lemmas::Grind::common_steps, elab_scope::proofs::Least::after_append))]
fn judge_case_items<'a, S: Sorts>(
    all: &'a [CaseItem],
    names: &S,
    best: Option<&'a Name>,
) -> Option<&'a Name>
    ensures { option_map told_of result ≡ after (option_map told_of best.entry)
        (flat_map (branch_genvars (S.sorts names.now)) (map branch all.now)) }
{
    let mut best = best;
    for item in all {
        best = judge_case_item(item, names, best);
    }
    best
}
