// Copies of statements.

ghost use Rattle.std.specs.Prelude.{◌≡◌, IfOk, map};
ghost use Rattle.std.specs.Option.{option_map};
ghost use Rattle.rtl_tree.specs.TreeExpr.{formula, identifier};
ghost use Rattle.rtl_tree.specs.TreeStmt as tree;
ghost use Rattle.rtl_tree.specs.TreeStmt.{action, action_row, branch, branch_row, pause, target};
ghost use Rattle.elab_renames.specs.Renames.{renamed_action, renamed_branch, renamed_formula, renamed_identifier, renaming};

use crate::expressions::{boxed_expr, renamed_exprs};
use crate::naming::{Naming, renamed_name, same_label};
use crate::targets::{boxed_delay, boxed_optional_delay, boxed_target};
use rtl_tree::tree::expr::Expr;
use rtl_tree::tree::names::Name;
use rtl_tree::tree::stmt::{AssignmentKind, CaseItem, CaseKind, Delay, Lvalue, Stmt};
use std::alloc::Global;
use text_ground::memory::Memory;

/// What stands before the selector of a `case`.
#[derive(Clone, Copy)]
struct CaseHead {
    at: u32,
    kind: CaseKind,
    full: bool,
    parallel: bool,
}

/// `name = value` in the head of a `for`.
#[derive(Drop)]
struct Step {
    name: Name,
    value: Box<Expr>,
}

#[cycle(statement)]
#[tactic(auto, using(crate::proofs::Views::block_renamed, crate::proofs::Views::case_renamed))]
pub(crate) fn renamed_stmt(
    alloc: Global,
    naming: &Naming<'_>,
    written: &Stmt,
) -> Result<Stmt, Memory>
    ensures { IfOk result (λ made. action made
        ≡ renamed_action (renaming naming.now) (action written.now)) }
{
    match written {
        Stmt::Null(at) => Ok(Stmt::Null(*at)),
        Stmt::Delayed(delay, body) => delayed(alloc, naming, body, delay),
        Stmt::Assign(target, kind, delay, value) => {
            assign(alloc, naming, target, *kind, delay, value)
        }
        Stmt::If(at, condition, taken) => conditional(alloc, naming, taken, *at, condition),
        Stmt::IfElse(at, condition, taken, otherwise) => {
            let otherwise = boxed_stmt(alloc, naming, otherwise)?;
            alternative(alloc, naming, taken, *at, condition, otherwise)
        }
        Stmt::Case {
            at,
            kind,
            full,
            parallel,
            selector,
            items,
        } => {
            let head = CaseHead {
                at: *at,
                kind: *kind,
                full: *full,
                parallel: *parallel,
            };
            case(alloc, naming, items, head, selector)
        }
        Stmt::For {
            at,
            index,
            start,
            condition,
            stepped,
            step,
            body,
        } => {
            let first = renamed_step(alloc, naming, index, start)?;
            let next = renamed_step(alloc, naming, stepped, step)?;
            loop_of(alloc, naming, body, *at, first, condition, next)
        }
        Stmt::Block(at, label, body) => block(alloc, naming, body, *at, label),
    }
}

/// The same in a box: what is held by value while more is copied is dear to prove.
#[cycle(statement)]
fn boxed_stmt(alloc: Global, naming: &Naming<'_>, written: &Stmt) -> Result<Box<Stmt>, Memory>
    ensures { IfOk result (λ made. action made.value
        ≡ renamed_action (renaming naming.now) (action written.now)) }
{
    let made = renamed_stmt(alloc, naming, written)?;
    Ok(Box::new(alloc, made)?)
}

#[cycle(statement)]
fn delayed(alloc: Global, naming: &Naming<'_>, body: &Stmt, delay: &Delay) -> Result<Stmt, Memory>
    ensures { IfOk result (λ made. action made ≡ renamed_action (renaming naming.now)
        (tree.Delayed (pause delay.now) (action body.now))) }
{
    let delay = boxed_delay(alloc, naming, delay)?;
    let body = boxed_stmt(alloc, naming, body)?;
    Ok(Stmt::Delayed(Box::into_inner(delay), body))
}

fn assign(
    alloc: Global,
    naming: &Naming<'_>,
    written: &Lvalue,
    kind: AssignmentKind,
    delay: &Option<Delay>,
    value: &Expr,
) -> Result<Stmt, Memory>
    ensures { IfOk result (λ made. action made ≡ renamed_action (renaming naming.now)
        (tree.Assign (target written.now) kind (option_map pause delay.now) (formula value.now))) }
{
    let target = boxed_target(alloc, naming, written)?;
    let delay = boxed_optional_delay(alloc, naming, delay)?;
    let value = boxed_expr(alloc, naming, value)?;
    Ok(Stmt::Assign(
        Box::into_inner(target),
        kind,
        Box::into_inner(delay),
        Box::into_inner(value),
    ))
}

#[cycle(statement)]
fn conditional(
    alloc: Global,
    naming: &Naming<'_>,
    taken: &Stmt,
    at: u32,
    condition: &Expr,
) -> Result<Stmt, Memory>
    ensures { IfOk result (λ made. action made ≡ renamed_action (renaming naming.now)
        (tree.If at (formula condition.now) (action taken.now))) }
{
    let condition = boxed_expr(alloc, naming, condition)?;
    let taken = boxed_stmt(alloc, naming, taken)?;
    Ok(Stmt::If(at, Box::into_inner(condition), taken))
}

/// An `if` with an `else`, of which the last statement is made.
#[cycle(statement)]
fn alternative(
    alloc: Global,
    naming: &Naming<'_>,
    taken: &Stmt,
    at: u32,
    condition: &Expr,
    otherwise: Box<Stmt>,
) -> Result<Stmt, Memory>
    ensures { let f = renaming naming.now in IfOk result (λ made. action made
        ≡ tree.IfElse at (renamed_formula f (formula condition.now))
        (renamed_action f (action taken.now)) (action otherwise.value)) }
{
    let condition = boxed_expr(alloc, naming, condition)?;
    let taken = boxed_stmt(alloc, naming, taken)?;
    Ok(Stmt::IfElse(at, Box::into_inner(condition), taken, otherwise))
}

#[cycle(statement)]
#[tactic(auto, using(crate::proofs::Rows::branches_renamed))]
fn case(
    alloc: Global,
    naming: &Naming<'_>,
    items: &[CaseItem],
    head: CaseHead,
    selector: &Expr,
) -> Result<Stmt, Memory>
    ensures { IfOk result (λ made. action made ≡ renamed_action (renaming naming.now)
        (tree.Case head.at head.kind head.full head.parallel (formula selector.now)
        (branch_row (map branch items.now)))) }
{
    let selector = boxed_expr(alloc, naming, selector)?;
    let items = renamed_items(alloc, naming, items)?;
    Ok(Stmt::case(
        head.at,
        head.kind,
        head.full,
        head.parallel,
        Box::into_inner(selector),
        items,
    ))
}

fn renamed_step(
    alloc: Global,
    naming: &Naming<'_>,
    name: &Name,
    value: &Expr,
) -> Result<Step, Memory>
    ensures name { IfOk result (λ made. identifier made.name
        ≡ renamed_identifier (renaming naming.now) (identifier name.now)) }
    ensures value { IfOk result (λ made. formula made.value.value
        ≡ renamed_formula (renaming naming.now) (formula value.now)) }
{
    let name = renamed_name(alloc, naming, name)?;
    let value = boxed_expr(alloc, naming, value)?;
    Ok(Step { name, value })
}

/// A `for`, of which the first number and the step are made.
#[cycle(statement)]
fn loop_of(
    alloc: Global,
    naming: &Naming<'_>,
    body: &Stmt,
    at: u32,
    first: Step,
    condition: &Expr,
    next: Step,
) -> Result<Stmt, Memory>
    ensures { let f = renaming naming.now in IfOk result (λ made. action made
        ≡ tree.For at (identifier first.name) (formula first.value.value)
        (renamed_formula f (formula condition.now)) (identifier next.name)
        (formula next.value.value) (renamed_action f (action body.now))) }
{
    let condition = boxed_expr(alloc, naming, condition)?;
    let body = boxed_stmt(alloc, naming, body)?;
    Ok(Stmt::For {
        at,
        index: first.name,
        start: Box::into_inner(first.value),
        condition: Box::into_inner(condition),
        stepped: next.name,
        step: Box::into_inner(next.value),
        body,
    })
}

#[cycle(statement)]
#[tactic(auto, using(crate::proofs::Rows::actions_renamed))]
fn block(
    alloc: Global,
    naming: &Naming<'_>,
    body: &[Stmt],
    at: u32,
    label: &Option<Name>,
) -> Result<Stmt, Memory>
    ensures { IfOk result (λ made. action made ≡ renamed_action (renaming naming.now)
        (tree.Block at (option_map identifier label.now) (action_row (map action body.now)))) }
{
    let label = same_label(alloc, label)?;
    let body = renamed_stmts(alloc, naming, body)?;
    Ok(Stmt::block(at, label, body))
}

/// Statements in a row.
#[cycle(statement)]
fn renamed_stmts(alloc: Global, naming: &Naming<'_>, all: &[Stmt]) -> Result<Vec<Stmt>, Memory>
    ensures { IfOk result (λ made. map action made.items
        ≡ map (renamed_action (renaming naming.now)) (map action all.now)) }
{
    let mut made = Vec::with_capacity(alloc, all.len())?;
    for written in all {
        made.push(renamed_stmt(alloc, naming, written)?)?;
    }
    Ok(made)
}

#[cycle(statement)]
fn renamed_case_item(
    alloc: Global,
    naming: &Naming<'_>,
    item: &CaseItem,
) -> Result<CaseItem, Memory>
    ensures { IfOk result (λ made. branch made
        ≡ renamed_branch (renaming naming.now) (branch item.now)) }
{
    match item {
        CaseItem::Labelled(labels, body) => labelled(alloc, naming, body, labels),
        CaseItem::Default(at, body) => {
            let body = renamed_stmt(alloc, naming, body)?;
            Ok(CaseItem::Default(*at, body))
        }
    }
}

#[cycle(statement)]
fn labelled(
    alloc: Global,
    naming: &Naming<'_>,
    body: &Stmt,
    labels: &[Expr],
) -> Result<CaseItem, Memory>
    ensures { IfOk result (λ made. branch made ≡ renamed_branch (renaming naming.now)
        (tree.Labelled (map formula labels.now) (action body.now))) }
{
    let labels = renamed_exprs(alloc, naming, labels)?;
    let body = renamed_stmt(alloc, naming, body)?;
    Ok(CaseItem::Labelled(labels, body))
}

/// The items of a `case`.
#[cycle(statement)]
fn renamed_items(
    alloc: Global,
    naming: &Naming<'_>,
    all: &[CaseItem],
) -> Result<Vec<CaseItem>, Memory>
    ensures { IfOk result (λ made. map branch made.items
        ≡ map (renamed_branch (renaming naming.now)) (map branch all.now)) }
{
    let mut made = Vec::with_capacity(alloc, all.len())?;
    for item in all {
        made.push(renamed_case_item(alloc, naming, item)?)?;
    }
    Ok(made)
}
