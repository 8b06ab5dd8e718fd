//! The faults of bodies, in one walk: `for` is its turns, and an `if` whose condition is constant is the branch that
//! it takes. The walk takes no memory.

ghost use Rattle.std.specs.Prelude.{◌≡◌, ◌∷◌, [], ◌++◌, ℤ, Option, map};
ghost use Rattle.rtl_tree.specs.TreeExpr.{formula};
ghost use Rattle.rtl_tree.specs.TreeStmt.{If, action, action_row, branch, branch_row};
ghost use Rattle.elab_nodes.specs.elab_scope.Expressions.{faults};
ghost use Rattle.elab_nodes.specs.elab_scope.Names.{indexed, meanings};
ghost use Rattle.elab_nodes.specs.Totals.{case_count};
ghost use Rattle.elab_body.specs.Bodies.{all_turns, body_steps, branch_item_steps, branches_steps, counted, steps, turns};
ghost use Rattle.elab_body.specs.Courses.{chosen_steps, course, head_of};
ghost use Rattle.elab_body.specs.Steps.{Nodes, Statement, faulty, passed};

use crate::branches::{Chosen, branches_of, goes_on, judge_condition};
use crate::head::Head;
use crate::parts::{assignment, labels};
use crate::progress::Progress;
use elab_nodes::elab_scope::names::Names;
use rtl_const::evaluate::constant;
use rtl_const::params::Lookup;
use rtl_tree::tree::expr::Expr;
use rtl_tree::tree::stmt::{CaseItem, Stmt};

/// How many turns a loop may have.
pub(crate) const TURNS: u32 = 4096;

/// A body, after what came before it.
#[cycle(judge_body)]
#[tactic(auto, using(crate::proofs::Passing::passed_append, crate::proofs::Deciding::passed_else))]
pub fn judge_body<'a>(body: &'a Stmt, names: &mut Names, so_far: Progress<'a>) -> Progress<'a>
    ensures told { course result ≡ passed (course so_far.entry)
        (steps (action body.now) (meanings names.old)) }
    ensures same { meanings names.new ≡ meanings names.old }
{
    match body {
        Stmt::Null(_) => so_far,
        Stmt::Delayed(delay, body) => judge_body(body, names, so_far.pause(delay.at)),
        Stmt::Assign(written, kind, delay, value) => {
            assignment(written, *kind, delay, value, names, so_far)
        }
        Stmt::If(at, condition, taken) => judge_if(taken, *at, condition, names, so_far),
        Stmt::IfElse(at, condition, taken, otherwise) => {
            let so_far = judge_if(taken, *at, condition, names, so_far);
            let chosen = branches_of(constant(condition, names));
            judge_otherwise(chosen, otherwise, names, so_far)
        }
        Stmt::Case {
            at,
            selector,
            items,
            ..
        } => judge_case(*at, items, selector, names, so_far),
        Stmt::For {
            at,
            index,
            start,
            condition,
            stepped,
            step,
            body,
        } => {
            let head = Head::new(*at, index, start, condition, stepped, step);
            let so_far = head.judge(names, so_far);
            judge_loop(head, body, names, so_far)
        }
        Stmt::Block(at, _, body) => judge_bodies(body, names, so_far.count(*at)),
    }
}

/// An `if` without `else`.
#[cycle(judge_body)]
#[tactic(auto, using(crate::proofs::Passing::passed_append, crate::proofs::Deciding::passed_branches))]
fn judge_if<'a>(
    taken: &'a Stmt,
    at: u32,
    condition: &'a Expr,
    names: &mut Names,
    so_far: Progress<'a>,
) -> Progress<'a>
    ensures told { course result ≡ passed (course so_far.entry)
        (steps (If at (formula condition.now) (action taken.now)) (meanings names.old)) }
    ensures same { meanings names.new ≡ meanings names.old }
{
    let so_far = judge_condition(at, condition, names, so_far);
    match branches_of(constant(condition, names)) {
        Chosen::Taken | Chosen::Both => judge_body(taken, names, so_far),
        Chosen::Otherwise => so_far,
    }
}

/// The `else` of an `if` that is judged already.
#[cycle(judge_body)]
fn judge_otherwise<'a>(
    chosen: Chosen,
    otherwise: &'a Stmt,
    names: &mut Names,
    so_far: Progress<'a>,
) -> Progress<'a>
    ensures told { course result ≡ passed (course so_far.entry)
        (chosen_steps chosen [] (steps (action otherwise.now) (meanings names.old))) }
    ensures same { meanings names.new ≡ meanings names.old }
{
    match chosen {
        Chosen::Taken => so_far,
        Chosen::Otherwise => judge_body(otherwise, names, so_far),
        Chosen::Both => judge_body(otherwise, names, so_far),
    }
}

/// A case.
#[cycle(judge_body)]
#[tactic(auto, using(crate::proofs::Passing::passed_append))]
fn judge_case<'a>(
    at: u32,
    items: &'a [CaseItem],
    selector: &'a Expr,
    names: &mut Names,
    so_far: Progress<'a>,
) -> Progress<'a>
    ensures told { let branches = branch_row (map branch items.now) in
        course result ≡ passed (course so_far.entry)
        (Statement at
        ∷ Nodes at (case_count (meanings names.old) (formula selector.now) branches)
        ∷ faulty (faults (meanings names.old) (formula selector.now))
        ++ branches_steps branches (meanings names.old)) }
    ensures same { meanings names.new ≡ meanings names.old }
{
    let so_far = so_far.count(at);
    let so_far = so_far.spend_case(at, selector, items, names);
    judge_items(items, names, so_far.judge(selector, names))
}

/// Statements in a row.
#[cycle(judge_body)]
fn judge_bodies<'a>(all: &'a [Stmt], names: &mut Names, so_far: Progress<'a>) -> Progress<'a>
    ensures told { course result ≡ passed (course so_far.entry)
        (body_steps (action_row (map action all.now)) (meanings names.old)) }
    ensures same { meanings names.new ≡ meanings names.old }
{
    let mut so_far = so_far;
    for body in all {
        so_far = judge_body(body, names, so_far);
    }
    so_far
}

/// The items of a case.
#[cycle(judge_body)]
fn judge_items<'a>(all: &'a [CaseItem], names: &mut Names, so_far: Progress<'a>) -> Progress<'a>
    ensures told { course result ≡ passed (course so_far.entry)
        (branches_steps (branch_row (map branch all.now)) (meanings names.old)) }
    ensures same { meanings names.new ≡ meanings names.old }
{
    let mut so_far = so_far;
    for item in all {
        so_far = judge_item(item, names, so_far);
    }
    so_far
}

#[cycle(judge_body)]
#[tactic(auto, using(crate::proofs::Passing::passed_append))]
fn judge_item<'a>(item: &'a CaseItem, names: &mut Names, so_far: Progress<'a>) -> Progress<'a>
    ensures told { course result ≡ passed (course so_far.entry)
        (branch_item_steps (branch item.now) (meanings names.old)) }
    ensures same { meanings names.new ≡ meanings names.old }
{
    match item {
        CaseItem::Labelled(all, body) => judge_body(body, names, labels(all, names, so_far)),
        CaseItem::Default(_, body) => judge_body(body, names, so_far),
    }
}

/// The turns of a loop whose head is judged already.
#[cycle(judge_body)]
#[tactic(auto, unfolding(crate::specs::Bodies::all_turns))]
fn judge_loop<'a>(
    head: Head<'a>,
    body: &'a Stmt,
    names: &mut Names,
    so_far: Progress<'a>,
) -> Progress<'a>
    ensures told { course result ≡ passed (course so_far.entry)
        (all_turns (steps (action body.now)) (meanings names.old) (head_of head.entry)) }
    ensures same { meanings names.new ≡ meanings names.old }
{
    let Some(first) = head.first(names) else {
        return so_far;
    };
    let before = names.get(&head.index.text);
    let so_far = judge_turns(head, body, first, names, so_far);
    names.set_index(&head.index.text, before);
    so_far
}

/// The turns of a loop from its first number on, after which its index has still the last one.
#[cycle(judge_body)]
fn judge_turns<'a>(
    head: Head<'a>,
    body: &'a Stmt,
    first: i64,
    names: &mut Names,
    so_far: Progress<'a>,
) -> Progress<'a>
    ensures told { course result ≡ passed (course so_far.entry)
        (turns (steps (action body.now)) (meanings names.old) (head_of head.entry) TURNS first) }
    ensures same { (number : Option ℤ)
        → indexed (meanings names.new) head.entry.index.now.text number
        ≡ indexed (meanings names.old) head.entry.index.now.text number }
{
    let mut number = first;
    let mut so_far = so_far;
    for _turn in 0..TURNS {
        // Nested loops could go on for long behind a limit.
        if so_far.is_over() {
            return so_far;
        }
        names.set_index(&head.index.text, Some(number));
        let condition = constant(head.condition, names);
        if !goes_on(condition) {
            return so_far.number(condition);
        }
        so_far = judge_turn(head.at, body, names, so_far);
        number = match constant(head.step, names) {
            Ok(next) => next,
            Err(cause) => return so_far.number(Err(cause)),
        };
    }
    names.set_index(&head.index.text, Some(number));
    let condition = constant(head.condition, names);
    if goes_on(condition) {
        so_far.too_long(head.at)
    } else {
        so_far.number(condition)
    }
}

/// A turn of a loop; one that leaves no statement counts as one.
#[cycle(judge_body)]
fn judge_turn<'a>(at: u32, body: &'a Stmt, names: &mut Names, so_far: Progress<'a>) -> Progress<'a>
    ensures told { course result ≡ passed (course so_far.entry)
        (counted at (steps (action body.now) (meanings names.old))) }
    ensures same { meanings names.new ≡ meanings names.old }
{
    let after = judge_body(body, names, so_far.begin_turn());
    after.end_turn(so_far.filled, at)
}
