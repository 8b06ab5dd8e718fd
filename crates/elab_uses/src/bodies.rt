//! The expressions of bodies as they are used, in one walk: `for` is its turns, and an `if` whose condition is constant
//! is the branch that it takes. The walk makes no list of them.

ghost use Rattle.std.specs.Prelude.{◌≡◌, ◌++◌, ◌∷◌, [], ℤ, IfOk, OnOk, Option, map};
ghost use Rattle.rtl_const.specs.Constant.{constant};
ghost use Rattle.rtl_tree.specs.TreeExpr.{formula};
ghost use Rattle.rtl_tree.specs.TreeStmt.{action, action_row, branch, branch_row};
ghost use Rattle.elab_body.specs.Courses.{head_of};
ghost use Rattle.elab_body.specs.elab_scope.Names.{meanings, numbers_in};
ghost use Rattle.elab_standard.specs.Scopes.{scopes as scopes_of, turned};
ghost use Rattle.elab_standard.specs.Uses.{Case as CaseUse, Count, Test, used};
ghost use Rattle.elab_uses.specs.Bodies.{actions_uses, body_uses, branch_item_uses, branches_uses, condition_use, loop_uses, notes_in, number_in, turn_uses};
ghost use Rattle.elab_uses.specs.Branches.{chosen_uses, next_number, once_uses};

use crate::targets::push_assignment;
use elab_body::branches::{Chosen, branches_of, goes_on};
use elab_body::elab_scope::names::Names;
use elab_body::head::Head;
use elab_standard::scopes::Scopes;
use elab_standard::uses::{Home, Use, push_use};
use rtl_const::evaluate::constant;
use rtl_const::params::Lookup;
use rtl_flat::note::Note;
use rtl_tree::tree::expr::Expr;
use rtl_tree::tree::stmt::{CaseItem, Stmt};
use text_ground::memory::Memory;

/// How many turns a loop may have.
const TURNS: u32 = 4096;

/// A constant condition is tested, every other one is worked out.
fn condition_use<'a>(condition: &'a Expr, names: &Names) -> Use<'a>
    ensures { used result ≡ condition_use
        (constant (numbers_in (meanings names.now)) (formula condition.now))
        (formula condition.now) }
{
    match constant(condition, names) {
        Ok(_) => Use::Test(condition),
        Err(_) => Use::Value {
            value: condition,
            wanted: 0,
        },
    }
}

/// The notes of the condition of an `if`.
fn push_condition(
    condition: &Expr,
    home: Home,
    scopes: &Scopes,
    made: &mut Vec<Note>,
) -> Result<(), Memory>
    ensures { let s = scopes_of scopes.now in
        let e = formula condition.now in
        OnOk result (made.new.items ≡ made.old.items
        ++ notes_in home ((s, condition_use (number_in s e) e) ∷ [])) }
{
    push_use(home, scopes, condition_use(condition, &scopes.names), made)
}

/// The notes of the selector and the labels of a case.
fn push_labels(
    at: u32,
    selector: &Expr,
    items: &[CaseItem],
    home: Home,
    scopes: &Scopes,
    made: &mut Vec<Note>,
) -> Result<(), Memory>
    ensures { OnOk result (made.new.items ≡ made.old.items
        ++ notes_in home ((
          scopes_of scopes.now,
          CaseUse at (formula selector.now) (branch_row (map branch items.now)),
        ) ∷ [])) }
{
    let case = Use::Case {
        at,
        selector,
        items,
    };
    push_use(home, scopes, case, made)
}

/// The notes of a body. Those of one with faults, which elaboration refuses, are of no use.
#[cycle(push_body)]
#[tactic(auto, using(crate::proofs::Branching::branch_notes, crate::proofs::Branching::else_notes, std::proofs::lemmas::Grind::common_steps))]
pub(crate) fn push_body(
    body: &Stmt,
    home: Home,
    scopes: &mut Scopes,
    made: &mut Vec<Note>,
) -> Result<(), Memory>
    ensures made { OnOk result (made.new.items ≡ made.old.items
        ++ notes_in home (body_uses (action body.now) (scopes_of scopes.old))) }
    ensures same { scopes_of scopes.new ≡ scopes_of scopes.old }
{
    match body {
        Stmt::Null(_) => Ok(()),
        Stmt::Delayed(_, body) => push_body(body, home, scopes, made),
        Stmt::Assign(written, _, _, value) => push_assignment(written, value, home, scopes, made),
        Stmt::If(_, condition, taken) => {
            let chosen = branches_of(constant(condition, &scopes.names));
            push_condition(condition, home, scopes, made)?;
            push_if(chosen, taken, home, scopes, made)
        }
        Stmt::IfElse(_, condition, taken, otherwise) => {
            let chosen = branches_of(constant(condition, &scopes.names));
            push_condition(condition, home, scopes, made)?;
            push_if(chosen, taken, home, scopes, made)?;
            push_else(chosen, otherwise, home, scopes, made)
        }
        Stmt::Case {
            at,
            selector,
            items,
            ..
        } => {
            push_labels(*at, selector, items, home, scopes, made)?;
            push_items(items, home, scopes, made)
        }
        Stmt::For {
            at,
            index,
            start,
            condition,
            stepped,
            step,
            body,
        } => {
            let head = Head::new(*at, index, start, condition, stepped, step);
            push_loop(head, body, home, scopes, made)
        }
        Stmt::Block(_, _, all) => push_bodies(all, home, scopes, made),
    }
}

/// The notes of the branch of an `if` where its condition holds.
#[cycle(push_body)]
#[tactic(auto, using(crate::proofs::Rows::notes_append, std::proofs::lemmas::Grind::common_steps))]
fn push_if(
    chosen: Chosen,
    taken: &Stmt,
    home: Home,
    scopes: &mut Scopes,
    made: &mut Vec<Note>,
) -> Result<(), Memory>
    ensures made { OnOk result (made.new.items ≡ made.old.items
        ++ notes_in home (chosen_uses chosen
        (body_uses (action taken.now) (scopes_of scopes.old)) [])) }
    ensures same { scopes_of scopes.new ≡ scopes_of scopes.old }
{
    match chosen {
        Chosen::Taken => push_body(taken, home, scopes, made),
        Chosen::Otherwise => Ok(()),
        Chosen::Both => push_body(taken, home, scopes, made),
    }
}

/// The notes of an `else`.
#[cycle(push_body)]
fn push_else(
    chosen: Chosen,
    otherwise: &Stmt,
    home: Home,
    scopes: &mut Scopes,
    made: &mut Vec<Note>,
) -> Result<(), Memory>
    ensures made { OnOk result (made.new.items ≡ made.old.items
        ++ notes_in home (chosen_uses chosen []
        (body_uses (action otherwise.now) (scopes_of scopes.old)))) }
    ensures same { scopes_of scopes.new ≡ scopes_of scopes.old }
{
    match chosen {
        Chosen::Taken => Ok(()),
        Chosen::Otherwise => push_body(otherwise, home, scopes, made),
        Chosen::Both => push_body(otherwise, home, scopes, made),
    }
}

/// The notes of statements in a row.
#[cycle(push_body)]
fn push_bodies(
    all: &[Stmt],
    home: Home,
    scopes: &mut Scopes,
    made: &mut Vec<Note>,
) -> Result<(), Memory>
    ensures made { OnOk result (made.new.items ≡ made.old.items
        ++ notes_in home (actions_uses (action_row (map action all.now)) (scopes_of scopes.old))) }
    ensures same { scopes_of scopes.new ≡ scopes_of scopes.old }
{
    for body in all {
        push_body(body, home, scopes, made)?;
    }
    Ok(())
}

/// The notes of the bodies of the items of a case.
#[cycle(push_body)]
fn push_items(
    all: &[CaseItem],
    home: Home,
    scopes: &mut Scopes,
    made: &mut Vec<Note>,
) -> Result<(), Memory>
    ensures made { OnOk result (made.new.items ≡ made.old.items
        ++ notes_in home (branches_uses (branch_row (map branch all.now)) (scopes_of scopes.old))) }
    ensures same { scopes_of scopes.new ≡ scopes_of scopes.old }
{
    for item in all {
        push_item(item, home, scopes, made)?;
    }
    Ok(())
}

#[cycle(push_body)]
fn push_item(
    item: &CaseItem,
    home: Home,
    scopes: &mut Scopes,
    made: &mut Vec<Note>,
) -> Result<(), Memory>
    ensures made { OnOk result (made.new.items ≡ made.old.items
        ++ notes_in home (branch_item_uses (branch item.now) (scopes_of scopes.old))) }
    ensures same { scopes_of scopes.new ≡ scopes_of scopes.old }
{
    match item {
        CaseItem::Labelled(_, body) | CaseItem::Default(_, body) => {
            push_body(body, home, scopes, made)
        }
    }
}

/// The notes of a loop.
#[cycle(push_body)]
#[tactic(auto, unfolding(crate::specs::Bodies::loop_uses))]
fn push_loop(
    head: Head<'_>,
    body: &Stmt,
    home: Home,
    scopes: &mut Scopes,
    made: &mut Vec<Note>,
) -> Result<(), Memory>
    ensures made { OnOk result (made.new.items ≡ made.old.items
        ++ notes_in home (loop_uses (body_uses (action body.now)) (scopes_of scopes.old)
        (head_of head.entry))) }
    ensures same { scopes_of scopes.new ≡ scopes_of scopes.old }
{
    push_use(home, scopes, Use::Count(head.start), made)?;
    let Ok(first) = constant(head.start, &scopes.names) else {
        return Ok(());
    };
    let before = scopes.names.get(&head.index.text);
    let done = push_turns(head, body, first, home, scopes, made);
    scopes.set_index(&head.index.text, before);
    done
}

/// The notes of the turns of a loop from its first number on, after which its index has still the last one.
#[cycle(push_body)]
fn push_turns(
    head: Head<'_>,
    body: &Stmt,
    first: i64,
    home: Home,
    scopes: &mut Scopes,
    made: &mut Vec<Note>,
) -> Result<(), Memory>
    ensures made { OnOk result (made.new.items ≡ made.old.items
        ++ notes_in home (turn_uses (body_uses (action body.now)) (scopes_of scopes.old)
        (head_of head.entry) TURNS first)) }
    ensures same { (number : Option ℤ)
        → turned (scopes_of scopes.new) head.entry.index.now.text number
        ≡ turned (scopes_of scopes.old) head.entry.index.now.text number }
{
    let mut number = first;
    for _turn in 0..TURNS {
        scopes.set_index(&head.index.text, Some(number));
        match push_turn(head, body, home, scopes, made)? {
            Some(next) => number = next,
            None => return Ok(()),
        }
    }
    scopes.set_index(&head.index.text, Some(number));
    push_use(home, scopes, Use::Test(head.condition), made)
}

/// The notes of one turn of a loop, and the number of the next; none where it is the last.
#[cycle(push_body)]
fn push_turn(
    head: Head<'_>,
    body: &Stmt,
    home: Home,
    scopes: &mut Scopes,
    made: &mut Vec<Note>,
) -> Result<Option<i64>, Memory>
    ensures made { OnOk result (made.new.items ≡ made.old.items
        ++ notes_in home (once_uses (body_uses (action body.now)) (scopes_of scopes.old)
        (head_of head.entry))) }
    ensures next { let s = scopes_of scopes.old in
        IfOk result (λ next. next ≡ next_number
        (number_in s (formula head.entry.condition.now))
        (number_in s (formula head.entry.step.now))) }
    ensures same { scopes_of scopes.new ≡ scopes_of scopes.old }
{
    push_use(home, scopes, Use::Test(head.condition), made)?;
    if !goes_on(constant(head.condition, &scopes.names)) {
        return Ok(None);
    }
    push_body(body, home, scopes, made)?;
    push_use(home, scopes, Use::Count(head.step), made)?;
    Ok(constant(head.step, &scopes.names).ok())
}
