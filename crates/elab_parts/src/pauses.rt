//! The delays of bodies in one walk: `for` is its turns, and an `if` whose condition is constant is the branch that it
//! takes.

ghost use Rattle.std.specs.Prelude.{◌≡◌, ◌∷◌, [], ◌++◌, ℤ, IfOk, Option, map};
ghost use Rattle.std.specs.Option.{option_map};
ghost use Rattle.rtl_tree.specs.TreeStmt.{action, action_row, branch, branch_row, pause};
ghost use Rattle.elab_body.specs.elab_scope.Names.{indexed, meanings};
ghost use Rattle.elab_body.specs.Bodies.{all_turns, body_steps, branch_item_steps, branches_steps, pause_steps, steps, turns};
ghost use Rattle.elab_body.specs.Courses.{chosen_steps, head_of};
ghost use Rattle.elab_body.specs.Steps.{delays_of};

use elab_body::branches::{Chosen, branches_of, goes_on};
use elab_body::elab_scope::names::Names;
use elab_body::head::Head;
use rtl_const::evaluate::constant;
use rtl_const::params::Lookup;
use rtl_tree::tree::stmt::{CaseItem, Delay, Stmt};
use std::alloc::Global;
use text_ground::memory::Memory;

/// How many turns a loop may have.
const TURNS: u32 = 4096;

/// A delay more.
fn with(mut made: Vec<u32>, at: u32) -> Result<Vec<u32>, Memory>
    ensures { IfOk result (λ all. all.items ≡ made.items ++ at ∷ []) }
{
    made.push(at)?;
    Ok(made)
}

/// The delay of an assignment, behind others.
fn paused(delay: &Option<Delay>, made: Vec<u32>) -> Result<Vec<u32>, Memory>
    ensures { IfOk result (λ all. all.items
        ≡ made.items ++ delays_of (pause_steps (option_map pause delay.now))) }
{
    match delay {
        Some(delay) => with(made, delay.at),
        None => Ok(made),
    }
}

/// The places of the delays of a body.
pub(crate) fn pauses_of(body: &Stmt, names: &mut Names, alloc: Global) -> Result<Vec<u32>, Memory>
    ensures made { IfOk result (λ all. all.items
        ≡ delays_of (steps (action body.now) (meanings names.old))) }
    ensures same { meanings names.new ≡ meanings names.old }
{
    push_pauses(body, names, Vec::new(alloc))
}

/// The delays of a statement, behind others.
#[cycle(pauses)]
#[tactic(auto, using(crate::proofs::Pausing::branch_pauses, crate::proofs::Pausing::else_pauses, std::proofs::lemmas::Grind::common_steps))]
fn push_pauses(body: &Stmt, names: &mut Names, made: Vec<u32>) -> Result<Vec<u32>, Memory>
    ensures made { IfOk result (λ all. all.items
        ≡ made.items ++ delays_of (steps (action body.now) (meanings names.old))) }
    ensures same { meanings names.new ≡ meanings names.old }
{
    match body {
        Stmt::Null(_) => Ok(made),
        Stmt::Delayed(delay, body) => push_pauses(body, names, with(made, delay.at)?),
        Stmt::Assign(_, _, delay, _) => paused(delay, made),
        Stmt::If(_, condition, taken) => {
            let chosen = branches_of(constant(condition, names));
            push_if(chosen, taken, names, made)
        }
        Stmt::IfElse(_, condition, taken, otherwise) => {
            let chosen = branches_of(constant(condition, names));
            let made = push_if(chosen, taken, names, made)?;
            push_else(chosen, otherwise, names, made)
        }
        Stmt::Case { items, .. } => push_items(items, names, made),
        Stmt::For {
            at,
            index,
            start,
            condition,
            stepped,
            step,
            body,
        } => {
            let head = Head {
                at: *at,
                index,
                start,
                condition,
                stepped,
                step,
            };
            push_loop(head, body, names, made)
        }
        Stmt::Block(_, _, all) => push_bodies(all, names, made),
    }
}

/// The delays of the branch of an `if` where its condition holds, behind others.
#[cycle(pauses)]
#[tactic(auto, using(crate::proofs::Pausing::pauses_append, std::proofs::lemmas::Grind::common_steps))]
fn push_if(
    chosen: Chosen,
    taken: &Stmt,
    names: &mut Names,
    made: Vec<u32>,
) -> Result<Vec<u32>, Memory>
    ensures made { IfOk result (λ all. all.items
        ≡ made.items ++ delays_of (chosen_steps chosen
        (steps (action taken.now) (meanings names.old)) [])) }
    ensures same { meanings names.new ≡ meanings names.old }
{
    match chosen {
        Chosen::Taken => push_pauses(taken, names, made),
        Chosen::Otherwise => Ok(made),
        Chosen::Both => push_pauses(taken, names, made),
    }
}

/// The delays of an `else`, behind others.
#[cycle(pauses)]
fn push_else(
    chosen: Chosen,
    otherwise: &Stmt,
    names: &mut Names,
    made: Vec<u32>,
) -> Result<Vec<u32>, Memory>
    ensures made { IfOk result (λ all. all.items
        ≡ made.items ++ delays_of (chosen_steps chosen []
        (steps (action otherwise.now) (meanings names.old)))) }
    ensures same { meanings names.new ≡ meanings names.old }
{
    match chosen {
        Chosen::Taken => Ok(made),
        Chosen::Otherwise => push_pauses(otherwise, names, made),
        Chosen::Both => push_pauses(otherwise, names, made),
    }
}

/// The delays of statements in a row, behind others.
#[cycle(pauses)]
fn push_bodies(all: &[Stmt], names: &mut Names, made: Vec<u32>) -> Result<Vec<u32>, Memory>
    ensures made { IfOk result (λ places. places.items
        ≡ made.items ++ delays_of (body_steps (action_row (map action all.now))
        (meanings names.old))) }
    ensures same { meanings names.new ≡ meanings names.old }
{
    let mut made = made;
    for body in all {
        made = push_pauses(body, names, made)?;
    }
    Ok(made)
}

/// The delays of the items of a case, behind others.
#[cycle(pauses)]
fn push_items(all: &[CaseItem], names: &mut Names, made: Vec<u32>) -> Result<Vec<u32>, Memory>
    ensures made { IfOk result (λ places. places.items
        ≡ made.items ++ delays_of (branches_steps (branch_row (map branch all.now))
        (meanings names.old))) }
    ensures same { meanings names.new ≡ meanings names.old }
{
    let mut made = made;
    for item in all {
        made = push_item(item, names, made)?;
    }
    Ok(made)
}

#[cycle(pauses)]
#[tactic(auto, using(crate::proofs::Pausing::behind_faults))]
fn push_item(item: &CaseItem, names: &mut Names, made: Vec<u32>) -> Result<Vec<u32>, Memory>
    ensures made { IfOk result (λ places. places.items
        ≡ made.items ++ delays_of (branch_item_steps (branch item.now) (meanings names.old))) }
    ensures same { meanings names.new ≡ meanings names.old }
{
    match item {
        CaseItem::Labelled(_, body) | CaseItem::Default(_, body) => push_pauses(body, names, made),
    }
}

/// The delays of a loop in all its turns, behind others.
#[cycle(pauses)]
#[tactic(auto, unfolding(elab_body::specs::Bodies::all_turns))]
fn push_loop(
    head: Head<'_>,
    body: &Stmt,
    names: &mut Names,
    made: Vec<u32>,
) -> Result<Vec<u32>, Memory>
    ensures made { IfOk result (λ all. all.items
        ≡ made.items ++ delays_of (all_turns (steps (action body.now)) (meanings names.old)
        (head_of head.entry))) }
    ensures same { meanings names.new ≡ meanings names.old }
{
    let Some(first) = head.first(names) else {
        return Ok(made);
    };
    let before = names.get(&head.index.text);
    let made = push_turns(head, body, first, names, made);
    names.set_index(&head.index.text, before);
    made
}

/// The delays of the turns of a loop from its first number on, after which its index has still the last one.
#[cycle(pauses)]
fn push_turns(
    head: Head<'_>,
    body: &Stmt,
    first: i64,
    names: &mut Names,
    made: Vec<u32>,
) -> Result<Vec<u32>, Memory>
    ensures made { IfOk result (λ all. all.items
        ≡ made.items ++ delays_of (turns (steps (action body.now)) (meanings names.old)
        (head_of head.entry) TURNS first)) }
    ensures same { (number : Option ℤ)
        → indexed (meanings names.new) head.entry.index.now.text number
        ≡ indexed (meanings names.old) head.entry.index.now.text number }
{
    let mut number = first;
    let mut made = made;
    for _turn in 0..TURNS {
        names.set_index(&head.index.text, Some(number));
        let condition = constant(head.condition, names);
        if !goes_on(condition) {
            return Ok(made);
        }
        made = push_pauses(body, names, made)?;
        number = match constant(head.step, names) {
            Ok(next) => next,
            Err(_) => return Ok(made),
        };
    }
    Ok(made)
}
