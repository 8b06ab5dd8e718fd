//! Bodies in the design, in one walk: `for` is its turns, and an `if` whose condition is constant is the branch that it
//! takes.

ghost use Rattle.std.specs.Prelude.{◌≡◌, ◌≤◌, ◌∷◌, [], ◌++◌, ℤ, IfOk, Option, map};
ghost use Rattle.rtl_flat.specs.Expression.{tree};
ghost use Rattle.rtl_flat.specs.Process.{Block, Branches, If as MadeIf, NoBranch, With, action as made_action, body_of};
ghost use Rattle.rtl_tree.specs.TreeExpr.{formula};
ghost use Rattle.rtl_tree.specs.TreeStmt.{Case, If, action, action_row, branch, branch_row, target};
ghost use Rattle.elab_nodes.specs.elab_scope.Names.{indexed, meanings};
ghost use Rattle.elab_nodes.specs.elab_scope.Trees.{own_context, spot_in, tree_of};
ghost use Rattle.elab_body.specs.Acts.{act_turns, acts, body_acts, case_branches, fallback, loop_acts, set_of, with_branch};
ghost use Rattle.elab_body.specs.Courses.{head_of};
ghost use Rattle.elab_body.specs.Made.{items_before, otherwise_of};

use crate::body::TURNS;
use crate::branches::{Chosen, branches_of, goes_on};
use crate::head::Head;
use crate::parts::{case_context, is_delayed, kind_of};
use elab_nodes::elab_scope::context::{Context, own_context};
use elab_nodes::elab_scope::names::Names;
use elab_nodes::elab_scope::pieces::target_of;
use elab_nodes::elab_scope::size::{Site, size};
use elab_nodes::elab_scope::targets::assigned_context;
use rtl_const::evaluate::constant;
use rtl_const::params::Lookup;
use rtl_flat::act::{Act, CaseItem as FlatItem};
use rtl_flat::expr::SizedExpr;
use rtl_tree::tree::expr::Expr;
use rtl_tree::tree::stmt::{AssignmentKind, CaseItem, CaseKind, Lvalue, Stmt};
use text_ground::memory::Memory;
use text_ground::text::Spot;

fn spot_at(site: Site, at: u32) -> Spot
    ensures { result ≡ spot_in site.file at }
{
    Spot {
        file: site.file,
        at,
    }
}

/// An assignment.
fn assigned(
    written: &Lvalue,
    kind: AssignmentKind,
    value: &Expr,
    names: &Names,
    site: Site,
) -> Result<Act, Memory>
    ensures { IfOk result (λ made. made_action made
        ≡ set_of site.file site.base (meanings names.now) (target written.now) kind
        (formula value.now)) }
{
    Ok(Act::Set {
        target: target_of(written, names, site)?,
        value: size(value, assigned_context(value, written, names), names, site)?,
        delayed: is_delayed(kind),
        spot: spot_at(site, written.place()),
    })
}

fn branched(test: SizedExpr, yes: Vec<Act>, no: Option<Vec<Act>>, spot: Spot) -> Act
    ensures { made_action result ≡ MadeIf (tree test) (body_of (map made_action yes.items))
        (otherwise_of no) spot }
{
    Act::If {
        test,
        yes,
        no,
        spot,
    }
}

#[tactic(auto, using(rtl_flat::proofs::ActViews::block_is))]
fn block(body: Vec<Act>) -> Act
    ensures { made_action result ≡ Block (body_of (map made_action body.items)) }
{
    Act::Block(body)
}

/// A statement more.
fn with(mut made: Vec<Act>, act: Act) -> Result<Vec<Act>, Memory>
    ensures { IfOk result (λ all. map made_action all.items
        ≡ map made_action made.items ++ (made_action act ∷ [])) }
{
    made.push(act)?;
    Ok(made)
}

/// An expression in its context, in a box.
fn boxed(e: &Expr, context: Context, names: &Names, site: Site) -> Result<Box<SizedExpr>, Memory>
    requires not_empty { 1 ≤ context.width }
    requires at_most { context.width ≤ 128 }
    ensures { IfOk result (λ made. tree made.value
        ≡ tree_of site.file site.base (meanings names.now) (formula e.now) context) }
{
    Ok(Box::new(site.alloc, size(e, context, names, site)?)?)
}

/// An `if` more, whose test stands in a box: what is held by value while more is made is dear to prove.
fn push_branches(
    made: Vec<Act>,
    test: Box<SizedExpr>,
    yes: Vec<Act>,
    no: Option<Vec<Act>>,
    spot: Spot,
) -> Result<Vec<Act>, Memory>
    ensures { IfOk result (λ all. map made_action all.items ≡ map made_action made.items
        ++ (MadeIf (tree test.value) (body_of (map made_action yes.items)) (otherwise_of no) spot
        ∷ [])) }
{
    with(made, branched(Box::into_inner(test), yes, no, spot))
}

/// The test of an `if`.
fn test(condition: &Expr, names: &Names, site: Site) -> Result<Box<SizedExpr>, Memory>
    ensures { IfOk result (λ made. tree made.value
        ≡ tree_of site.file site.base (meanings names.now) (formula condition.now)
        (own_context (meanings names.now) (formula condition.now))) }
{
    boxed(condition, own_context(condition, names), names, site)
}

/// An assignment, behind other statements.
fn push_assignment(
    written: &Lvalue,
    kind: AssignmentKind,
    value: &Expr,
    names: &Names,
    site: Site,
    mut made: Vec<Act>,
) -> Result<Vec<Act>, Memory>
    ensures { IfOk result (λ all. map made_action all.items
        ≡ map made_action made.items ++ (set_of site.file site.base (meanings names.now)
        (target written.now) kind (formula value.now) ∷ [])) }
{
    made.push(assigned(written, kind, value, names, site)?)?;
    Ok(made)
}

/// The labels of an item of a case.
fn labels(
    all: &[Expr],
    context: Context,
    names: &Names,
    site: Site,
) -> Result<Vec<SizedExpr>, Memory>
    requires not_empty { 1 ≤ context.width }
    requires at_most { context.width ≤ 128 }
    ensures { IfOk result (λ made. map tree made.items
        ≡ map (λ label. tree_of site.file site.base (meanings names.now) label context)
        (map formula all.now)) }
{
    let mut made = Vec::with_capacity(site.alloc, all.len())?;
    for label in all {
        made.push(size(label, context, names, site)?)?;
    }
    Ok(made)
}

/// A body without faults in the design. Of a body with faults, which `judge_body` tells, it makes something that the
/// design doesn't hold.
///
/// The only error is want of memory.
#[cycle(acts)]
pub fn acts_of(body: &Stmt, names: &mut Names, site: Site) -> Result<Vec<Act>, Memory>
    ensures made { IfOk result (λ all. map made_action all.items
        ≡ acts site.file site.base (action body.now) (meanings names.old)) }
    ensures same { meanings names.new ≡ meanings names.old }
{
    push_acts(body, names, site, Vec::with_capacity(site.alloc, 1)?)
}

/// A statement, behind others.
#[cycle(acts)]
#[tactic(auto, using(crate::proofs::Acting::branches_decided))]
fn push_acts(body: &Stmt, names: &mut Names, site: Site, made: Vec<Act>) -> Result<Vec<Act>, Memory>
    ensures made { IfOk result (λ all. map made_action all.items
        ≡ map made_action made.items ++ acts site.file site.base (action body.now)
        (meanings names.old)) }
    ensures same { meanings names.new ≡ meanings names.old }
{
    match body {
        Stmt::Null(_) => Ok(made),
        Stmt::Delayed(_, body) => push_acts(body, names, site, made),
        Stmt::Assign(written, kind, _, value) => {
            push_assignment(written, *kind, value, names, site, made)
        }
        Stmt::If(at, condition, taken) => push_if(taken, *at, condition, names, site, made),
        Stmt::IfElse(at, condition, taken, otherwise) => {
            match branches_of(constant(condition, names)) {
                Chosen::Taken => push_acts(taken, names, site, made),
                Chosen::Otherwise => push_acts(otherwise, names, site, made),
                Chosen::Both => {
                    let yes = acts_of(taken, names, site)?;
                    push_both(otherwise, yes, *at, condition, names, site, made)
                }
            }
        }
        Stmt::Case {
            at,
            kind,
            full,
            parallel,
            selector,
            items,
        } => push_case(
            items, *at, *kind, *full, *parallel, selector, names, site, made,
        ),
        Stmt::For {
            at,
            index,
            start,
            condition,
            stepped,
            step,
            body,
        } => {
            let head = Head::new(*at, index, start, condition, stepped, step);
            push_loop(head, body, names, site, made)
        }
        Stmt::Block(_, _, all) => push_block(all, names, site, made),
    }
}

/// An `if` without `else`, behind other statements.
#[cycle(acts)]
#[tactic(auto, using(crate::proofs::Acting::branches_decided))]
fn push_if(
    taken: &Stmt,
    at: u32,
    condition: &Expr,
    names: &mut Names,
    site: Site,
    made: Vec<Act>,
) -> Result<Vec<Act>, Memory>
    ensures made { IfOk result (λ all. map made_action all.items ≡ map made_action made.items
        ++ acts site.file site.base (If at (formula condition.now) (action taken.now))
        (meanings names.old)) }
    ensures same { meanings names.new ≡ meanings names.old }
{
    match branches_of(constant(condition, names)) {
        Chosen::Taken => push_acts(taken, names, site, made),
        Chosen::Otherwise => Ok(made),
        Chosen::Both => {
            let test = test(condition, names, site)?;
            let yes = acts_of(taken, names, site)?;
            push_branches(made, test, yes, None, spot_at(site, at))
        }
    }
}

/// An `if` of which both branches are left, and the first is made, behind other statements.
#[cycle(acts)]
fn push_both(
    otherwise: &Stmt,
    yes: Vec<Act>,
    at: u32,
    condition: &Expr,
    names: &mut Names,
    site: Site,
    made: Vec<Act>,
) -> Result<Vec<Act>, Memory>
    ensures made { let scope = meanings names.old in
        let test = tree_of site.file site.base scope (formula condition.now)
        (own_context scope (formula condition.now)) in
        let no = With (body_of (acts site.file site.base (action otherwise.now) scope)) in
        IfOk result (λ all. map made_action all.items ≡ map made_action made.items
        ++ (MadeIf test (body_of (map made_action yes.items)) no (spot_in site.file at) ∷ [])) }
    ensures same { meanings names.new ≡ meanings names.old }
{
    let test = test(condition, names, site)?;
    let no = acts_of(otherwise, names, site)?;
    push_branches(made, test, yes, Some(no), spot_at(site, at))
}

/// A case, behind other statements.
#[cycle(acts)]
fn push_case(
    items: &[CaseItem],
    at: u32,
    kind: CaseKind,
    full: bool,
    parallel: bool,
    selector: &Expr,
    names: &mut Names,
    site: Site,
    made: Vec<Act>,
) -> Result<Vec<Act>, Memory>
    ensures made { IfOk result (λ all. map made_action all.items ≡ map made_action made.items
        ++ acts site.file site.base (Case at kind full parallel (formula selector.now)
        (branch_row (map branch items.now))) (meanings names.old)) }
    ensures same { meanings names.new ≡ meanings names.old }
{
    let context = case_context(selector, items, names);
    let selector = boxed(selector, context, names, site)?;
    let items_made = items_of(items, context, names, site)?;
    let fallback = fallback_of(items, names, site)?;
    let act = Act::Case {
        kind: kind_of(kind),
        full,
        parallel,
        selector: Box::into_inner(selector),
        items: items_made,
        fallback,
        spot: spot_at(site, at),
    };
    with(made, act)
}

/// Statements between `begin` and `end`, behind other statements.
#[cycle(acts)]
fn push_block(
    all: &[Stmt],
    names: &mut Names,
    site: Site,
    made: Vec<Act>,
) -> Result<Vec<Act>, Memory>
    ensures made { IfOk result (λ acts. map made_action acts.items ≡ map made_action made.items
        ++ (Block (body_of (body_acts site.file site.base (action_row (map action all.now))
        (meanings names.old))) ∷ [])) }
    ensures same { meanings names.new ≡ meanings names.old }
{
    let body = push_bodies(all, names, site, Vec::new(site.alloc))?;
    with(made, block(body))
}

/// Statements in a row, behind others.
#[cycle(acts)]
fn push_bodies(
    all: &[Stmt],
    names: &mut Names,
    site: Site,
    made: Vec<Act>,
) -> Result<Vec<Act>, Memory>
    ensures made { IfOk result (λ acts. map made_action acts.items
        ≡ map made_action made.items ++ body_acts site.file site.base
        (action_row (map action all.now)) (meanings names.old)) }
    ensures same { meanings names.new ≡ meanings names.old }
{
    let mut made = made;
    for body in all {
        made = push_acts(body, names, site, made)?;
    }
    Ok(made)
}

/// The items of a case that have labels.
#[cycle(acts)]
fn items_of(
    all: &[CaseItem],
    context: Context,
    names: &mut Names,
    site: Site,
) -> Result<Vec<FlatItem>, Memory>
    requires not_empty { 1 ≤ context.width }
    requires at_most { context.width ≤ 128 }
    ensures made { IfOk result (λ items. items_before items.items NoBranch
        ≡ case_branches site.file site.base (branch_row (map branch all.now))
        (meanings names.old) context) }
    ensures same { meanings names.new ≡ meanings names.old }
{
    let mut made = Vec::new(site.alloc);
    for item in all {
        made = push_item(item, context, names, site, made)?;
    }
    Ok(made)
}

/// An item of a case, behind others.
#[cycle(acts)]
fn push_item(
    item: &CaseItem,
    context: Context,
    names: &mut Names,
    site: Site,
    mut made: Vec<FlatItem>,
) -> Result<Vec<FlatItem>, Memory>
    requires not_empty { 1 ≤ context.width }
    requires at_most { context.width ≤ 128 }
    ensures made { IfOk result (λ items. (others : Branches) → items_before items.items others
        ≡ items_before made.items (with_branch site.file site.base (branch item.now)
        (meanings names.old) context others)) }
    ensures same { meanings names.new ≡ meanings names.old }
{
    match item {
        CaseItem::Labelled(all, body) => {
            let labels = labels(all, context, names, site)?;
            let body = acts_of(body, names, site)?;
            made.push(FlatItem { labels, body })?;
            Ok(made)
        }
        CaseItem::Default(_, _) => Ok(made),
    }
}

/// What runs where no label matches.
#[cycle(acts)]
fn fallback_of(all: &[CaseItem], names: &mut Names, site: Site) -> Result<Option<Vec<Act>>, Memory>
    ensures made { IfOk result (λ body. otherwise_of body
        ≡ fallback site.file site.base (branch_row (map branch all.now)) (meanings names.old)) }
    ensures same { meanings names.new ≡ meanings names.old }
{
    for item in all {
        if let CaseItem::Default(_, body) = item {
            return Ok(Some(acts_of(body, names, site)?));
        }
    }
    Ok(None)
}

/// The turns of a loop, behind other statements.
#[cycle(acts)]
#[tactic(auto, unfolding(crate::specs::Acts::loop_acts))]
fn push_loop(
    head: Head<'_>,
    body: &Stmt,
    names: &mut Names,
    site: Site,
    made: Vec<Act>,
) -> Result<Vec<Act>, Memory>
    ensures made { IfOk result (λ all. map made_action all.items
        ≡ map made_action made.items ++ loop_acts (acts site.file site.base (action body.now))
        (meanings names.old) (head_of head.entry)) }
    ensures same { meanings names.new ≡ meanings names.old }
{
    let Ok(first) = constant(head.start, names) else {
        return Ok(made);
    };
    let before = names.get(&head.index.text);
    let made = push_turns(head, body, first, names, site, made);
    names.set_index(&head.index.text, before);
    made
}

/// The turns of a loop from its first number on, after which its index has still the last one.
#[cycle(acts)]
fn push_turns(
    head: Head<'_>,
    body: &Stmt,
    first: i64,
    names: &mut Names,
    site: Site,
    made: Vec<Act>,
) -> Result<Vec<Act>, Memory>
    ensures made { IfOk result (λ all. map made_action all.items
        ≡ map made_action made.items ++ act_turns (acts site.file site.base (action body.now))
        (meanings names.old) (head_of head.entry) TURNS first) }
    ensures same { (number : Option ℤ)
        → indexed (meanings names.new) head.entry.index.now.text number
        ≡ indexed (meanings names.old) head.entry.index.now.text number }
{
    let mut number = first;
    let mut made = made;
    for _turn in 0..TURNS {
        names.set_index(&head.index.text, Some(number));
        let condition = constant(head.condition, names);
        if !goes_on(condition) {
            return Ok(made);
        }
        made = push_acts(body, names, site, made)?;
        number = match constant(head.step, names) {
            Ok(next) => next,
            Err(_) => return Ok(made),
        };
    }
    Ok(made)
}
