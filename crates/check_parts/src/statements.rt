//! The statements of a process, its targets, and the items of its list.

ghost use Rattle.std.specs.Prelude.{◌≡◌, ◌++◌, map, IfOk, OnOk};
ghost use Rattle.rtl_flat.specs.Process.{action, body_of, doing, piece, watched};
ghost use Rattle.rtl_rule.specs.Parts.{all_branches, all_in, all_of, all_other, items_of, own_pieces, pieces, statements};
ghost use Rattle.rtl_scan.specs.Bodies.{branches_of, other_of};
ghost use Rattle.check_parts.specs.Kept.{actions, targets};

use rtl_flat::act::{Act, CaseItem, Does, EventItem, Listed, TargetPart};
use std::alloc::Global;
use text_ground::memory::Memory;

/// Room for as many statements or expressions as most bodies have: lists that grow from nothing are asked for so often
/// that their growing shows.
pub(crate) const USUAL: usize = 16;

/// The statements of a process, each before those within it, without blocks.
pub fn statements<'d>(alloc: Global, does: &'d Does) -> Result<Vec<&'d Act>, Memory>
    ensures { IfOk result (λ all. map (λ one. action one.now) all.items
        ≡ statements (doing does.now)) }
{
    match does {
        Does::Assign {
            target: _,
            value: _,
        } => Ok(Vec::new(alloc)),
        Does::Comb { list: _, body } => statements_of(alloc, body),
        Does::Edge { events: _, body } => statements_of(alloc, body),
    }
}

/// The statements of a body, each before those within it, without blocks.
pub fn statements_of<'d>(alloc: Global, body: &'d [Act]) -> Result<Vec<&'d Act>, Memory>
    ensures { IfOk result (λ all. map (λ one. action one.now) all.items
        ≡ all_of (body_of (map action body.now))) }
{
    let mut found = Vec::with_capacity(alloc, USUAL)?;
    push_body(body, &mut found)?;
    Ok(found)
}

#[cycle(body)]
fn push_body<'d>(body: &'d [Act], found: &mut Vec<&'d Act>) -> Result<(), Memory>
    ensures { let within = all_of (body_of (map action body.now)) in
        OnOk result (actions found.new.items ≡ actions found.old.items ++ within) }
{
    for one in body {
        push_statement(one, found)?;
    }
    Ok(())
}

#[cycle(body)]
fn push_statement<'d>(one: &'d Act, found: &mut Vec<&'d Act>) -> Result<(), Memory>
    ensures { let within = all_in (action one.now) in
        OnOk result (actions found.new.items ≡ actions found.old.items ++ within) }
{
    match one {
        Act::Set {
            target: _,
            value: _,
            delayed: _,
            spot: _,
        } => {
            found.push(one)?;
            Ok(())
        }
        Act::If {
            test: _,
            yes,
            no,
            spot: _,
        } => {
            found.push(one)?;
            push_body(yes, found)?;
            push_other(no, found)
        }
        Act::Case {
            kind: _,
            full: _,
            parallel: _,
            selector: _,
            items,
            fallback,
            spot: _,
        } => {
            found.push(one)?;
            push_branches(items, found)?;
            push_other(fallback, found)
        }
        Act::Block(body) => push_body(body, found),
    }
}

#[cycle(body)]
fn push_branches<'d>(items: &'d [CaseItem], found: &mut Vec<&'d Act>) -> Result<(), Memory>
    ensures { let within = all_branches (branches_of items.now) in
        OnOk result (actions found.new.items ≡ actions found.old.items ++ within) }
{
    for item in items {
        push_body(&item.body, found)?;
    }
    Ok(())
}

#[cycle(body)]
fn push_other<'d>(body: &'d Option<Vec<Act>>, found: &mut Vec<&'d Act>) -> Result<(), Memory>
    ensures { let within = all_other (other_of body.now) in
        OnOk result (actions found.new.items ≡ actions found.old.items ++ within) }
{
    match body {
        Some(body) => push_body(body, found),
        None => Ok(()),
    }
}

/// The targets of its assignments, from left to right.
pub fn pieces<'d>(alloc: Global, does: &'d Does) -> Result<Vec<&'d TargetPart>, Memory>
    ensures { IfOk result (λ all. map (λ one. piece one.now) all.items ≡ pieces (doing does.now)) }
{
    let mut found = Vec::new(alloc);
    if let Does::Assign { target, value: _ } = does {
        push_parts(&target.parts, &mut found)?;
        return Ok(found);
    }
    let all = statements(alloc, does)?;
    for one in &all {
        push_targets(one, &mut found)?;
    }
    Ok(found)
}

/// The targets of a statement.
fn push_targets<'d>(one: &'d Act, found: &mut Vec<&'d TargetPart>) -> Result<(), Memory>
    ensures { OnOk result (targets found.new.items
        ≡ targets found.old.items ++ own_pieces (action one.now)) }
{
    match one {
        Act::Set { target, .. } => push_parts(&target.parts, found),
        Act::If { .. } | Act::Case { .. } | Act::Block(_) => Ok(()),
    }
}

fn push_parts<'d>(parts: &'d [TargetPart], found: &mut Vec<&'d TargetPart>) -> Result<(), Memory>
    ensures { OnOk result (targets found.new.items
        ≡ targets found.old.items ++ map piece parts.now) }
{
    for part in parts {
        found.push(part)?;
    }
    Ok(())
}

/// The items of its sensitivity list, or its events; none for `@*` and for an assignment.
pub fn items<'d>(does: &'d Does) -> &'d [EventItem]
    ensures { map watched result.now ≡ items_of (doing does.now) }
{
    match does {
        Does::Assign {
            target: _,
            value: _,
        } => &[],
        Does::Comb { list, body: _ } => match list {
            Listed::Star => &[],
            Listed::Items(items) => items,
        },
        Does::Edge { events, body: _ } => events,
    }
}
