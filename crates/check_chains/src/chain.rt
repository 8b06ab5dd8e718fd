//! The chain of resets that leads the body of a clocked process.

ghost use Rattle.std.specs.Prelude.{◌≡◌, ◌==◌, ◌+◌, List, Option, None, Some, map, position, vec_len, IfOk, MatchOption};
ghost use Rattle.std.specs.List.{list_all};
ghost use Rattle.std.specs.Option.{option_map};
ghost use Rattle.net_model.specs.Cycle as cycle;
ghost use Rattle.rtl_flat.specs.Process.{Actions, Edge', Watched, action, body_of, doing, watched};
ghost use Rattle.rtl_flat.specs.WellFormed.{has_edge};
ghost use Rattle.rtl_flat.specs.Flats.{flat};
ghost use Rattle.check_chains.specs.Chains as spec;
ghost use Rattle.check_chains.specs.Inner.{IsStep, events_view};
ghost use Rattle.check_chains.specs.Views.{chain_view};

use crate::choice::choice_of;
use crate::tested::tested;
use rtl_bits::Edge;
use rtl_flat::act::{Act, Does, EventItem};
use rtl_flat::design::Design;
use rtl_flat::expr::{SigId, SizedExpr};
use std::alloc::Global;
use text_ground::memory::Memory;

/// An asynchronous reset: its event, its test, and what is done while it holds.
#[derive(Clone, Copy)]
pub struct Guard<'d> {
    pub item: &'d EventItem,
    pub test: &'d SizedExpr,
    pub branch: &'d [Act],
}

/// A body as its resets, the strongest first, its clock, and what is done at the clock's edge.
#[derive(Drop)]
pub struct Chain<'d> {
    pub resets: Vec<Guard<'d>>,
    pub clock: &'d EventItem,
    pub part: &'d [Act],
}

/// Whether an item has an edge.
fn has_edge(item: &EventItem) -> bool
    ensures { result ≡ has_edge item.now.edge }
{
    match item.edge {
        Edge::No => false,
        Edge::Pos => true,
        Edge::Neg => true,
    }
}

/// Whether all items have edges.
pub(crate) fn all_edges(events: &[EventItem]) -> bool
    ensures { result ≡ list_all (λ item. has_edge item.edge) events.now }
{
    events.iter().all(|item| has_edge(item))
}

/// The place of the first item of a signal.
fn place_of(events: &[&EventItem], signal: SigId) -> Option<usize>
    ensures { result ≡ position (λ item. item.now.signal.0 == signal.0) events.now }
{
    events.iter().position(|item| item.signal.0 == signal.0)
}

/// Takes the first item of a signal out of some events.
fn take_out<'d>(events: &mut Vec<&'d EventItem>, signal: SigId) -> Option<&'d EventItem>
    ensures { MatchOption result
        (spec.taken_out signal.0 (events_view events.old.items) ≡ None)
        (λ item. (vec_len events.new + 1 ≡ vec_len events.old)
        × (spec.taken_out signal.0 (events_view events.old.items)
        ≡ Some (watched item.now, events_view events.new.items))) }
{
    let place = place_of(events, signal)?;
    Some(events.remove(place))
}

/// A leading reset, and the rest of the body.
#[derive(Clone, Copy)]
struct Step<'d> {
    guard: Guard<'d>,
    rest: &'d [Act],
}

/// The reset that leads a body; its event is taken out.
fn step_of<'d>(
    design: &Design,
    events: &mut Vec<&'d EventItem>,
    body: &'d [Act],
) -> Option<Step<'d>>
    ensures { MatchOption result
        ((go : List Watched → Actions → Option cycle.Chain) →
        spec.headed (flat design.now) go (events_view events.old.items)
        (cycle.opened (body_of (map action body.now))) ≡ None)
        (λ step. (vec_len events.new + 1 ≡ vec_len events.old)
        × IsStep (flat design.now) events.old.items (body_of (map action body.now)) step events.new.items) }
{
    let choice = choice_of(body)?;
    let test = tested(design, choice.test)?;
    let item = take_out(events, test.signal)?;
    Some(Step {
        guard: Guard {
            item,
            test: choice.test,
            branch: choice.taken,
        },
        rest: choice.other,
    })
}

/// The chain of a process whose items all have edges, if its body is an `if` for each but one.
pub fn chain_of<'d>(
    alloc: Global,
    design: &'d Design,
    does: &'d Does,
) -> Result<Option<Chain<'d>>, Memory>
    ensures { IfOk result (λ found.
        option_map chain_view found ≡ spec.chain_of (flat design.now) (doing does.now)) }
{
    match does {
        Does::Assign { .. } => Ok(None),
        Does::Comb { .. } => Ok(None),
        Does::Edge { events, body } => edge_chain(alloc, design, events, body),
    }
}

/// Each of some events.
fn all_of<'d>(alloc: Global, events: &'d [EventItem]) -> Result<Vec<&'d EventItem>, Memory>
    ensures { IfOk result (λ all. events_view all.items ≡ map watched events.now) }
{
    let mut all = Vec::new(alloc);
    for item in events {
        all.push(item)?;
    }
    Ok(all)
}

/// The chain of a body that waits for events.
fn edge_chain<'d>(
    alloc: Global,
    design: &'d Design,
    events: &'d [EventItem],
    body: &'d [Act],
) -> Result<Option<Chain<'d>>, Memory>
    ensures { IfOk result (λ found. option_map chain_view found
        ≡ spec.chain_of (flat design.now) (Edge' (map watched events.now) (body_of (map action body.now)))) }
{
    if !all_edges(events) {
        return Ok(None);
    }
    let mut left = all_of(alloc, events)?;
    let mut resets = Vec::new(alloc);
    let mut rest = body;
    while left.len() > 1 {
        let Some(step) = step_of(design, &mut left, rest) else {
            return Ok(None);
        };
        resets.push(step.guard)?;
        rest = step.rest;
    }
    match left.pop() {
        Some(clock) => Ok(Some(Chain {
            resets,
            clock,
            part: rest,
        })),
        None => Ok(None),
    }
}
