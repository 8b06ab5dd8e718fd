// Chains of resets that are none, that test the wrong level, or that have several resets.

ghost use Rattle.std.specs.Prelude.{◌≡◌, ◌&&◌, map, IfOk};
ghost use Rattle.std.specs.List.{list_all, list_any};
ghost use Rattle.rtl_flat.specs.Process.{doing, watched};
ghost use Rattle.rtl_flat.specs.WellFormed.{has_edge};
ghost use Rattle.rtl_rule.specs.Parts.{agree};
ghost use Rattle.rtl_flat.specs.Flats.{flat};
ghost use Rattle.check_chains.specs.Chains as spec;
ghost use Rattle.check_chains.specs.Inner.{has_pair, has_turned, is_turned_guard};
ghost use Rattle.check_chains.specs.Views.{guard_view};

use crate::chain::{Guard, all_edges, chain_of};
use crate::telling::push_if;
use crate::tested::tested;
use rtl_bits::Edge;
use rtl_flat::act::{Does, EventItem, ProcId};
use rtl_flat::design::Design;
use rtl_rule::finding::Finding;
use rtl_rule::rule::Rule;
use std::alloc::Global;
use text_ground::memory::Memory;

/// Whether there are several events, each with an edge.
#[tactic(auto, using(crate::proofs::Taken::all_watched))]
fn are_edges(events: &[EventItem]) -> bool
    ensures { result ≡ (spec.is_more (map watched events.now)
        && list_all (λ item. has_edge item.edge) (map watched events.now)) }
{
    events.len() > 1 && all_edges(events)
}

/// Whether a process waits for several edges, and its body is no chain of resets.
pub fn is_shapeless(alloc: Global, design: &Design, does: &Does) -> Result<bool, Memory>
    ensures { IfOk result (λ shapeless. shapeless ≡ spec.is_shapeless (flat design.now) (doing does.now)) }
{
    match does {
        Does::Assign { .. } => Ok(false),
        Does::Comb { .. } => Ok(false),
        Does::Edge { events, body: _ } => {
            if !are_edges(events) {
                return Ok(false);
            }
            match chain_of(alloc, design, does)? {
                None => Ok(true),
                Some(_) => Ok(false),
            }
        }
    }
}

/// Processes that wait for several edges, and whose body is no chain of resets.
pub fn reset_shape(alloc: Global, design: &Design) -> Result<Vec<Finding>, Memory>
    ensures { IfOk result (λ found. spec.AreResetShape (flat design.now) found.items) }
{
    let mut found = Vec::new(alloc);
    for number in 0..design.processes.len() {
        let p = ProcId(number as u32);
        let broken = is_shapeless(alloc, design, &design.processes[number].does)?;
        push_if(alloc, design, Rule::ResetShape, p, broken, &mut found)?;
    }
    Ok(found)
}

/// Whether a level is the one that an edge goes to.
fn goes_to(edge: Edge, level: bool) -> bool
    ensures { result ≡ agree (spec.goes_up edge) level }
{
    match edge {
        Edge::Pos => level,
        Edge::Neg => !level,
        Edge::No => !level,
    }
}

/// Whether a reset is tested at the level that its edge leaves.
fn is_turned(design: &Design, guard: &Guard) -> bool
    ensures { result ≡ is_turned_guard (flat design.now) (guard_view guard.now) }
{
    match tested(design, guard.test) {
        None => false,
        Some(test) => !goes_to(guard.item.edge, test.level),
    }
}

fn any_turned(design: &Design, guards: &[Guard]) -> bool
    ensures { result ≡ list_any (is_turned_guard (flat design.now)) (map guard_view guards.now) }
{
    for guard in guards {
        if is_turned(design, guard) {
            return true;
        }
    }
    false
}

/// Whether a process has a chain with such a reset.
pub fn has_turned(alloc: Global, design: &Design, does: &Does) -> Result<bool, Memory>
    ensures { IfOk result (λ turned. turned ≡ has_turned (flat design.now) (doing does.now)) }
{
    match chain_of(alloc, design, does)? {
        None => Ok(false),
        Some(chain) => Ok(any_turned(design, &chain.resets)),
    }
}

/// Processes with a reset that is tested at the level that its edge leaves.
pub fn reset_polarity(alloc: Global, design: &Design) -> Result<Vec<Finding>, Memory>
    ensures { IfOk result (λ found. spec.AreResetPolarity (flat design.now) found.items) }
{
    let mut found = Vec::new(alloc);
    for number in 0..design.processes.len() {
        let p = ProcId(number as u32);
        let broken = has_turned(alloc, design, &design.processes[number].does)?;
        push_if(alloc, design, Rule::ResetPolarity, p, broken, &mut found)?;
    }
    Ok(found)
}

/// Whether a process has a chain of several resets.
fn has_pair(alloc: Global, design: &Design, does: &Does) -> Result<bool, Memory>
    ensures { IfOk result (λ several. several ≡ has_pair (flat design.now) (doing does.now)) }
{
    match chain_of(alloc, design, does)? {
        None => Ok(false),
        Some(chain) => Ok(chain.resets.len() > 1),
    }
}

/// Processes with two asynchronous resets or more.
pub fn async_pair(alloc: Global, design: &Design) -> Result<Vec<Finding>, Memory>
    ensures { IfOk result (λ found. spec.AreAsyncPair (flat design.now) found.items) }
{
    let mut found = Vec::new(alloc);
    for number in 0..design.processes.len() {
        let p = ProcId(number as u32);
        let broken = has_pair(alloc, design, &design.processes[number].does)?;
        push_if(alloc, design, Rule::AsyncPair, p, broken, &mut found)?;
    }
    Ok(found)
}
