// Lists with an edge that have an item without one.

ghost use Rattle.std.specs.Prelude.{ℕ, ◌≡◌, not, map, IfOk, OnOk};
ghost use Rattle.rtl_flat.specs.Process.{doing, task, watched};
ghost use Rattle.rtl_flat.specs.Flats.{flat};
ghost use Rattle.rtl_flat.specs.WellFormed.{has_edge};
ghost use Rattle.check_found.specs.Gathered.{Gets, task_sites};
ghost use Rattle.check_sense.specs.Sense.{AreMixedEdges, IsMixedEdges, first_level, mixed_edges_at, signal_of};
ghost use Rattle.check_sense.specs.Telling.{itself, level_in};

use rtl_bits::Edge;
use rtl_flat::act::{Does, EventItem, Process};
use rtl_flat::design::Design;
use rtl_flat::expr::SigId;
use rtl_rule::finding::Finding;
use rtl_rule::rule::Rule;
use std::alloc::Global;
use text_ground::memory::Memory;

/// Whether an item has no edge.
fn is_level(item: &EventItem) -> bool
    ensures { result ≡ not (has_edge item.now.edge) }
{
    matches!(item.edge, Edge::No)
}

/// The signal of the first item without an edge.
fn first_without_edge(events: &[EventItem]) -> Option<SigId>
    ensures { result ≡ signal_of (level_in (map watched events.now)) }
{
    for item in events {
        if is_level(item) {
            return Some(item.signal);
        }
    }
    None
}

/// The signal of the first item without an edge, in a list that has one with an edge.
fn first_level(does: &Does) -> Option<SigId>
    ensures { result ≡ signal_of (first_level (doing does.now)) }
{
    match does {
        Does::Assign {
            target: _,
            value: _,
        } => None,
        Does::Comb { list: _, body: _ } => None,
        Does::Edge { events, body: _ } => first_without_edge(events),
    }
}

fn push_mixed(process: &Process, found: &mut Vec<Finding>) -> Result<(), Memory>
    ensures { OnOk result ((p : ℕ) → Gets IsMixedEdges mixed_edges_at
        (task_sites itself p (task process.now)) found.old.items found.new.items) }
{
    if let Some(signal) = first_level(&process.does) {
        found.push(Finding {
            rule: Rule::MixedEdges,
            signal: Some(signal),
            instance: process.instance,
            spot: process.spot,
        })?;
    }
    Ok(())
}

/// Processes with an edge in their list, and an item without one.
pub fn mixed_edges(alloc: Global, design: &Design) -> Result<Vec<Finding>, Memory>
    ensures { IfOk result (λ found. AreMixedEdges (flat design.now) found.items) }
{
    let mut found = Vec::new(alloc);
    for process in &design.processes {
        push_mixed(process, &mut found)?;
    }
    Ok(found)
}
