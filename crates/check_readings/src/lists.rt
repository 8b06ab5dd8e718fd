// Items of lists whose indices are computed.

ghost use Rattle.std.specs.Prelude.{ℕ, ◌≡◌, ◌++◌, IfOk, OnOk};
ghost use Rattle.std.specs.List.{flat_map};
ghost use Rattle.rtl_flat.specs.Flats.{flat};
ghost use Rattle.rtl_flat.specs.Process.{task, watched};
ghost use Rattle.rtl_rule.specs.Parts.{items_of};
ghost use Rattle.check_readings.specs.Readings.{AreListIndex, is_list_index};
ghost use Rattle.check_readings.specs.Told.{item_told};

use crate::targets::is_computed;
use check_parts::statements::items;
use rtl_bits::Edge;
use rtl_flat::act::{EventItem, Process};
use rtl_flat::design::Design;
use rtl_rule::finding::Finding;
use rtl_rule::rule::Rule;
use std::alloc::Global;
use text_ground::memory::Memory;

/// Whether an item without an edge has a computed index.
fn is_list_index(item: &EventItem) -> bool
    ensures { result ≡ is_list_index (watched item.now) }
{
    match item.edge {
        Edge::No => is_computed(&item.select),
        Edge::Pos => false,
        Edge::Neg => false,
    }
}

fn push_item(process: &Process, item: &EventItem, found: &mut Vec<Finding>) -> Result<(), Memory>
    ensures { let task = task process.now in
        OnOk result ((p : ℕ) →
        found.new.items ≡ found.old.items ++ item_told p task (watched item.now)) }
{
    if is_list_index(item) {
        found.push(Finding {
            rule: Rule::ListIndex,
            signal: Some(item.signal),
            instance: process.instance,
            spot: item.spot,
        })?;
    }
    Ok(())
}

fn push_items(process: &Process, found: &mut Vec<Finding>) -> Result<(), Memory>
    ensures { let task = task process.now in
        OnOk result ((p : ℕ) → found.new.items
        ≡ found.old.items ++ flat_map (item_told p task) (items_of task.does)) }
{
    let items = items(&process.does);
    for item in items {
        push_item(process, item, found)?;
    }
    Ok(())
}

/// Items without an edge whose index is computed.
pub(crate) fn list_index(alloc: Global, design: &Design) -> Result<Vec<Finding>, Memory>
    ensures { IfOk result (λ found. AreListIndex (flat design.now) found.items) }
{
    let mut found = Vec::new(alloc);
    for process in &design.processes {
        push_items(process, &mut found)?;
    }
    Ok(found)
}
