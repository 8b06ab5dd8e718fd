//! Who hears changes of each signal.

ghost use Rattle.std.specs.Prelude.{ℕ, ◌≡◌, ◌<◌, ◌&&◌, [], length, map, IfOk, IfSome, IsTrue, OnOk};
ghost use Rattle.std.specs.List.{list_any};
ghost use Rattle.rtl_bits.specs.declared.Edge.TheVariants.{No};
ghost use Rattle.rtl_flat.specs.Process.{watched};
ghost use Rattle.event_model.specs.Queue.{happens, item_hears};
ghost use Rattle.rtl_flat.specs.Flats.{flat, widths};
ghost use Rattle.event_write.specs.rtl_scan.Sets.{has_row, has_rows};
ghost use Rattle.event_tables.specs.Hearing.{AreHeard, Hears, IsLike, Joins, listens_at};

use crate::rows::empty_rows;
use event_write::listener::Listener;
use event_write::rtl_scan::bits::Row;
use event_write::rtl_scan::{lists, reads, selected};
use rtl_bits::Edge;
use rtl_flat::act::{Does, EventItem, Listed, ProcId};
use rtl_flat::design::Design;
use std::alloc::Global;
use text_ground::memory::Memory;

/// Where in a row the listener with a kind of event and a mask stands, if there is one.
fn place_of(row: &[Listener], edge: Edge, mask: u128) -> Option<usize>
    ensures { IfSome result (λ at. IsLike row.now at edge mask) }
{
    for at in 0..row.len() {
        let listener = &row[at];
        if is_like(listener, edge, mask) {
            return Some(at);
        }
    }
    None
}

/// Whether a listener has a kind of event and a mask.
fn is_like(listener: &Listener, edge: Edge, mask: u128) -> bool
    ensures { IsTrue result → (listener.now.edge ≡ edge) × (listener.now.mask ≡ mask) }
{
    listener.mask == mask && is_same(listener.edge, edge)
}

/// Whether two kinds of events are the same.
fn is_same(one: Edge, other: Edge) -> bool
    ensures { IsTrue result → one ≡ other }
{
    match (one, other) {
        (Edge::No, Edge::No) => true,
        (Edge::Pos, Edge::Pos) => true,
        (Edge::Neg, Edge::Neg) => true,
        _ => false,
    }
}

/// Lets a process hear bits of the signal whose row this is, beside those that hear the same ones.
fn join(
    alloc: Global,
    row: &mut Vec<Listener>,
    process: ProcId,
    edge: Edge,
    mask: u128,
) -> Result<(), Memory>
    ensures { OnOk result (Joins process edge mask row.old.items row.new.items) }
{
    if let Some(at) = place_of(row, edge, mask) {
        row[at].processes.push(process)?;
        return Ok(());
    }
    let mut processes = Vec::new(alloc);
    processes.push(process)?;
    row.push(Listener {
        processes,
        edge,
        mask,
    })?;
    Ok(())
}

/// Lets a process hear bits of a signal.
fn hear_bits(
    alloc: Global,
    listeners: &mut Vec<Vec<Listener>>,
    process: ProcId,
    edge: Edge,
    bits: Row,
) -> Result<(), Memory>
    ensures { OnOk result (Hears process.0
        (λ s k old new. has_row bits s k && happens edge old new) listeners.old.items
        listeners.new.items) }
{
    let place = bits.signal.0 as usize;
    if place >= listeners.len() {
        // A signal that isn't there has no bit that changes.
        return Ok(());
    }
    join(alloc, &mut listeners[place], process, edge, bits.mask)
}

/// Lets a process hear any change of bits.
fn hear_rows(
    alloc: Global,
    listeners: &mut Vec<Vec<Listener>>,
    process: ProcId,
    rows: &[Row],
) -> Result<(), Memory>
    ensures { OnOk result (Hears process.0
        (λ s k old new. has_rows rows.now s k && happens No old new) listeners.old.items
        listeners.new.items) }
{
    for row in rows {
        hear_bits(alloc, listeners, process, Edge::No, *row)?;
    }
    Ok(())
}

/// Lets a process hear the items of its list.
fn hear_items(
    alloc: Global,
    listeners: &mut Vec<Vec<Listener>>,
    design: &Design,
    process: ProcId,
    items: &[EventItem],
) -> Result<(), Memory>
    ensures { OnOk result (Hears process.0
        (λ s k old new. list_any (item_hears (widths (flat design.now)) s k old new)
        (map watched items.now)) listeners.old.items listeners.new.items) }
{
    for item in items {
        let bits = selected(design, item.signal, &item.select);
        hear_bits(alloc, listeners, process, item.edge, bits)?;
    }
    Ok(())
}

/// Lets a process hear what it is sensitive to: an assignment what it reads, `@*` what its body reads.
fn hear(
    alloc: Global,
    listeners: &mut Vec<Vec<Listener>>,
    design: &Design,
    process: ProcId,
) -> Result<(), Memory>
    requires { process.0 < length design.now.processes.items }
    ensures { OnOk result (Hears process.0 (listens_at (flat design.now) process.0)
        listeners.old.items listeners.new.items) }
{
    match &design.processes[process.0 as usize].does {
        Does::Assign {
            target: _,
            value: _,
        } => {
            let bits = reads(alloc, design, process)?;
            hear_rows(alloc, listeners, process, &bits.rows)
        }
        Does::Comb { list, body: _ } => match list {
            Listed::Star => {
                let bits = lists(alloc, design, process)?;
                hear_rows(alloc, listeners, process, &bits.rows)
            }
            Listed::Items(items) => hear_items(alloc, listeners, design, process, items),
        },
        Does::Edge { events, body: _ } => hear_items(alloc, listeners, design, process, events),
    }
}

/// Who hears changes of each signal.
pub(crate) fn listeners_of(alloc: Global, design: &Design) -> Result<Vec<Vec<Listener>>, Memory>
    ensures { IfOk result (λ listeners.
        AreHeard (flat design.now) (length design.now.processes.items) listeners.items) }
{
    let mut listeners = empty_rows(alloc, design.signals.len())?;
    for number in 0..design.processes.len() {
        hear(alloc, &mut listeners, design, ProcId(number as u32))?;
    }
    Ok(listeners)
}
