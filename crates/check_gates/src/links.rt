// The plain connections of input ports, and rows of links.

ghost use Rattle.std.specs.Prelude.{◌≡◌, ◌<◌, ◌==◌, [], length, map, IfOk, OnOk};
ghost use Rattle.std.specs.List.{filter_map, slice_get};
ghost use Rattle.std.specs.Option.{option_map};
ghost use Rattle.rtl_flat.specs.Expression.{tree};
ghost use Rattle.rtl_flat.specs.Process.{doing, piece};
ghost use Rattle.rtl_flat.specs.Flats.{flat, widths};
ghost use Rattle.check_chains.specs.Inner.{whole_of};
ghost use Rattle.check_gates.specs.Links.{AreRows, IsPut, bit_named, is_elsewhere, is_link, link_if, plain_in, plain_of, whole_target};

use crate::reach::Link;
use rtl_flat::act::{Does, Process, Target};
use rtl_flat::design::Design;
use rtl_flat::expr::{Node, Select, SigId, SizedExpr};
use std::alloc::Global;
use text_ground::memory::Memory;

/// The signal that an expression is, as it stands.
pub(crate) fn whole_of(e: &SizedExpr) -> Option<SigId>
    ensures { option_map (λ signal. signal.0) result ≡ whole_of (tree e.now) }
{
    match &e.node {
        Node::Read(signal, select) => match select {
            Select::Whole => Some(*signal),
            Select::Bit { low: _, index: _ } => None,
            Select::Part { low: _, width: _ } => None,
        },
        _ => None,
    }
}

/// The signal that an expression of one bit is.
pub fn bit_named(value: &SizedExpr) -> Option<SigId>
    ensures { option_map (λ signal. signal.0) result ≡ bit_named (tree value.now) }
{
    if value.width != 1 {
        return None;
    }
    whole_of(value)
}

/// The signal that is all of a target.
pub fn whole_target(target: &Target) -> Option<SigId>
    ensures { let pieces = map piece target.now.parts.items in
        option_map (λ signal. signal.0) result ≡ whole_target pieces }
{
    match target.parts.as_slice() {
        [part] if matches!(part.select, Select::Whole) => Some(part.signal),
        _ => None,
    }
}

/// Whether a signal is there with one bit.
pub fn is_bit(design: &Design, signal: SigId) -> bool
    ensures { result ≡ (widths (flat design.now) signal.0 == 1) }
{
    match design.signals.get(signal.0 as usize) {
        Some(signal) => signal.width == 1,
        None => false,
    }
}

/// Whether a signal is there in another instance.
pub(crate) fn is_elsewhere(design: &Design, instance: u32, signal: SigId) -> bool
    ensures { result ≡ is_elsewhere instance (slice_get design.now.signals.items signal.0) }
{
    match design.signals.get(signal.0 as usize) {
        Some(signal) => signal.instance != instance,
        None => false,
    }
}

/// The link of a connection, if it goes from a signal of one bit to one of another instance.
pub(crate) fn link_if(design: &Design, instance: u32, source: SigId, target: SigId) -> Option<Link>
    ensures { let holds = is_link (flat design.now) instance source.0 target.0 in
        result ≡ link_if holds source.0 target.0 }
{
    if is_bit(design, source) && is_bit(design, target) && is_elsewhere(design, instance, target) {
        return Some(Link {
            source: source.0,
            target: target.0,
        });
    }
    None
}

/// The plain connection that a process is.
fn plain_link(design: &Design, process: &Process) -> Option<Link>
    ensures { result ≡ plain_in (flat design.now) process.now.instance (doing process.now.does) }
{
    match &process.does {
        Does::Assign { target, value } => {
            let source = bit_named(value)?;
            let target = whole_target(target)?;
            link_if(design, process.instance, source, target)
        }
        Does::Comb { list: _, body: _ } => None,
        Does::Edge { events: _, body: _ } => None,
    }
}

/// All plain connections.
pub(crate) fn plain_links(alloc: Global, design: &Design) -> Result<Vec<Link>, Memory>
    ensures { IfOk result (λ links.
        links.items ≡ filter_map (plain_of (flat design.now)) (flat design.now).tasks) }
{
    let mut links = Vec::new(alloc);
    for process in &design.processes {
        if let Some(link) = plain_link(design, process) {
            links.push(link)?;
        }
    }
    Ok(links)
}

/// Puts a number into a row.
pub fn push_at(rows: &mut Vec<Vec<u32>>, place: usize, value: u32) -> Result<(), Memory>
    requires { place < length rows.old.items }
    ensures { OnOk result (IsPut place value rows.old.items rows.new.items) }
{
    rows[place].push(value)?;
    Ok(())
}

/// Rows without numbers.
pub fn empty_rows(alloc: Global, count: usize) -> Result<Vec<Vec<u32>>, Memory>
    ensures { IfOk result (λ rows. AreRows count [] rows.items) }
{
    let mut rows = Vec::new(alloc);
    for _ in 0..count {
        rows.push(Vec::new(alloc))?;
    }
    Ok(rows)
}

/// The targets of links, by their sources.
pub fn rows_of(alloc: Global, count: usize, links: &[Link]) -> Result<Vec<Vec<u32>>, Memory>
    ensures { IfOk result (λ rows. AreRows count links.now rows.items) }
{
    let mut rows = empty_rows(alloc, count)?;
    for link in links {
        let place = link.source as usize;
        if place < count {
            push_at(&mut rows, place, link.target)?;
        }
    }
    Ok(rows)
}
