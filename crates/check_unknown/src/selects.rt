// Bit-selects that may lie outside their signals.

ghost use Rattle.std.specs.Prelude.{ℕ, ◌≡◌, ◌<◌, ◌++◌, ◌^◌, [], nat_lt, map, length, Some, IfOk, OnOk};
ghost use Rattle.std.specs.List.{cons_option, filter_map, slice_get};
ghost use Rattle.text_ground.specs.declared.text.Spot.{Spot};
ghost use Rattle.rtl_flat.specs.Expression.{tree};
ghost use Rattle.rtl_flat.specs.Process.{Piece, Task, Watched, piece, selection, watched};
ghost use Rattle.rtl_flat.specs.Signs.{width_in};
ghost use Rattle.rtl_flat.specs.Flats.{flat, widths};
ghost use Rattle.check_unknown.specs.Lists.{AreNodes, misses, misses_found};
ghost use Rattle.check_unknown.specs.Unknowns.{pick_in, pick_of, picks};

use check_chains::check_parts::statements::{items, pieces};
use check_chains::rtl_scan::selected;
use rtl_flat::act::{EventItem, ProcId, TargetPart};
use rtl_flat::design::Design;
use rtl_flat::expr::{Index, Node, Select, SigId, SizedExpr};
use rtl_flat::signal::Signal;
use rtl_rule::finding::Finding;
use rtl_rule::rule::Rule;
use std::alloc::Global;
use text_ground::memory::Memory;
use text_ground::text::Spot;

/// The width of a signal.
fn width_of(signals: &[Signal], signal: SigId) -> u8
    ensures { result ≡ width_in signals.now signal.0 }
{
    match signals.get(signal.0 as usize) {
        Some(signal) => signal.width,
        None => 0,
    }
}

/// Whether there are more numbers of so many bits than places in a width.
fn exceeds(bits: u8, width: u8) -> bool
    ensures { result ≡ nat_lt width (2 ^ bits) }
{
    bits >= 8 || width >> bits == 0
}

/// Whether a select is one bit that may lie outside its signal.
fn may_miss(design: &Design, signal: SigId, select: &Select) -> bool
    ensures { (spot : Spot) → result ≡ misses (widths (flat design.now)) (pick_of signal.0 spot
        (selection select.now)) }
{
    match select {
        Select::Whole => false,
        Select::Part { low: _, width: _ } => false,
        Select::Bit { low, index } => match index {
            Index::Fixed(_) => selected(design, signal, select).mask == 0,
            Index::Computed(index) => {
                index.signed || *low > 0 || exceeds(index.width, width_of(&design.signals, signal))
            }
        },
    }
}

/// Adds the finding of a select that may lie outside its signal.
fn push_miss(
    design: &Design,
    instance: u32,
    signal: SigId,
    select: &Select,
    spot: Spot,
    found: &mut Vec<Finding>,
) -> Result<(), Memory>
    ensures { OnOk result (found.new.items ≡ found.old.items ++ misses_found (widths
        (flat design.now)) instance (cons_option (pick_of signal.0 spot
        (selection select.now)) [])) }
{
    if may_miss(design, signal, select) {
        found.push(Finding {
            rule: Rule::SelectRange,
            signal: Some(signal),
            instance,
            spot,
        })?;
    }
    Ok(())
}

/// Adds the findings of the items of a list.
fn push_listed(
    design: &Design,
    instance: u32,
    items: &[EventItem],
    found: &mut Vec<Finding>,
) -> Result<(), Memory>
    ensures { OnOk result (found.new.items ≡ found.old.items ++ misses_found (widths
        (flat design.now)) instance (filter_map (λ
        (item : Watched). pick_of item.signal item.spot item.selection)
        (map watched items.now))) }
{
    for item in items {
        push_miss(
            design,
            instance,
            item.signal,
            &item.select,
            item.spot,
            found,
        )?;
    }
    Ok(())
}

/// Adds the finding of an expression that reads a bit.
fn push_read(
    design: &Design,
    instance: u32,
    e: &SizedExpr,
    found: &mut Vec<Finding>,
) -> Result<(), Memory>
    ensures { OnOk result (found.new.items ≡ found.old.items ++ misses_found (widths
        (flat design.now)) instance (cons_option (pick_in (tree e.now)) [])) }
{
    match &e.node {
        Node::Read(signal, select) => {
            push_miss(design, instance, *signal, select, e.spot, found)
        }
        _ => Ok(()),
    }
}

/// Adds the findings of expressions.
fn push_reads(
    design: &Design,
    instance: u32,
    all: &[&SizedExpr],
    found: &mut Vec<Finding>,
) -> Result<(), Memory>
    ensures { OnOk result (found.new.items ≡ found.old.items ++ misses_found (widths
        (flat design.now)) instance (filter_map pick_in (map (λ e. tree e.now) all.now))) }
{
    for e in all {
        push_read(design, instance, e, found)?;
    }
    Ok(())
}

/// Adds the findings of targets.
fn push_written(
    design: &Design,
    instance: u32,
    targets: &[&TargetPart],
    found: &mut Vec<Finding>,
) -> Result<(), Memory>
    ensures { OnOk result (found.new.items ≡ found.old.items ++ misses_found (widths
        (flat design.now)) instance (filter_map (λ
        (one : Piece). pick_of one.signal one.spot one.selection) (map
        (λ one. piece one.now) targets.now))) }
{
    for part in targets {
        push_miss(
            design,
            instance,
            part.signal,
            &part.select,
            part.spot,
            found,
        )?;
    }
    Ok(())
}

/// Adds the findings of a process's bit-selects that may lie outside their signals, in its list, its targets and, as given, all
/// its expressions.
///
/// A computed index counts as inside where it is unsigned and has no value that isn't a place.
pub(crate) fn push_misses(
    alloc: Global,
    design: &Design,
    p: ProcId,
    all: &[&SizedExpr],
    found: &mut Vec<Finding>,
) -> Result<(), Memory>
    requires there { p.0 < length design.now.processes.items }
    requires all { AreNodes (flat design.now) p.0 (map (λ e. tree e.now) all.now) }
    ensures { OnOk result ((task : Task) → slice_get (flat design.now).tasks p.0 ≡ Some task
        → found.new.items ≡ found.old.items ++ misses_found (widths
        (flat design.now)) task.instance (picks task.does)) }
{
    let process = &design.processes[p.0 as usize];
    let targets = pieces(alloc, &process.does)?;
    push_listed(design, process.instance, items(&process.does), found)?;
    push_reads(design, process.instance, all, found)?;
    push_written(design, process.instance, &targets, found)
}
