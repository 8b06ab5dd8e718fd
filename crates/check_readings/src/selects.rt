// Part-selects of all bits of signed signals, as amounts of shifts and as indices.

ghost use Rattle.std.specs.Prelude.{ℕ, ◌≡◌, ◌++◌, Bool, map, IfOk, OnOk};
ghost use Rattle.std.specs.List.{flat_map, slice_get};
ghost use Rattle.text_ground.specs.declared.text.Spot.{Spot};
ghost use Rattle.rtl_flat.specs.Expression.{Sized, read, tree};
ghost use Rattle.rtl_flat.specs.Flats.{flat};
ghost use Rattle.rtl_flat.specs.Process.{doing, selection, task, watched};
ghost use Rattle.rtl_rule.specs.Parts.{index_of};
ghost use Rattle.check_parts.specs.Kept.{expressions, targets};
ghost use Rattle.check_readings.specs.Readings.{AreWholeSelect, amounts, is_signed_of, own_amount, whole_signal};
ghost use Rattle.check_readings.specs.Told.{whole_told};

use check_parts::expressions::{labels, nodes, trees};
use check_parts::statements::{items, pieces};
use rtl_flat::act::{Does, EventItem, Process, TargetPart};
use rtl_flat::design::Design;
use rtl_flat::expr::{Index, Node, Select, SigId, SizedExpr};
use rtl_flat::signal::Signal;
use rtl_rule::finding::Finding;
use rtl_rule::rule::Rule;
use std::alloc::Global;
use text_ground::memory::Memory;

// ---- amounts and indices

fn push_index<'d>(select: &'d Select, found: &mut Vec<&'d SizedExpr>) -> Result<(), Memory>
    ensures { let own = index_of (selection select.now) in
        OnOk result (expressions found.new.items ≡ expressions found.old.items ++ own) }
{
    match select {
        Select::Whole => Ok(()),
        Select::Bit { low: _, index } => match index {
            Index::Fixed(_) => Ok(()),
            Index::Computed(index) => {
                found.push(index)?;
                Ok(())
            }
        },
        Select::Part { low: _, width: _ } => Ok(()),
    }
}

fn push_listed<'d>(items: &'d [EventItem], found: &mut Vec<&'d SizedExpr>) -> Result<(), Memory>
    ensures { let own = flat_map (λ item. index_of item.selection) (map watched items.now) in
        OnOk result (expressions found.new.items ≡ expressions found.old.items ++ own) }
{
    for item in items {
        push_index(&item.select, found)?;
    }
    Ok(())
}

fn push_written<'d>(parts: &[&'d TargetPart], found: &mut Vec<&'d SizedExpr>) -> Result<(), Memory>
    ensures { let own = flat_map (λ piece. index_of piece.selection) (targets parts.now) in
        OnOk result (expressions found.new.items ≡ expressions found.old.items ++ own) }
{
    for part in parts {
        push_index(&part.select, found)?;
    }
    Ok(())
}

/// Adds the amount or the index that an expression itself has.
fn push_amount<'d>(e: &'d SizedExpr, found: &mut Vec<&'d SizedExpr>) -> Result<(), Memory>
    ensures { let own = own_amount (tree e.now) in
        OnOk result (expressions found.new.items ≡ expressions found.old.items ++ own) }
{
    match &e.node {
        Node::Shifted(_, _, amount) => {
            found.push(amount)?;
            Ok(())
        }
        Node::Read(_, select) => push_index(select, found),
        _ => Ok(()),
    }
}

fn push_amounts<'d>(all: &[&'d SizedExpr], found: &mut Vec<&'d SizedExpr>) -> Result<(), Memory>
    ensures { let own = flat_map own_amount (expressions all.now) in
        OnOk result (expressions found.new.items ≡ expressions found.old.items ++ own) }
{
    for e in all {
        push_amount(e, found)?;
    }
    Ok(())
}

/// The amounts of shifts and the computed indices of a process.
fn amounts<'d>(alloc: Global, does: &'d Does) -> Result<Vec<&'d SizedExpr>, Memory>
    ensures { IfOk result (λ all. map (λ e. tree e.now) all.items ≡ amounts (doing does.now)) }
{
    let mut found = Vec::new(alloc);
    push_listed(items(does), &mut found)?;
    let targets = pieces(alloc, does)?;
    push_written(&targets, &mut found)?;
    let mut all = trees(alloc, does)?;
    let labels = labels(alloc, does)?;
    all.extend_from_slice(&labels)?;
    let all = nodes(alloc, &all)?;
    push_amounts(&all, &mut found)?;
    Ok(found)
}

// ---- part-selects of all bits

/// Whether a signal is signed and has so many bits.
fn is_signed_of(signals: &[Signal], signal: SigId, width: u8) -> bool
    ensures { result ≡ is_signed_of width (slice_get signals.now signal.0) }
{
    match signals.get(signal.0 as usize) {
        Some(signal) => signal.signed && signal.width == width,
        None => false,
    }
}

/// The signal, if a select has all of its bits as a part, and it is signed.
fn whole_of(design: &Design, signal: SigId, select: &Select) -> Option<SigId>
    ensures { (w : ℕ) (s : Bool) (spot : Spot) →
        result ≡ whole_signal (flat design.now) (Sized w s spot (read signal.0 select.now)) }
{
    match select {
        Select::Whole => None,
        Select::Bit { low: _, index } => match index {
            Index::Fixed(_) => None,
            Index::Computed(_) => None,
        },
        Select::Part { low: _, width } => {
            if is_signed_of(&design.signals, signal, *width) {
                Some(signal)
            } else {
                None
            }
        }
    }
}

/// The signal of which an expression is a part-select of all bits, if it is a signed one.
fn whole_signal(design: &Design, e: &SizedExpr) -> Option<SigId>
    ensures { result ≡ whole_signal (flat design.now) (tree e.now) }
{
    match &e.node {
        Node::Read(signal, select) => whole_of(design, *signal, select),
        _ => None,
    }
}

fn push_whole(
    design: &Design,
    process: &Process,
    e: &SizedExpr,
    found: &mut Vec<Finding>,
) -> Result<(), Memory>
    ensures { let d = flat design.now in
        OnOk result ((p : ℕ) → found.new.items
        ≡ found.old.items ++ whole_told d p (task process.now) (tree e.now)) }
{
    if let Some(signal) = whole_signal(design, e) {
        found.push(Finding {
            rule: Rule::WholeSelect,
            signal: Some(signal),
            instance: process.instance,
            spot: e.spot,
        })?;
    }
    Ok(())
}

fn push_wholes(
    alloc: Global,
    design: &Design,
    process: &Process,
    found: &mut Vec<Finding>,
) -> Result<(), Memory>
    ensures { let d = flat design.now in let task = task process.now in
        OnOk result ((p : ℕ) → found.new.items
        ≡ found.old.items ++ flat_map (whole_told d p task) (amounts task.does)) }
{
    let all = amounts(alloc, &process.does)?;
    for e in &all {
        push_whole(design, process, e, found)?;
    }
    Ok(())
}

/// Part-selects of all bits of signed signals that are amounts of shifts or computed indices.
pub(crate) fn whole_select(alloc: Global, design: &Design) -> Result<Vec<Finding>, Memory>
    ensures { IfOk result (λ found. AreWholeSelect (flat design.now) found.items) }
{
    let mut found = Vec::new(alloc);
    for process in &design.processes {
        push_wholes(alloc, design, process, &mut found)?;
    }
    Ok(found)
}
