// Concatenated targets with parts whose indices are computed.

ghost use Rattle.std.specs.Prelude.{ℕ, ◌≡◌, ◌∷◌, ◌++◌, [], map, IfOk, OnOk};
ghost use Rattle.std.specs.List.{flat_map};
ghost use Rattle.rtl_flat.specs.Flats.{flat};
ghost use Rattle.rtl_flat.specs.Process.{action, doing, piece, selection, task};
ghost use Rattle.check_found.specs.Gathered.{Gets, task_sites};
ghost use Rattle.check_parts.specs.Kept.{targets};
ghost use Rattle.check_readings.specs.Readings.{AreTargetIndex, IsTargetIndex, is_computed, joined, joined_parts, own_joined, target_index_at};
ghost use Rattle.check_readings.specs.Told.{target_told};

use check_parts::statements::statements;
use rtl_flat::act::{Act, Does, Process, TargetPart};
use rtl_flat::design::Design;
use rtl_flat::expr::{Index, Select};
use rtl_rule::finding::Finding;
use rtl_rule::rule::Rule;
use std::alloc::Global;
use text_ground::memory::Memory;

/// Whether a select is a bit whose index is computed.
pub(crate) fn is_computed(select: &Select) -> bool
    ensures { result ≡ is_computed (selection select.now) }
{
    match select {
        Select::Whole => false,
        Select::Bit { low: _, index } => match index {
            Index::Fixed(_) => false,
            Index::Computed(_) => true,
        },
        Select::Part { low: _, width: _ } => false,
    }
}

/// Adds the parts of a target that has two or more.
fn push_parts<'d>(parts: &'d [TargetPart], found: &mut Vec<&'d TargetPart>) -> Result<(), Memory>
    ensures { OnOk result (targets found.new.items
        ≡ targets found.old.items ++ joined_parts (map piece parts.now)) }
{
    if parts.len() < 2 {
        return Ok(());
    }
    for part in parts {
        found.push(part)?;
    }
    Ok(())
}

/// Adds those of a statement.
fn push_own<'d>(one: &'d Act, found: &mut Vec<&'d TargetPart>) -> Result<(), Memory>
    ensures { OnOk result (targets found.new.items
        ≡ targets found.old.items ++ own_joined (action one.now)) }
{
    match one {
        Act::Set { target, .. } => push_parts(&target.parts, found),
        Act::If { .. } | Act::Case { .. } | Act::Block(_) => Ok(()),
    }
}

/// The parts of the targets of a process that have two or more.
fn joined<'d>(alloc: Global, does: &'d Does) -> Result<Vec<&'d TargetPart>, Memory>
    ensures { IfOk result (λ all. map (λ one. piece one.now) all.items ≡ joined (doing does.now)) }
{
    let mut found = Vec::new(alloc);
    if let Does::Assign { target, value: _ } = does {
        push_parts(&target.parts, &mut found)?;
        return Ok(found);
    }
    let all = statements(alloc, does)?;
    for one in &all {
        push_own(one, &mut found)?;
    }
    Ok(found)
}

fn push_part(process: &Process, part: &TargetPart, found: &mut Vec<Finding>) -> Result<(), Memory>
    ensures { let task = task process.now in
        OnOk result ((p : ℕ) →
        found.new.items ≡ found.old.items ++ target_told p task (piece part.now)) }
{
    if is_computed(&part.select) {
        found.push(Finding {
            rule: Rule::TargetIndex,
            signal: Some(part.signal),
            instance: process.instance,
            spot: part.spot,
        })?;
    }
    Ok(())
}

fn push_targets(alloc: Global, process: &Process, found: &mut Vec<Finding>) -> Result<(), Memory>
    ensures { let task = task process.now in
        OnOk result ((p : ℕ) → found.new.items
        ≡ found.old.items ++ flat_map (target_told p task) (joined task.does)) }
{
    let parts = joined(alloc, &process.does)?;
    for part in &parts {
        push_part(process, part, found)?;
    }
    Ok(())
}

/// Parts with a computed index, in targets of two parts or more.
pub(crate) fn target_index(alloc: Global, design: &Design) -> Result<Vec<Finding>, Memory>
    ensures { IfOk result (λ found. AreTargetIndex (flat design.now) found.items) }
{
    let mut found = Vec::new(alloc);
    for process in &design.processes {
        push_targets(alloc, process, &mut found)?;
    }
    Ok(found)
}
