// Literals with a z bit.

ghost use Rattle.std.specs.Prelude.{◌≡◌, ◌<◌, ◌++◌, [], ◌∷◌, length, Some, IfOk, OnOk};
ghost use Rattle.std.specs.List.{flat_map, list_any, slice_get};
ghost use Rattle.text_ground.specs.declared.text.Spot.{Spot};
ghost use Rattle.rtl_flat.specs.Expression.{tree};
ghost use Rattle.rtl_flat.specs.Process.{Task, doing};
ghost use Rattle.rtl_rule.specs.Parts.{is_literal_with, is_z, nodes, valued_trees};
ghost use Rattle.rtl_flat.specs.Flats.{flat};
ghost use Rattle.check_loops.specs.check_found.Gathered.{Gets, task_sites};
ghost use Rattle.check_assign.specs.Assigned.{AreTristate, IsTristate, tristate_at};
ghost use Rattle.check_assign.specs.Marks.{z_spots};

use check_loops::check_found::sets::first_written;
use check_parts::expressions::{nodes, valued_trees};
use check_parts::places::least_place;
use rtl_bits::{Bit, Vec4};
use rtl_flat::act::{Does, ProcId};
use rtl_flat::design::Design;
use rtl_flat::expr::{Node, SizedExpr};
use rtl_rule::finding::Finding;
use rtl_rule::rule::Rule;
use std::alloc::Global;
use text_ground::memory::Memory;
use text_ground::text::Spot;

fn is_z(bit: Bit) -> bool
    ensures { result ≡ is_z bit }
{
    matches!(bit, Bit::Z)
}

fn has_z(bits: Vec4) -> bool
    ensures { result ≡ list_any is_z bits }
{
    for at in 0..bits.width() {
        if is_z(bits.bit(at)) {
            return true;
        }
    }
    false
}

/// Whether an expression is a literal with a z bit.
fn is_z_literal(e: &SizedExpr) -> bool
    ensures { result ≡ is_literal_with is_z (tree e.now) }
{
    match &e.node {
        Node::Literal(bits) => has_z(*bits),
        _ => false,
    }
}

/// Adds the place of an expression if it is such a literal.
fn push_place(e: &SizedExpr, spots: &mut Vec<Spot>) -> Result<(), Memory>
    ensures { OnOk result ((otherwise : Spot) →
        spots.new.items ≡ spots.old.items ++ z_spots otherwise (tree e.now ∷ [])) }
{
    if !is_z_literal(e) {
        return Ok(());
    }
    spots.push(e.spot)?;
    Ok(())
}

/// Where such literals stand for numbers in a process.
fn z_places(alloc: Global, does: &Does) -> Result<Vec<Spot>, Memory>
    ensures { IfOk result (λ spots. (otherwise : Spot) →
        spots.items ≡ z_spots otherwise (flat_map nodes (valued_trees (doing does.now)))) }
{
    let trees = valued_trees(alloc, does)?;
    let all = nodes(alloc, &trees)?;
    let mut spots = Vec::new(alloc);
    for e in &all {
        push_place(e, &mut spots)?;
    }
    Ok(spots)
}

/// Adds the finding of a process with such a literal, at the first one.
fn push_tristate(
    alloc: Global,
    design: &Design,
    p: ProcId,
    found: &mut Vec<Finding>,
) -> Result<(), Memory>
    requires { p.0 < length design.now.processes.items }
    ensures { let d = flat design.now in
        OnOk result ((task : Task) → slice_get d.tasks p.0 ≡ Some task →
        Gets IsTristate (tristate_at d) (task_sites (λ does. does ∷ []) p.0 task)
        found.old.items found.new.items) }
{
    let process = &design.processes[p.0 as usize];
    let spots = z_places(alloc, &process.does)?;
    if spots.is_empty() {
        return Ok(());
    }
    let signal = first_written(alloc, design, p)?;
    found.push(Finding {
        rule: Rule::Tristate,
        signal,
        instance: process.instance,
        spot: least_place(process.spot, &spots),
    })?;
    Ok(())
}

/// Processes with a literal that has a z bit.
///
/// Fails where memory runs out.
pub fn tristate(alloc: Global, design: &Design) -> Result<Vec<Finding>, Memory>
    ensures { IfOk result (λ found. AreTristate (flat design.now) found.items) }
{
    let mut found = Vec::new(alloc);
    for number in 0..design.processes.len() {
        push_tristate(alloc, design, ProcId(number as u32), &mut found)?;
    }
    Ok(found)
}
