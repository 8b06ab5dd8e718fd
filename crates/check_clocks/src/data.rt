// Signals of the control cone that are read as data.

ghost use Rattle.std.specs.Prelude.{ℕ, ◌≡◌, ◌++◌, map, IfOk, OnOk};
ghost use Rattle.std.specs.List.{flat_map, slice_get};
ghost use Rattle.rtl_flat.specs.Process.{action, body_of, doing, piece, selection, task};
ghost use Rattle.rtl_rule.specs.Parts.{all_of, within};
ghost use Rattle.rtl_flat.specs.Flats.{flat};
ghost use Rattle.check_gates.specs.check_chains.check_parts.Kept.{expressions};
ghost use Rattle.check_gates.specs.check_chains.Views.{chain_view};
ghost use Rattle.check_clocks.specs.Clocks as spec;
ghost use Rattle.check_clocks.specs.Data.{but_tests_of, passes_to};
ghost use Rattle.check_clocks.specs.Uses.{places_of};

use crate::uses::{Use, push_levels, push_reads};
use check_gates::check_chains::chain::{Chain, chain_of};
use check_gates::check_chains::check_parts::expressions::{
    labels, nodes, own_labels, own_trees, read_trees,
};
use check_gates::check_chains::check_parts::statements::{items, statements_of};
use check_gates::links::{bit_named, is_bit};
use rtl_flat::act::{Act, Does, Process, TargetPart};
use rtl_flat::design::Design;
use rtl_flat::expr::{Index, Select, SigId, SizedExpr};
use std::alloc::Global;
use text_ground::memory::Memory;

/// Adds the expressions of a statement with its labels.
fn push_statement<'d>(
    alloc: Global,
    one: &'d Act,
    found: &mut Vec<&'d SizedExpr>,
) -> Result<(), Memory>
    ensures { OnOk result (expressions found.new.items
        ≡ expressions found.old.items ++ spec.statement_trees (action one.now)) }
{
    let own = own_trees(alloc, one)?;
    let labels = own_labels(alloc, one)?;
    found.extend_from_slice(&own)?;
    found.extend_from_slice(&labels)?;
    Ok(())
}

/// Adds those of a body.
fn push_body<'d>(
    alloc: Global,
    body: &'d [Act],
    found: &mut Vec<&'d SizedExpr>,
) -> Result<(), Memory>
    ensures { OnOk result (expressions found.new.items
        ≡ expressions found.old.items ++ flat_map spec.statement_trees
        (all_of (body_of (map action body.now)))) }
{
    let all = statements_of(alloc, body)?;
    push_statements(alloc, &all, found)
}

fn push_statements<'d>(
    alloc: Global,
    all: &[&'d Act],
    found: &mut Vec<&'d SizedExpr>,
) -> Result<(), Memory>
    ensures { OnOk result (expressions found.new.items
        ≡ expressions found.old.items ++ flat_map spec.statement_trees
        (map (λ one. action one.now) all.now)) }
{
    for one in all {
        push_statement(alloc, one, found)?;
    }
    Ok(())
}

/// The expressions of a chain outside its tests.
fn chain_trees<'d>(alloc: Global, chain: &Chain<'d>) -> Result<Vec<&'d SizedExpr>, Memory>
    ensures { IfOk result (λ all. expressions all.items ≡ spec.chain_trees (chain_view chain.now)) }
{
    let mut found = Vec::new(alloc);
    for guard in &chain.resets {
        push_body(alloc, guard.branch, &mut found)?;
    }
    push_body(alloc, chain.part, &mut found)?;
    Ok(found)
}

/// The expressions of a process outside its list, but for the tests of its chain.
fn but_tests<'d>(
    alloc: Global,
    design: &'d Design,
    does: &'d Does,
) -> Result<Vec<&'d SizedExpr>, Memory>
    ensures { IfOk result (λ all. expressions all.items
        ≡ but_tests_of (flat design.now) (doing does.now)) }
{
    match chain_of(alloc, design, does)? {
        Some(chain) => chain_trees(alloc, &chain),
        None => {
            let mut found = read_trees(alloc, does)?;
            let labels = labels(alloc, does)?;
            found.extend_from_slice(&labels)?;
            Ok(found)
        }
    }
}

fn is_whole(select: &Select) -> bool
    ensures { result ≡ spec.is_whole (selection select.now) }
{
    match select {
        Select::Whole => true,
        Select::Bit { low: _, index } => match index {
            Index::Fixed(_) => false,
            Index::Computed(_) => false,
        },
        Select::Part { low: _, width: _ } => false,
    }
}

/// Whether a signal is there in an instance.
fn is_inside(design: &Design, instance: u32, signal: SigId) -> bool
    ensures { result ≡ spec.in_instance instance (slice_get design.now.signals.items signal.0) }
{
    match design.signals.get(signal.0 as usize) {
        Some(signal) => signal.instance == instance,
        None => false,
    }
}

/// Whether a signal of one bit goes to one part, a signal of one bit that isn't in the instance.
fn passes_to(design: &Design, instance: u32, source: SigId, part: &TargetPart) -> bool
    ensures { result ≡ passes_to (flat design.now) instance source.0 (piece part.now) }
{
    is_bit(design, source)
        && is_bit(design, part.signal)
        && is_whole(&part.select)
        && !is_inside(design, instance, part.signal)
}

/// Whether a process assigns a plain name of one bit to an input port of one bit.
fn is_passing(design: &Design, process: &Process) -> bool
    ensures { result ≡ spec.is_passing (flat design.now) (task process.now) }
{
    let Does::Assign { target, value } = &process.does else {
        return false;
    };
    let Some(source) = bit_named(value) else {
        return false;
    };
    if target.parts.len() != 1 {
        return false;
    }
    passes_to(design, process.instance, source, &target.parts[0])
}

/// What a process reads as data: neither tests of its chain nor a connection by which a signal goes
/// on.
fn data_trees<'d>(
    alloc: Global,
    design: &'d Design,
    process: &'d Process,
) -> Result<Vec<&'d SizedExpr>, Memory>
    ensures { IfOk result (λ all. expressions all.items
        ≡ spec.data_trees (flat design.now) (task process.now)) }
{
    if is_passing(design, process) {
        return Ok(Vec::new(alloc));
    }
    but_tests(alloc, design, &process.does)
}

/// Where a process lists signals without an edge or reads them as data.
pub(crate) fn uses_of(alloc: Global, design: &Design, process: &Process) -> Result<Vec<Use>, Memory>
    ensures { IfOk result (λ uses. (p s : ℕ)
        → places_of s uses.items ≡ spec.data_places (flat design.now)
        (within (p, task process.now) s)) }
{
    let mut found = Vec::new(alloc);
    push_levels(design, items(&process.does), &mut found)?;
    let trees = data_trees(alloc, design, process)?;
    let all = nodes(alloc, &trees)?;
    push_reads(design, &all, &mut found)?;
    Ok(found)
}
