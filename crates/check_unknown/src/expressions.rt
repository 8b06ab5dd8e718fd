// Literals and operators of whose expressions simulators and synthesis think otherwise.

ghost use Rattle.std.specs.Prelude.{◌≡◌, ◌<◌, ◌++◌, map, length, Some, IfOk, OnOk};
ghost use Rattle.std.specs.List.{flat_map, list_any, slice_get};
ghost use Rattle.rtl_flat.specs.Expression.{tree};
ghost use Rattle.rtl_flat.specs.Process.{Task, doing, task};
ghost use Rattle.rtl_rule.specs.Parts.{is_literal_with, is_x, nodes, valued_trees};
ghost use Rattle.rtl_flat.specs.Flats.{flat};
ghost use Rattle.check_unknown.specs.Lists.{AreNodes, is_exact, literal_found, nodes_found, tree_spots};
ghost use Rattle.check_unknown.specs.Unknowns.{all_nodes, is_case_equality};

use crate::places::push_all;
use check_chains::check_parts::expressions::{labels, nodes, trees, valued_trees};
use check_chains::check_parts::places::least_place;
use rtl_bits::{Bit, Vec4};
use rtl_flat::act::{Does, ProcId, Process};
use rtl_flat::design::Design;
use rtl_flat::expr::{Compare, Node, SizedExpr};
use rtl_rule::finding::Finding;
use rtl_rule::rule::Rule;
use std::alloc::Global;
use text_ground::memory::Memory;
use text_ground::text::Spot;

/// All expressions of a process with their operands, labels too.
fn all_nodes<'d>(alloc: Global, does: &'d Does) -> Result<Vec<&'d SizedExpr>, Memory>
    ensures { IfOk result (λ all. map (λ e. tree e.now) all.items ≡ all_nodes (doing does.now)) }
{
    let mut all = trees(alloc, does)?;
    let labels = labels(alloc, does)?;
    all.extend_from_slice(&labels)?;
    nodes(alloc, &all)
}

/// All expressions of a design's process with their operands, labels too.
pub(crate) fn process_nodes<'d>(
    alloc: Global,
    design: &'d Design,
    p: ProcId,
) -> Result<Vec<&'d SizedExpr>, Memory>
    requires { p.0 < length design.now.processes.items }
    ensures { IfOk result (λ all. AreNodes (flat design.now) p.0
        (map (λ e. tree e.now) all.items)) }
{
    all_nodes(alloc, &design.processes[p.0 as usize].does)
}

/// Whether an operator compares x and z as well.
fn is_exact(operator: Compare) -> bool
    ensures { result ≡ is_exact operator }
{
    match operator {
        Compare::CaseEqual | Compare::CaseNotEqual => true,
        _ => false,
    }
}

/// Whether an expression is `===` or `!==`.
fn is_case_equality(e: &SizedExpr) -> bool
    ensures { result ≡ is_case_equality (tree e.now) }
{
    match &e.node {
        Node::Compared(operator, _, _) => is_exact(*operator),
        _ => false,
    }
}

/// Adds the findings of `===` and `!==` among all expressions of a process.
pub(crate) fn push_equalities(
    alloc: Global,
    design: &Design,
    p: ProcId,
    all: &[&SizedExpr],
    found: &mut Vec<Finding>,
) -> Result<(), Memory>
    requires there { p.0 < length design.now.processes.items }
    requires all { AreNodes (flat design.now) p.0 (map (λ e. tree e.now) all.now) }
    ensures { OnOk result ((task : Task) → slice_get (flat design.now).tasks p.0 ≡ Some task
        → found.new.items ≡ found.old.items ++ nodes_found Rule.CaseEquality is_case_equality
        (flat design.now) task) }
{
    let mut spots = Vec::new(alloc);
    for e in all {
        if is_case_equality(e) {
            spots.push(e.spot)?;
        }
    }
    push_all(alloc, design, p, Rule::CaseEquality, &spots, found)
}

/// Whether a vector has an x bit.
fn has_x(bits: Vec4) -> bool
    ensures { result ≡ list_any is_x bits }
{
    for at in 0..bits.width() {
        match bits.bit(at) {
            Bit::X => return true,
            Bit::Zero | Bit::One | Bit::Z => {}
        }
    }
    false
}

/// Whether an expression is a literal with an x bit.
fn is_unknown_literal(e: &SizedExpr) -> bool
    ensures { result ≡ is_literal_with is_x (tree e.now) }
{
    match &e.node {
        Node::Literal(bits) => has_x(*bits),
        _ => false,
    }
}

/// Whether one of some expressions is a literal with an x bit.
fn has_unknown_literal(all: &[&SizedExpr]) -> bool
    ensures { result ≡ list_any (is_literal_with is_x) (map (λ e. tree e.now) all.now) }
{
    for e in all {
        if is_unknown_literal(e) {
            return true;
        }
    }
    false
}

/// The places of literals with an x bit in a process, but for labels that are one.
fn literal_spots(alloc: Global, process: &Process) -> Result<Vec<Spot>, Memory>
    ensures { IfOk result (λ spots. spots.items ≡ tree_spots
        (is_literal_with is_x) process.now.spot (flat_map nodes (valued_trees
        (doing process.now.does)))) }
{
    let valued = valued_trees(alloc, &process.does)?;
    let all = nodes(alloc, &valued)?;
    let mut spots = Vec::new(alloc);
    for e in &all {
        if is_unknown_literal(e) {
            spots.push(e.spot)?;
        }
    }
    Ok(spots)
}

/// Adds the finding of a process with such literals, at the first of them, given all its expressions.
pub(crate) fn push_literal(
    alloc: Global,
    design: &Design,
    p: ProcId,
    all: &[&SizedExpr],
    found: &mut Vec<Finding>,
) -> Result<(), Memory>
    requires there { p.0 < length design.now.processes.items }
    requires all { AreNodes (flat design.now) p.0 (map (λ e. tree e.now) all.now) }
    ensures { OnOk result ((task : Task) → slice_get (flat design.now).tasks p.0 ≡ Some task
        → found.new.items ≡ found.old.items ++ literal_found (flat design.now) p.0 task) }
{
    // Most processes have no x at all, and then need no list of the expressions whose literals count.
    if !has_unknown_literal(all) {
        return Ok(());
    }
    let process = &design.processes[p.0 as usize];
    let spots = literal_spots(alloc, process)?;
    if spots.is_empty() {
        return Ok(());
    }
    let first = least_place(process.spot, &spots);
    push_all(alloc, design, p, Rule::UnknownLiteral, &[first], found)
}
