//! The expressions of statements and processes, with their operands.

ghost use Rattle.std.specs.Prelude.{ℕ, ◌≡◌, ◌++◌, map, not, IfOk, OnOk};
ghost use Rattle.std.specs.List.{filter, flat_map};
ghost use Rattle.rtl_flat.specs.Expression.{beside, form, read, tree};
ghost use Rattle.rtl_flat.specs.Flows.{labels_of};
ghost use Rattle.rtl_flat.specs.Process.{action, body_of, doing, piece, selection, watched};
ghost use Rattle.rtl_rule.specs.Parts.{body_trees, index_of, indices, is_one_literal, labels, nodes, own_labels, own_trees, read_trees, trees, valued_trees};
ghost use Rattle.rtl_scan.specs.Bodies.{branches_of};
ghost use Rattle.check_parts.specs.Kept.{actions, expressions};

use crate::statements::{USUAL, items, statements, statements_of};
use rtl_flat::act::{Act, CaseItem, Does, EventItem, TargetPart};
use rtl_flat::expr::{Index, Node, Select, SizedExpr};
use std::alloc::Global;
use text_ground::memory::Memory;

/// The expressions that stand in a statement itself: a value and the indices of its target, a condition or a selector.
pub fn own_trees<'d>(alloc: Global, one: &'d Act) -> Result<Vec<&'d SizedExpr>, Memory>
    ensures { IfOk result (λ all. map (λ e. tree e.now) all.items ≡ own_trees (action one.now)) }
{
    let mut found = Vec::new(alloc);
    push_own(one, &mut found)?;
    Ok(found)
}

/// The labels of a statement, of a case alone.
pub fn own_labels<'d>(alloc: Global, one: &'d Act) -> Result<Vec<&'d SizedExpr>, Memory>
    ensures { IfOk result (λ all. map (λ e. tree e.now) all.items ≡ own_labels (action one.now)) }
{
    let mut found = Vec::new(alloc);
    push_own_labels(one, &mut found)?;
    Ok(found)
}

/// The expressions of a process outside labels, the indices in its list among them.
pub fn trees<'d>(alloc: Global, does: &'d Does) -> Result<Vec<&'d SizedExpr>, Memory>
    ensures { IfOk result (λ all. map (λ e. tree e.now) all.items ≡ trees (doing does.now)) }
{
    let mut found = Vec::new(alloc);
    push_watched(items(does), &mut found)?;
    push_read_trees(alloc, does, &mut found)?;
    Ok(found)
}

/// The expressions of a process outside labels and its list.
pub fn read_trees<'d>(alloc: Global, does: &'d Does) -> Result<Vec<&'d SizedExpr>, Memory>
    ensures { IfOk result (λ all. map (λ e. tree e.now) all.items ≡ read_trees (doing does.now)) }
{
    let mut found = Vec::new(alloc);
    push_read_trees(alloc, does, &mut found)?;
    Ok(found)
}

/// The labels of a process.
pub fn labels<'d>(alloc: Global, does: &'d Does) -> Result<Vec<&'d SizedExpr>, Memory>
    ensures { IfOk result (λ all. map (λ e. tree e.now) all.items ≡ labels (doing does.now)) }
{
    let mut found = Vec::new(alloc);
    for one in &statements(alloc, does)? {
        push_own_labels(one, &mut found)?;
    }
    Ok(found)
}

/// The expressions of a process whose literals stand for numbers: all but labels that are one literal each.
pub fn valued_trees<'d>(alloc: Global, does: &'d Does) -> Result<Vec<&'d SizedExpr>, Memory>
    ensures { IfOk result (λ all. map (λ e. tree e.now) all.items ≡ valued_trees (doing does.now)) }
{
    let mut found = trees(alloc, does)?;
    for label in &labels(alloc, does)? {
        if !is_one_literal(label) {
            found.push(*label)?;
        }
    }
    Ok(found)
}

/// Whether an expression is one literal.
fn is_one_literal(e: &SizedExpr) -> bool
    ensures { result ≡ is_one_literal (tree e.now) }
{
    matches!(&e.node, Node::Literal(_))
}

/// Expressions with all their operands, each before its own.
pub fn nodes<'d>(alloc: Global, all: &[&'d SizedExpr]) -> Result<Vec<&'d SizedExpr>, Memory>
    ensures { IfOk result (λ found.
        map (λ e. tree e.now) found.items ≡ flat_map nodes (map (λ e. tree e.now) all.now)) }
{
    let mut found = Vec::with_capacity(alloc, USUAL)?;
    for e in all {
        push_nodes(e, &mut found)?;
    }
    Ok(found)
}

// ---- what statements hold

fn push_read_trees<'d>(
    alloc: Global,
    does: &'d Does,
    found: &mut Vec<&'d SizedExpr>,
) -> Result<(), Memory>
    ensures { let own = read_trees (doing does.now) in
        OnOk result (expressions found.new.items ≡ expressions found.old.items ++ own) }
{
    match does {
        Does::Assign { target, value } => {
            found.push(value)?;
            push_indices(&target.parts, found)
        }
        Does::Comb { list: _, body } => push_body_trees(alloc, body, found),
        Does::Edge { events: _, body } => push_body_trees(alloc, body, found),
    }
}

fn push_body_trees<'d>(
    alloc: Global,
    body: &'d [Act],
    found: &mut Vec<&'d SizedExpr>,
) -> Result<(), Memory>
    ensures { let own = body_trees (body_of (map action body.now)) in
        OnOk result (expressions found.new.items ≡ expressions found.old.items ++ own) }
{
    let all = statements_of(alloc, body)?;
    push_all_own(&all, found)
}

fn push_all_own<'d>(all: &[&'d Act], found: &mut Vec<&'d SizedExpr>) -> Result<(), Memory>
    ensures { let own = flat_map own_trees (actions all.now) in
        OnOk result (expressions found.new.items ≡ expressions found.old.items ++ own) }
{
    for one in all {
        push_own(one, found)?;
    }
    Ok(())
}

fn push_own<'d>(one: &'d Act, found: &mut Vec<&'d SizedExpr>) -> Result<(), Memory>
    ensures { let own = own_trees (action one.now) in
        OnOk result (expressions found.new.items ≡ expressions found.old.items ++ own) }
{
    match one {
        Act::Set { target, value, .. } => {
            found.push(value)?;
            push_indices(&target.parts, found)
        }
        Act::If { test, .. } => {
            found.push(test)?;
            Ok(())
        }
        Act::Case { selector, .. } => {
            found.push(selector)?;
            Ok(())
        }
        Act::Block(_) => Ok(()),
    }
}

fn push_own_labels<'d>(one: &'d Act, found: &mut Vec<&'d SizedExpr>) -> Result<(), Memory>
    ensures { let own = own_labels (action one.now) in
        OnOk result (expressions found.new.items ≡ expressions found.old.items ++ own) }
{
    match one {
        Act::Case { items, .. } => push_labels(items, found),
        Act::Set { .. } | Act::If { .. } | Act::Block(_) => Ok(()),
    }
}

fn push_labels<'d>(items: &'d [CaseItem], found: &mut Vec<&'d SizedExpr>) -> Result<(), Memory>
    ensures { let own = labels_of (branches_of items.now) in
        OnOk result (expressions found.new.items ≡ expressions found.old.items ++ own) }
{
    for item in items {
        push_exprs(&item.labels, found)?;
    }
    Ok(())
}

fn push_exprs<'d>(all: &'d [SizedExpr], found: &mut Vec<&'d SizedExpr>) -> Result<(), Memory>
    ensures { OnOk result (expressions found.new.items
        ≡ expressions found.old.items ++ map tree all.now) }
{
    for e in all {
        found.push(e)?;
    }
    Ok(())
}

// ---- the indices of targets and lists

fn push_index<'d>(select: &'d Select, found: &mut Vec<&'d SizedExpr>) -> Result<(), Memory>
    ensures { let own = index_of (selection select.now) in
        OnOk result (expressions found.new.items ≡ expressions found.old.items ++ own) }
{
    match select {
        Select::Whole => Ok(()),
        Select::Bit { low: _, index } => match index {
            Index::Fixed(_) => Ok(()),
            Index::Computed(index) => {
                found.push(index)?;
                Ok(())
            }
        },
        Select::Part { low: _, width: _ } => Ok(()),
    }
}

fn push_indices<'d>(parts: &'d [TargetPart], found: &mut Vec<&'d SizedExpr>) -> Result<(), Memory>
    ensures { let own = indices (map piece parts.now) in
        OnOk result (expressions found.new.items ≡ expressions found.old.items ++ own) }
{
    for part in parts {
        push_index(&part.select, found)?;
    }
    Ok(())
}

fn push_watched<'d>(items: &'d [EventItem], found: &mut Vec<&'d SizedExpr>) -> Result<(), Memory>
    ensures { let own = flat_map (λ item. index_of item.selection) (map watched items.now) in
        OnOk result (expressions found.new.items ≡ expressions found.old.items ++ own) }
{
    for item in items {
        push_index(&item.select, found)?;
    }
    Ok(())
}

// ---- operands

#[cycle(nodes)]
fn push_nodes<'d>(e: &'d SizedExpr, found: &mut Vec<&'d SizedExpr>) -> Result<(), Memory>
    ensures { let own = nodes (tree e.now) in
        OnOk result (expressions found.new.items ≡ expressions found.old.items ++ own) }
{
    found.push(e)?;
    push_operands(&e.node, found)
}

#[cycle(nodes)]
fn push_operands<'d>(node: &'d Node, found: &mut Vec<&'d SizedExpr>) -> Result<(), Memory>
    ensures { let own = nodes (form node.now) in
        OnOk result (expressions found.new.items ≡ expressions found.old.items ++ own) }
{
    match node {
        Node::Literal(_) => Ok(()),
        Node::Read(_, select) => push_read(select, found),
        Node::Turned(_, a) => push_nodes(a, found),
        Node::Joined(_, a, b) => {
            push_nodes(a, found)?;
            push_nodes(b, found)
        }
        Node::Compared(_, a, b) => {
            push_nodes(a, found)?;
            push_nodes(b, found)
        }
        Node::Linked(_, a, b) => {
            push_nodes(a, found)?;
            push_nodes(b, found)
        }
        Node::Folded(_, a) => push_nodes(a, found),
        Node::Shifted(_, a, amount) => {
            push_nodes(a, found)?;
            push_nodes(amount, found)
        }
        Node::Chosen(condition, taken, otherwise) => {
            push_nodes(condition, found)?;
            push_nodes(taken, found)?;
            push_nodes(otherwise, found)
        }
        Node::Concat(parts) => push_row(parts, found),
        Node::Repeated(_, a) => push_nodes(a, found),
        Node::Recast(a) => push_nodes(a, found),
    }
}

#[cycle(nodes)]
fn push_read<'d>(select: &'d Select, found: &mut Vec<&'d SizedExpr>) -> Result<(), Memory>
    ensures { let old = expressions found.old.items in
        OnOk result ((signal : ℕ) →
        expressions found.new.items ≡ old ++ nodes (read signal select.now)) }
{
    match select {
        Select::Whole => Ok(()),
        Select::Bit { low: _, index } => match index {
            Index::Fixed(_) => Ok(()),
            Index::Computed(index) => push_nodes(index, found),
        },
        Select::Part { low: _, width: _ } => Ok(()),
    }
}

#[cycle(nodes)]
fn push_row<'d>(parts: &'d [SizedExpr], found: &mut Vec<&'d SizedExpr>) -> Result<(), Memory>
    ensures { let own = nodes (beside (map tree parts.now)) in
        OnOk result (expressions found.new.items ≡ expressions found.old.items ++ own) }
{
    for part in parts {
        push_nodes(part, found)?;
    }
    Ok(())
}
