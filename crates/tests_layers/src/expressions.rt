//! Widths and signs of expressions (IEEE 1364-2001 sections 4.4 and 4.5).

use crate::stop::Stop;
use crate::words::say;
use rtl_flat::act::Does;
use rtl_flat::design::Design;
use rtl_flat::expr::{Index, Node, Select, SizedExpr};
use std::alloc::Global;

/// Its width, `s` or `u`, and a letter for its form; and then its operands.
#[cycle(outline)]
fn outline(alloc: Global, e: &SizedExpr, out: &mut Vec<u8>) -> Result<(), Stop> {
    let sign = if e.signed { "s" } else { "u" };
    let width = e.width;
    let letter = letter(&e.node);
    say(out, &format!(in alloc; "{width}{sign}{letter}")?)?;
    operands(alloc, &e.node, out)
}

fn letter(node: &Node) -> char {
    match node {
        Node::Literal(_) => 'n',
        Node::Read(_, select) => read(select),
        Node::Turned(_, _) => 't',
        Node::Joined(_, _, _) => 'j',
        Node::Compared(_, _, _) => 'c',
        Node::Linked(_, _, _) => 'l',
        Node::Folded(_, _) => 'f',
        Node::Shifted(_, _, _) => 's',
        Node::Chosen(_, _, _) => '?',
        Node::Concat(_) => '{',
        Node::Repeated(_, _) => '*',
        Node::Recast(_) => '$',
    }
}

fn read(select: &Select) -> char {
    match select {
        Select::Whole => 'r',
        Select::Bit { low: _, index } => match index {
            Index::Fixed(_) => 'b',
            Index::Computed(_) => 'i',
        },
        Select::Part { low: _, width: _ } => 'p',
    }
}

#[cycle(outline)]
fn operands(alloc: Global, node: &Node, out: &mut Vec<u8>) -> Result<(), Stop> {
    match node {
        Node::Literal(_) => Ok(()),
        Node::Read(_, select) => index(alloc, select, out),
        Node::Turned(_, a) => outline(alloc, a, out),
        Node::Joined(_, a, b) => {
            outline(alloc, a, out)?;
            outline(alloc, b, out)
        }
        Node::Compared(_, a, b) => {
            outline(alloc, a, out)?;
            outline(alloc, b, out)
        }
        Node::Linked(_, a, b) => {
            outline(alloc, a, out)?;
            outline(alloc, b, out)
        }
        Node::Folded(_, a) => outline(alloc, a, out),
        Node::Shifted(_, a, b) => {
            outline(alloc, a, out)?;
            outline(alloc, b, out)
        }
        Node::Chosen(condition, a, b) => {
            outline(alloc, condition, out)?;
            outline(alloc, a, out)?;
            outline(alloc, b, out)
        }
        Node::Concat(parts) => all(alloc, parts, out),
        Node::Repeated(_, a) => outline(alloc, a, out),
        Node::Recast(a) => outline(alloc, a, out),
    }
}

#[cycle(outline)]
fn all(alloc: Global, parts: &[SizedExpr], out: &mut Vec<u8>) -> Result<(), Stop> {
    for part in parts {
        outline(alloc, part, out)?;
    }
    Ok(say(out, "}")?)
}

#[cycle(outline)]
fn index(alloc: Global, select: &Select, out: &mut Vec<u8>) -> Result<(), Stop> {
    match select {
        Select::Whole => Ok(()),
        Select::Bit { low: _, index } => match index {
            Index::Fixed(_) => Ok(()),
            Index::Computed(index) => outline(alloc, index, out),
        },
        Select::Part { low: _, width: _ } => Ok(()),
    }
}

/// The values of the continuous assignments.
pub fn told(alloc: Global, design: &Design) -> Result<Vec<u8>, Stop> {
    let mut out = Vec::new(alloc);
    for process in &design.processes {
        value(alloc, &process.does, &mut out)?;
    }
    Ok(out)
}

fn value(alloc: Global, does: &Does, out: &mut Vec<u8>) -> Result<(), Stop> {
    match does {
        Does::Assign { target: _, value } => outline(alloc, value, out),
        Does::Comb { list: _, body: _ } => Ok(()),
        Does::Edge { events: _, body: _ } => Ok(()),
    }
}
