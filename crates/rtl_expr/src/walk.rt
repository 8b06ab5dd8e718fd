//! Evaluation, in one walk over the tree.

ghost use Rattle.std.specs.Prelude.{◌≡◌, ◌≤◌, length, map};
ghost use Rattle.rtl_flat.specs.Expression.{tree, form, read, beside};
ghost use Rattle.rtl_flat.specs.Sizes.{IsSized, width_of};
ghost use Rattle.rtl_flat.specs.Value.{value, store, widths};

use crate::operators::{choose, compare, fold, join, link, shift, turn};
use crate::selects::{computed_bit, fixed_bit};
use rtl_bits::Vec4;
use rtl_flat::expr::{Index, Node, Select, SigId, SizedExpr};

/// The value of an expression, where `values` has that of each signal. It takes no memory.
#[cycle(eval)]
pub fn eval(e: &SizedExpr, values: &[Vec4]) -> Vec4
    requires { IsSized (length values.now) (widths values.now) (tree e.now) }
    ensures bits { result ≡ value (store values.now) (tree e.now) }
    ensures width { length result ≡ e.now.width }
{
    form_value(&e.node, values).extend(e.width, e.signed)
}

/// The value of a form of expression by itself.
#[cycle(eval)]
#[tactic(auto, using(crate::proofs::Parts::concat_parts))]
fn form_value(node: &Node, values: &[Vec4]) -> Vec4
    requires sized { IsSized (length values.now) (widths values.now) (form node.now) }
    requires not_empty { 1 ≤ width_of (widths values.now) (form node.now) }
    requires at_most { width_of (widths values.now) (form node.now) ≤ 128 }
    ensures bits { result ≡ value (store values.now) (form node.now) }
    ensures width { length result ≡ width_of (widths values.now) (form node.now) }
{
    match node {
        Node::Literal(bits) => *bits,
        Node::Read(signal, select) => read_value(*signal, select, values),
        Node::Turned(operator, a) => turn(*operator, eval(a, values)),
        Node::Joined(operator, a, b) => {
            join(*operator, a.signed, eval(a, values), eval(b, values))
        }
        Node::Compared(operator, a, b) => {
            compare(*operator, a.signed, eval(a, values), eval(b, values))
        }
        Node::Linked(operator, a, b) => link(*operator, eval(a, values), eval(b, values)),
        Node::Folded(operator, a) => fold(*operator, eval(a, values)),
        Node::Shifted(operator, a, amount) => {
            shift(*operator, a.signed, eval(a, values), eval(amount, values))
        }
        Node::Chosen(condition, taken, otherwise) => choose(
            eval(condition, values),
            eval(taken, values),
            eval(otherwise, values),
        ),
        Node::Concat(parts) => concat_value(parts, values),
        Node::Repeated(times, a) => eval(a, values).repeat(*times).unwrap(),
        Node::Recast(a) => eval(a, values),
    }
}

/// What is read of a signal.
#[cycle(eval)]
fn read_value(signal: SigId, select: &Select, values: &[Vec4]) -> Vec4
    requires sized { IsSized (length values.now) (widths values.now) (read signal.0 select.now) }
    requires not_empty { 1 ≤ width_of (widths values.now) (read signal.0 select.now) }
    ensures bits { result ≡ value (store values.now) (read signal.0 select.now) }
    ensures width { length result ≡ width_of (widths values.now) (read signal.0 select.now) }
{
    let signal = signal.0 as usize;
    match select {
        Select::Whole => values[signal],
        Select::Bit { low, index } => Vec4::of_bit(match index {
            Index::Fixed(index) => fixed_bit(values[signal], *low, *index),
            Index::Computed(index) => {
                let place = eval(index, values);
                computed_bit(values[signal], *low, index.signed, place)
            }
        }),
        Select::Part { low, width } => values[signal].select(*low, *width),
    }
}

/// The parts of a concatenation, the first of them highest.
#[cycle(eval)]
fn concat_value(parts: &[SizedExpr], values: &[Vec4]) -> Vec4
    requires sized { IsSized (length values.now) (widths values.now) (beside (map tree parts.now)) }
    requires not_empty { 1 ≤ width_of (widths values.now) (beside (map tree parts.now)) }
    requires at_most { width_of (widths values.now) (beside (map tree parts.now)) ≤ 128 }
    ensures bits { result ≡ value (store values.now) (beside (map tree parts.now)) }
    ensures width { length result ≡ width_of (widths values.now) (beside (map tree parts.now)) }
{
    let mut all = eval(&parts[0], values);
    for part in &parts[1..] {
        all = all.concat(eval(part, values)).unwrap();
    }
    all
}
