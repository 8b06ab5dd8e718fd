//! Numbers, in one walk over the tree.

ghost use Rattle.std.specs.Prelude.{◌≡◌, ◌≤◌, length, map};
ghost use Rattle.rtl_flat.specs.Expression.{tree, form, read, beside};
ghost use Rattle.rtl_flat.specs.Sizes.{IsSized, width_of};
ghost use Rattle.rtl_flat.specs.Value.{store, widths};
ghost use Rattle.net_model.specs.Numbers.{digits};

use crate::filling::{filled, filled_bit};
use net_model::fill::Fill;
use rtl_bits::Vec4;
use rtl_expr::operators::{choose, compare, fold, join, link, shift, turn};
use rtl_expr::selects::{computed_bit, fixed_bit};
use rtl_flat::expr::{Index, Node, Select, SigId, SizedExpr};

/// The number of an expression, where `numbers` has that of each signal. It takes no memory.
#[cycle(number)]
pub fn number(e: &SizedExpr, fill: Fill, numbers: &[Vec4]) -> Vec4
    requires { IsSized (length numbers.now) (widths numbers.now) (tree e.now) }
    ensures bits { result ≡ digits fill (store numbers.now) (tree e.now) }
    ensures width { length result ≡ e.now.width }
{
    // Most of what a walk meets is a whole signal.
    if let Node::Read(signal, Select::Whole) = &e.node {
        return numbers[signal.0 as usize].extend(e.width, e.signed);
    }
    form_number(&e.node, fill, numbers).extend(e.width, e.signed)
}

/// The number of a form of expression by itself. It stands apart, since what it takes of the stack is large.
#[cycle(number)]
#[inline(never)]
#[tactic(auto, using(rtl_expr::proofs::Parts::concat_parts))]
fn form_number(node: &Node, fill: Fill, numbers: &[Vec4]) -> Vec4
    requires sized { IsSized (length numbers.now) (widths numbers.now) (form node.now) }
    requires not_empty { 1 ≤ width_of (widths numbers.now) (form node.now) }
    requires at_most { width_of (widths numbers.now) (form node.now) ≤ 128 }
    ensures bits { result ≡ digits fill (store numbers.now) (form node.now) }
    ensures width { length result ≡ width_of (widths numbers.now) (form node.now) }
{
    match node {
        Node::Literal(bits) => filled(*bits, fill),
        Node::Read(signal, select) => read_number(*signal, select, fill, numbers),
        Node::Turned(operator, a) => turn(*operator, number(a, fill, numbers)),
        Node::Joined(operator, a, b) => {
            let left = number(a, fill, numbers);
            let right = number(b, fill, numbers);
            filled(join(*operator, a.signed, left, right), fill)
        }
        Node::Compared(operator, a, b) => {
            let left = number(a, fill, numbers);
            let right = number(b, fill, numbers);
            compare(*operator, a.signed, left, right)
        }
        Node::Linked(operator, a, b) => {
            link(
                *operator,
                number(a, fill, numbers),
                number(b, fill, numbers),
            )
        }
        Node::Folded(operator, a) => fold(*operator, number(a, fill, numbers)),
        Node::Shifted(operator, a, amount) => {
            let operand = number(a, fill, numbers);
            let places = number(amount, fill, numbers);
            shift(*operator, a.signed, operand, places)
        }
        Node::Chosen(condition, taken, otherwise) => choose(
            number(condition, fill, numbers),
            number(taken, fill, numbers),
            number(otherwise, fill, numbers),
        ),
        Node::Concat(parts) => concat_number(parts, fill, numbers),
        Node::Repeated(times, a) => number(a, fill, numbers).repeat(*times).unwrap(),
        Node::Recast(a) => number(a, fill, numbers),
    }
}

/// What is read of a signal.
#[cycle(number)]
fn read_number(signal: SigId, select: &Select, fill: Fill, numbers: &[Vec4]) -> Vec4
    requires sized { IsSized (length numbers.now) (widths numbers.now) (read signal.0 select.now) }
    requires not_empty { 1 ≤ width_of (widths numbers.now) (read signal.0 select.now) }
    ensures bits { result ≡ digits fill (store numbers.now) (read signal.0 select.now) }
    ensures width { length result ≡ width_of (widths numbers.now) (read signal.0 select.now) }
{
    let signal = signal.0 as usize;
    match select {
        Select::Whole => numbers[signal],
        Select::Bit { low, index } => {
            let bit = match index {
                Index::Fixed(index) => fixed_bit(numbers[signal], *low, *index),
                Index::Computed(index) => {
                    let place = number(index, fill, numbers);
                    computed_bit(numbers[signal], *low, index.signed, place)
                }
            };
            Vec4::of_bit(filled_bit(bit, fill))
        }
        Select::Part { low, width } => numbers[signal].select(*low, *width),
    }
}

/// The parts of a concatenation, the first of them highest.
#[cycle(number)]
fn concat_number(parts: &[SizedExpr], fill: Fill, numbers: &[Vec4]) -> Vec4
    requires sized { IsSized (length numbers.now) (widths numbers.now)
        (beside (map tree parts.now)) }
    requires not_empty { 1 ≤ width_of (widths numbers.now) (beside (map tree parts.now)) }
    requires at_most { width_of (widths numbers.now) (beside (map tree parts.now)) ≤ 128 }
    ensures bits { result ≡ digits fill (store numbers.now) (beside (map tree parts.now)) }
    ensures width { length result ≡ width_of (widths numbers.now) (beside (map tree parts.now)) }
{
    let mut all = number(&parts[0], fill, numbers);
    for part in &parts[1..] {
        all = all.concat(number(part, fill, numbers)).unwrap();
    }
    all
}
