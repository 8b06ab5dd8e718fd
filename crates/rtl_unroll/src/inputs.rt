// The value of a gate, made of its inputs.

ghost use Rattle.std.specs.Prelude.{◌≡◌, ◌≤◌, IfOk, length, map};
ghost use Rattle.std.specs.Option.{option_map, option_to_list};
ghost use Rattle.rtl_tree.specs.TreeExpr.{Binary, formula};
ghost use Rattle.rtl_unroll.specs.Gates.{alone, complement, input, inverted_if, joined, pairs, together};

use rtl_tree::tree::expr::Expr;
use rtl_tree::tree::operators::{BinaryOperator, UnaryOperator};
use std::alloc::Global;
use text_ground::memory::Memory;

/// An input in parentheses.
fn input(alloc: Global, value: Expr) -> Result<Expr, Memory>
    ensures { IfOk result (λ made. formula made ≡ input (formula value)) }
{
    let at = value.place();
    Ok(Expr::Parens(at, Box::new(alloc, value)?))
}

fn complement(alloc: Global, at: u32, value: Expr) -> Result<Expr, Memory>
    ensures { IfOk result (λ made. formula made ≡ complement at (formula value)) }
{
    let value = Box::new(alloc, value)?;
    Ok(Expr::Unary(UnaryOperator::BitwiseNot, at, value))
}

fn inverted_if(alloc: Global, inverted: bool, at: u32, value: Expr) -> Result<Expr, Memory>
    ensures { IfOk result (λ made. formula made ≡ inverted_if inverted at (formula value)) }
{
    if inverted {
        complement(alloc, at, value)
    } else {
        Ok(value)
    }
}

/// The value of one input.
pub fn alone(alloc: Global, inverted: bool, at: u32, value: Expr) -> Result<Expr, Memory>
    ensures { IfOk result (λ made. formula made ≡ alone inverted at (formula value)) }
{
    let value = complement(alloc, at, input(alloc, value)?)?;
    inverted_if(alloc, !inverted, at, value)
}

fn binary(
    alloc: Global,
    operator: BinaryOperator,
    at: u32,
    left: Expr,
    right: Expr,
) -> Result<Expr, Memory>
    ensures { IfOk result (λ made. formula made ≡ Binary operator at (formula left) (formula right)) }
{
    let left = Box::new(alloc, left)?;
    let right = Box::new(alloc, right)?;
    Ok(Expr::Binary(operator, at, left, right))
}

/// Inputs in parentheses.
fn wrapped(alloc: Global, inputs: Vec<Expr>) -> Result<Vec<Expr>, Memory>
    ensures { IfOk result (λ made. map formula made.items ≡ map input (map formula inputs.items)) }
{
    let mut made = Vec::new(alloc);
    for one in inputs {
        made.push(input(alloc, one)?)?;
    }
    Ok(made)
}

/// Neighbours are joined.
fn paired(
    alloc: Global,
    operator: BinaryOperator,
    at: u32,
    inputs: Vec<Expr>,
) -> Result<Vec<Expr>, Memory>
    ensures { IfOk result (λ made. map formula made.items ≡ pairs operator at (map formula inputs.items)) }
{
    let mut made = Vec::new(alloc);
    let mut waiting = None;
    for right in inputs {
        match waiting {
            None => waiting = Some(right),
            Some(left) => {
                made.push(binary(alloc, operator, at, left, right)?)?;
                waiting = None;
            }
        }
    }
    if let Some(last) = waiting {
        made.push(last)?;
    }
    Ok(made)
}

/// Inputs that are joined until one is left.
fn joined(
    alloc: Global,
    operator: BinaryOperator,
    at: u32,
    mut inputs: Vec<Expr>,
) -> Result<Vec<Expr>, Memory>
    ensures value { IfOk result (λ made. map formula made.items
        ≡ joined (map formula inputs.items) operator at (map formula inputs.items)) }
    ensures one { IfOk result (λ made. length made.items ≤ 1) }
{
    while inputs.len() > 1 {
        inputs = paired(alloc, operator, at, inputs)?;
    }
    Ok(inputs)
}

/// The value of several inputs.
pub fn together(
    alloc: Global,
    inverted: bool,
    operator: BinaryOperator,
    at: u32,
    inputs: Vec<Expr>,
) -> Result<Option<Expr>, Memory>
    ensures { IfOk result (λ made. option_to_list (option_map formula made)
        ≡ together inverted operator at (map formula inputs.items)) }
{
    let mut values = joined(alloc, operator, at, wrapped(alloc, inputs)?)?;
    match values.pop() {
        None => Ok(None),
        Some(value) => Ok(Some(inverted_if(alloc, inverted, at, value)?)),
    }
}
