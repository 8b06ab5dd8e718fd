// Copies of expressions.

ghost use Rattle.std.specs.Prelude.{◌≡◌, IfOk, map};
ghost use Rattle.std.specs.Option.{option_map};
ghost use Rattle.rtl_tree.specs.TreeExpr as tree;
ghost use Rattle.rtl_tree.specs.TreeExpr.{bounds, formula, formula_row, identifier};
ghost use Rattle.elab_renames.specs.Renames.{renamed_bounds, renamed_formula, renamed_formulas, renamed_identifier, renaming};

use crate::naming::{Naming, renamed_name};
use rtl_tree::tree::expr::{Expr, Range};
use rtl_tree::tree::names::Name;
use rtl_tree::tree::operators::{BinaryOperator, PartKind, SystemFunction, UnaryOperator};
use std::alloc::Global;
use text_ground::memory::Memory;

#[cycle(expression)]
#[tactic(auto, using(crate::proofs::Views::concat_renamed, crate::proofs::Views::repeat_renamed))]
pub(crate) fn renamed_expr(alloc: Global, naming: &Naming<'_>, e: &Expr) -> Result<Expr, Memory>
    ensures { IfOk result (λ made. formula made
        ≡ renamed_formula (renaming naming.now) (formula e.now)) }
{
    match e {
        Expr::Number(value, at) => Ok(Expr::Number(*value, *at)),
        Expr::Read(name) => read(alloc, naming, name),
        Expr::ReadBit(name, index) => read_bit(alloc, naming, name, index),
        Expr::ReadPart(name, kind, first, second) => {
            let second = boxed_expr(alloc, naming, second)?;
            read_part(alloc, naming, name, *kind, first, second)
        }
        Expr::Parens(at, inner) => parens(alloc, naming, *at, inner),
        Expr::Apply(function, at, inner) => apply(alloc, naming, *function, *at, inner),
        Expr::Concat(at, parts) => concat(alloc, naming, *at, parts),
        Expr::Repeat(at, times, parts) => {
            let times = boxed_expr(alloc, naming, times)?;
            repeat(alloc, naming, parts, *at, times)
        }
        Expr::Unary(operator, at, operand) => unary(alloc, naming, *operator, *at, operand),
        Expr::Binary(operator, at, left, right) => {
            let right = boxed_expr(alloc, naming, right)?;
            binary(alloc, naming, *operator, *at, left, right)
        }
        Expr::Choose(at, condition, taken, otherwise) => {
            let taken = boxed_expr(alloc, naming, taken)?;
            let otherwise = boxed_expr(alloc, naming, otherwise)?;
            choose(alloc, naming, *at, condition, taken, otherwise)
        }
    }
}

/// The same in a box: what is held by value while more is copied is dear to prove.
#[cycle(expression)]
pub(crate) fn boxed_expr(alloc: Global, naming: &Naming<'_>, e: &Expr) -> Result<Box<Expr>, Memory>
    ensures { IfOk result (λ made. formula made.value
        ≡ renamed_formula (renaming naming.now) (formula e.now)) }
{
    let made = renamed_expr(alloc, naming, e)?;
    Ok(Box::new(alloc, made)?)
}

fn read(alloc: Global, naming: &Naming<'_>, name: &Name) -> Result<Expr, Memory>
    ensures { IfOk result (λ made. formula made
        ≡ renamed_formula (renaming naming.now) (tree.Read (identifier name.now))) }
{
    let name = renamed_name(alloc, naming, name)?;
    Ok(Expr::Read(name))
}

#[cycle(expression)]
fn read_bit(alloc: Global, naming: &Naming<'_>, name: &Name, index: &Expr) -> Result<Expr, Memory>
    ensures { IfOk result (λ made. formula made ≡ renamed_formula (renaming naming.now)
        (tree.ReadBit (identifier name.now) (formula index.now))) }
{
    let name = renamed_name(alloc, naming, name)?;
    let index = boxed_expr(alloc, naming, index)?;
    Ok(Expr::ReadBit(name, index))
}

/// A part that is selected, of which the second bound is made.
#[cycle(expression)]
fn read_part(
    alloc: Global,
    naming: &Naming<'_>,
    name: &Name,
    kind: PartKind,
    first: &Expr,
    second: Box<Expr>,
) -> Result<Expr, Memory>
    ensures { let f = renaming naming.now in IfOk result (λ made. formula made
        ≡ tree.ReadPart (renamed_identifier f (identifier name.now)) kind
        (renamed_formula f (formula first.now)) (formula second.value)) }
{
    let name = renamed_name(alloc, naming, name)?;
    let first = boxed_expr(alloc, naming, first)?;
    Ok(Expr::ReadPart(name, kind, first, second))
}

#[cycle(expression)]
fn parens(alloc: Global, naming: &Naming<'_>, at: u32, inner: &Expr) -> Result<Expr, Memory>
    ensures { IfOk result (λ made. formula made
        ≡ renamed_formula (renaming naming.now) (tree.Parens at (formula inner.now))) }
{
    let inner = boxed_expr(alloc, naming, inner)?;
    Ok(Expr::Parens(at, inner))
}

#[cycle(expression)]
fn apply(
    alloc: Global,
    naming: &Naming<'_>,
    function: SystemFunction,
    at: u32,
    inner: &Expr,
) -> Result<Expr, Memory>
    ensures { IfOk result (λ made. formula made
        ≡ renamed_formula (renaming naming.now) (tree.Apply function at (formula inner.now))) }
{
    let inner = boxed_expr(alloc, naming, inner)?;
    Ok(Expr::Apply(function, at, inner))
}

#[cycle(expression)]
#[tactic(auto, using(crate::proofs::Rows::formulas_renamed))]
fn concat(alloc: Global, naming: &Naming<'_>, at: u32, parts: &[Expr]) -> Result<Expr, Memory>
    ensures { IfOk result (λ made. formula made ≡ renamed_formula (renaming naming.now)
        (tree.Concat at (formula_row (map formula parts.now)))) }
{
    let parts = renamed_exprs(alloc, naming, parts)?;
    Ok(Expr::concat(at, parts))
}

/// Copies of parts, of which the number is made.
#[cycle(expression)]
#[tactic(auto, using(crate::proofs::Rows::formulas_renamed))]
fn repeat(
    alloc: Global,
    naming: &Naming<'_>,
    parts: &[Expr],
    at: u32,
    times: Box<Expr>,
) -> Result<Expr, Memory>
    ensures { IfOk result (λ made. formula made ≡ tree.Repeat at (formula times.value)
        (renamed_formulas (renaming naming.now) (formula_row (map formula parts.now)))) }
{
    let parts = renamed_exprs(alloc, naming, parts)?;
    Ok(Expr::repeat(at, times, parts))
}

#[cycle(expression)]
fn unary(
    alloc: Global,
    naming: &Naming<'_>,
    operator: UnaryOperator,
    at: u32,
    operand: &Expr,
) -> Result<Expr, Memory>
    ensures { IfOk result (λ made. formula made
        ≡ renamed_formula (renaming naming.now) (tree.Unary operator at (formula operand.now))) }
{
    let operand = boxed_expr(alloc, naming, operand)?;
    Ok(Expr::Unary(operator, at, operand))
}

/// An operator between operands, of which the right one is made.
#[cycle(expression)]
fn binary(
    alloc: Global,
    naming: &Naming<'_>,
    operator: BinaryOperator,
    at: u32,
    left: &Expr,
    right: Box<Expr>,
) -> Result<Expr, Memory>
    ensures { IfOk result (λ made. formula made ≡ tree.Binary operator at
        (renamed_formula (renaming naming.now) (formula left.now)) (formula right.value)) }
{
    let left = boxed_expr(alloc, naming, left)?;
    Ok(Expr::Binary(operator, at, left, right))
}

/// A choice of two expressions that are made.
#[cycle(expression)]
fn choose(
    alloc: Global,
    naming: &Naming<'_>,
    at: u32,
    condition: &Expr,
    taken: Box<Expr>,
    otherwise: Box<Expr>,
) -> Result<Expr, Memory>
    ensures { IfOk result (λ made. formula made ≡ tree.Choose at
        (renamed_formula (renaming naming.now) (formula condition.now)) (formula taken.value)
        (formula otherwise.value)) }
{
    let condition = boxed_expr(alloc, naming, condition)?;
    Ok(Expr::Choose(at, condition, taken, otherwise))
}

/// Expressions in a row.
#[cycle(expression)]
pub(crate) fn renamed_exprs(
    alloc: Global,
    naming: &Naming<'_>,
    all: &[Expr],
) -> Result<Vec<Expr>, Memory>
    ensures { IfOk result (λ made. map formula made.items
        ≡ map (renamed_formula (renaming naming.now)) (map formula all.now)) }
{
    let mut made = Vec::with_capacity(alloc, all.len())?;
    for e in all {
        made.push(renamed_expr(alloc, naming, e)?)?;
    }
    Ok(made)
}

/// A value, where one is written.
pub(crate) fn renamed_value(
    alloc: Global,
    naming: &Naming<'_>,
    value: &Option<Expr>,
) -> Result<Option<Expr>, Memory>
    ensures { IfOk result (λ made. option_map formula made
        ≡ option_map (renamed_formula (renaming naming.now)) (option_map formula value.now)) }
{
    match value {
        None => Ok(None),
        Some(value) => Ok(Some(renamed_expr(alloc, naming, value)?)),
    }
}

fn renamed_range(alloc: Global, naming: &Naming<'_>, range: &Range) -> Result<Range, Memory>
    ensures { IfOk result (λ made. bounds made
        ≡ renamed_bounds (renaming naming.now) (bounds range.now)) }
{
    let msb = boxed_expr(alloc, naming, &range.msb)?;
    let lsb = boxed_expr(alloc, naming, &range.lsb)?;
    Ok(Range {
        at: range.at,
        msb: Box::into_inner(msb),
        lsb: Box::into_inner(lsb),
    })
}

/// A range, where one is written.
pub(crate) fn optional_range(
    alloc: Global,
    naming: &Naming<'_>,
    range: &Option<Range>,
) -> Result<Option<Range>, Memory>
    ensures { IfOk result (λ made. option_map bounds made
        ≡ option_map (renamed_bounds (renaming naming.now)) (option_map bounds range.now)) }
{
    match range {
        None => Ok(None),
        Some(range) => Ok(Some(renamed_range(alloc, naming, range)?)),
    }
}

pub(crate) fn boxed_range(
    alloc: Global,
    naming: &Naming<'_>,
    range: &Option<Range>,
) -> Result<Box<Option<Range>>, Memory>
    ensures { IfOk result (λ made. option_map bounds made.value
        ≡ option_map (renamed_bounds (renaming naming.now)) (option_map bounds range.now)) }
{
    let made = optional_range(alloc, naming, range)?;
    Ok(Box::new(alloc, made)?)
}
