//! Sized trees of expressions, in one walk from the root downwards.

ghost use Rattle.std.specs.Prelude.{◌≡◌, ◌≢◌, ◌≤◌, IfOk, List, false, map};
ghost use Rattle.rtl_bits.specs.declared.Bit.{Bit};
ghost use Rattle.rtl_bits.specs.Bits.{extended};
ghost use Rattle.rtl_const.specs.Constant.{constant};
ghost use Rattle.rtl_flat.specs.Expression.{Literal, Repeated, Sized, bit, form, tree};
ghost use Rattle.rtl_tree.specs.TreeExpr.{Read, ReadBit, Unary, formula, formula_row, identifier};
ghost use Rattle.elab_scope.specs.Names.{meanings, numbers_in};
ghost use Rattle.elab_scope.specs.Own.{row_breadth, sign};
ghost use Rattle.elab_scope.specs.Trees.{bit_form, copies_of, field_in, function_form, low_of, named_form, number_bits, operation_form, own_context, part_form, prefix_form, row_tree, signal_of, spot_in, tree_of};
ghost use Rattle.elab_scope.specs.Widths.{bits, fit};

use crate::context::{Context, left_context, operand_context, own_context, right_context};
use crate::known::Known;
use crate::literals;
use crate::names::Names;
use crate::operators::{Operation, Prefix, binary, unary};
use crate::own::{breadth, row_breadth};
use crate::selects::{Ends, ends_of};
use crate::widths::{Breadth, Field, field_of};
use rtl_const::evaluate::constant;
use rtl_const::fault::ConstFault;
use rtl_flat::expr::{Index, Node, Select, SigId, SizedExpr};
use rtl_tree::tree::expr::Expr;
use rtl_tree::tree::names::Name;
use rtl_tree::tree::operators::{SystemFunction, UnaryOperator};
use std::alloc::Global;
use text_ground::memory::Memory;
use text_ground::text::Spot;

/// Where expressions stand.
#[derive(Clone, Copy)]
pub struct Site {
    pub alloc: Global,
    /// The position of the module's file.
    pub file: u32,
    /// How many signals come before those of the instance.
    pub base: u16,
}

/// The number of the signal in the design.
pub fn signal_of(base: u16, known: Option<Known>) -> SigId
    ensures { result.0 ≡ signal_of base known }
{
    match known {
        Some(Known::Signal { number, .. }) => SigId(u32::from(base) + u32::from(number)),
        _ => SigId(u32::from(base)),
    }
}

/// The number that its declaration gives to its least significant bit.
pub fn low_of(known: Option<Known>) -> u32
    ensures { result ≡ low_of known }
{
    match known {
        Some(
            Known::Signal {
                shape: Some(shape),
                ..
            },
        ) => shape.low,
        _ => 0,
    }
}

pub fn field_in(
    known: Option<Known>,
    msb: Result<i64, ConstFault>,
    lsb: Result<i64, ConstFault>,
) -> Option<Field>
    ensures { result ≡ field_in known msb lsb }
{
    match (known, msb, lsb) {
        (
            Some(
                Known::Signal {
                    shape: Some(shape),
                    ..
                },
            ),
            Ok(msb),
            Ok(lsb),
        ) => { field_of(shape, msb, lsb) }
        _ => None,
    }
}

fn copies_of(times: Result<i64, ConstFault>) -> u32
    ensures { result ≡ copies_of times }
{
    match times {
        Ok(times) if times >= 0 => times.min(128) as u32,
        _ => 1,
    }
}

/// What is read where a name is read whole.
fn named(known: Option<Known>, context: Context, base: u16) -> Node
    requires not_empty { 1 ≤ context.width }
    requires at_most { context.width ≤ 128 }
    ensures { form result ≡ named_form base known context.width context.signed }
{
    match known {
        Some(Known::Signal { .. }) => Node::Read(signal_of(base, known), Select::Whole),
        _ => Node::Literal(literals::named(known, context.width, context.signed)),
    }
}

/// What is read where a part is selected.
fn part(known: Option<Known>, field: Option<Field>, base: u16) -> Node
    ensures { form result ≡ part_form (signal_of base known) field }
{
    let field = field.unwrap_or(Field { low: 0, width: 1 });
    let select = Select::Part {
        low: field.low,
        width: field.width,
    };
    Node::Read(signal_of(base, known), select)
}

/// An operator before its operand.
fn prefixed(operator: Prefix, a: Box<SizedExpr>) -> Node
    ensures { form result ≡ prefix_form operator (tree a.value) }
{
    match operator {
        Prefix::Turn(operator) => Node::Turned(operator, a),
        Prefix::Fold(operator) => Node::Folded(operator, a),
    }
}

/// An operator between its operands that isn't a power.
fn combined(operation: Operation, a: Box<SizedExpr>, b: Box<SizedExpr>) -> Node
    requires { operation ≢ Operation.Power }
    ensures { (number : List Bit) → form result
        ≡ operation_form operation a.value.signed number (tree a.value) (tree b.value) }
{
    match operation {
        Operation::Join(operator) => Node::Joined(operator, a, b),
        Operation::Compare(operator) => Node::Compared(operator, a, b),
        Operation::Link(operator) => Node::Linked(operator, a, b),
        Operation::Shift(operator) => Node::Shifted(operator, a, b),
        Operation::Power => unreachable!(),
    }
}

/// A number that is worked out where the design is made.
fn number(e: &Expr, own: Breadth, context: Context, names: &Names) -> Node
    requires not_empty { 1 ≤ context.width }
    requires at_most { context.width ≤ 128 }
    ensures { form result ≡ Literal (extended context.width context.signed
        (number_bits own (constant (numbers_in (meanings names.now)) (formula e.now)))) }
{
    let number = constant(e, names);
    Node::Literal(literals::number(number, own, context.width, context.signed))
}

/// An expression of this form.
fn sized(site: Site, at: u32, context: Context, node: Node) -> SizedExpr
    ensures tree { tree result ≡ Sized context.width context.signed (spot_in site.file at)
        (form node) }
    ensures signed { result.signed ≡ context.signed }
{
    SizedExpr {
        width: context.width,
        signed: context.signed,
        node,
        spot: Spot {
            file: site.file,
            at,
        },
    }
}

/// A name that is read whole.
fn sized_name(name: &Name, context: Context, names: &Names, site: Site) -> SizedExpr
    requires not_empty { 1 ≤ context.width }
    requires at_most { context.width ≤ 128 }
    ensures tree { tree result
        ≡ tree_of site.file site.base (meanings names.now) (Read (identifier name.now)) context }
    ensures signed { result.signed ≡ context.signed }
{
    let node = named(names.find(&name.text), context, site.base);
    sized(site, name.at, context, node)
}

/// A part that is selected.
fn sized_part(name: &Name, ends: Ends, context: Context, names: &Names, site: Site) -> SizedExpr
    ensures tree { let known = meanings names.now name.now.text in
        tree result ≡ Sized context.width context.signed (spot_in site.file name.now.at)
        (part_form (signal_of site.base known) (field_in known ends.msb ends.lsb)) }
    ensures signed { result.signed ≡ context.signed }
{
    let known = names.find(&name.text);
    let field = field_in(known, ends.msb, ends.lsb);
    sized(site, name.at, context, part(known, field, site.base))
}

/// The tree of an expression in a context.
#[cycle(size)]
#[tactic(auto, using(crate::proofs::Nodes::concat_tree))]
pub fn size(e: &Expr, context: Context, names: &Names, site: Site) -> Result<SizedExpr, Memory>
    requires not_empty { 1 ≤ context.width }
    requires at_most { context.width ≤ 128 }
    ensures tree { IfOk result (λ made. tree made
        ≡ tree_of site.file site.base (meanings names.now) (formula e.now) context) }
    ensures signed { IfOk result (λ made. made.signed ≡ context.signed) }
{
    match e {
        Expr::Number(value, at) => {
            let bits = literals::literal(value, context.width, context.signed);
            Ok(sized(site, *at, context, Node::Literal(bits)))
        }
        Expr::Read(name) => Ok(sized_name(name, context, names, site)),
        Expr::ReadBit(name, index) => sized_bit(name, index, context, names, site),
        Expr::ReadPart(name, kind, first, second) => {
            Ok(sized_part(
                name,
                ends_of(*kind, first, second, names),
                context,
                names,
                site,
            ))
        }
        Expr::Parens(_, inner) => size(inner, context, names, site),
        Expr::Apply(function, at, inner) => {
            let node = applied(*function, inner, e, context, names, site)?;
            Ok(sized(site, *at, context, node))
        }
        Expr::Concat(at, parts) => Ok(sized(site, *at, context, row(parts, names, site)?)),
        Expr::Repeat(at, times, parts) => {
            let copies = copies_of(constant(times, names));
            repeated(copies, *at, parts, context, names, site)
        }
        Expr::Unary(operator, at, a) => sized_prefix(*operator, *at, a, context, names, site),
        Expr::Binary(operator, at, a, b) => {
            let operation = binary(*operator);
            if let Operation::Power = operation {
                let node = number(e, breadth(a, names), context, names);
                return Ok(sized(site, *at, context, node));
            }
            let left = left_context(operation, a, b, context, names);
            let right = right_context(operation, a, b, context, names);
            let left = boxed(a, left, names, site)?;
            let node = combined(operation, left, boxed(b, right, names, site)?);
            Ok(sized(site, *at, context, node))
        }
        Expr::Choose(at, condition, taken, otherwise) => {
            let condition = boxed(condition, own_context(condition, names), names, site)?;
            let taken = boxed(taken, context, names, site)?;
            let otherwise = boxed(otherwise, context, names, site)?;
            Ok(sized(
                site,
                *at,
                context,
                Node::Chosen(condition, taken, otherwise),
            ))
        }
    }
}

/// A bit that is selected.
#[cycle(size)]
fn sized_bit(
    name: &Name,
    index: &Expr,
    context: Context,
    names: &Names,
    site: Site,
) -> Result<SizedExpr, Memory>
    ensures tree { IfOk result (λ made. tree made ≡ tree_of site.file site.base (meanings names.now)
        (ReadBit (identifier name.now) (formula index.now)) context) }
    ensures signed { IfOk result (λ made. made.signed ≡ context.signed) }
{
    let node = bit(index, names.find(&name.text), names, site)?;
    Ok(sized(site, name.at, context, node))
}

/// A function of the system: an argument that is sized by itself, or a number.
#[cycle(size)]
fn applied(
    function: SystemFunction,
    inner: &Expr,
    e: &Expr,
    context: Context,
    names: &Names,
    site: Site,
) -> Result<Node, Memory>
    requires not_empty { 1 ≤ context.width }
    requires at_most { context.width ≤ 128 }
    ensures { let scope = meanings names.now in
        IfOk result (λ made. form made ≡ function_form function
        (extended context.width context.signed
        (number_bits (Breadth.Bits 32) (constant (numbers_in scope) (formula e.now))))
        (tree_of site.file site.base scope (formula inner.now)
        (own_context scope (formula inner.now)))) }
{
    match function {
        SystemFunction::Signed | SystemFunction::Unsigned => {
            let inner = boxed(inner, own_context(inner, names), names, site)?;
            Ok(Node::Recast(inner))
        }
        SystemFunction::Clog2 => Ok(number(e, Breadth::Bits(32), context, names)),
    }
}

/// Copies of parts beside one another.
#[cycle(size)]
fn repeated(
    copies: u32,
    at: u32,
    parts: &[Expr],
    context: Context,
    names: &Names,
    site: Site,
) -> Result<SizedExpr, Memory>
    ensures tree { let parts = formula_row (map formula parts.now) in
        let width = bits (fit (row_breadth (meanings names.now) parts)) in
        let row = row_tree site.file site.base (meanings names.now) parts in
        let spot = spot_in site.file at in
        IfOk result (λ made. tree made
        ≡ Sized context.width context.signed spot (Repeated copies (Sized width false spot row))) }
    ensures signed { IfOk result (λ made. made.signed ≡ context.signed) }
{
    let row = row(parts, names, site)?;
    let own = Context {
        width: row_breadth(parts, names).fit().bits(),
        signed: false,
    };
    let copied = Box::new(site.alloc, sized(site, at, own, row))?;
    Ok(sized(site, at, context, Node::Repeated(copies, copied)))
}

/// An operator before its operand.
#[cycle(size)]
fn sized_prefix(
    operator: UnaryOperator,
    at: u32,
    a: &Expr,
    context: Context,
    names: &Names,
    site: Site,
) -> Result<SizedExpr, Memory>
    requires not_empty { 1 ≤ context.width }
    requires at_most { context.width ≤ 128 }
    ensures tree { IfOk result (λ made. tree made ≡ tree_of site.file site.base (meanings names.now)
        (Unary operator at (formula a.now)) context) }
    ensures signed { IfOk result (λ made. made.signed ≡ context.signed) }
{
    let operator = unary(operator);
    let own = operand_context(operator, a, context, names);
    let node = prefixed(operator, boxed(a, own, names, site)?);
    Ok(sized(site, at, context, node))
}

/// The boxed tree of an operand.
#[cycle(size)]
pub(crate) fn boxed(
    e: &Expr,
    context: Context,
    names: &Names,
    site: Site,
) -> Result<Box<SizedExpr>, Memory>
    requires not_empty { 1 ≤ context.width }
    requires at_most { context.width ≤ 128 }
    ensures tree { IfOk result (λ made. tree made.value
        ≡ tree_of site.file site.base (meanings names.now) (formula e.now) context) }
    ensures signed { IfOk result (λ made. made.value.signed ≡ context.signed) }
{
    Ok(Box::new(site.alloc, size(e, context, names, site)?)?)
}

/// What is read where a bit is selected: a constant index is its number.
#[cycle(size)]
fn bit(index: &Expr, known: Option<Known>, names: &Names, site: Site) -> Result<Node, Memory>
    ensures { IfOk result (λ made. form made
        ≡ bit_form (signal_of site.base known) (low_of known)
        (constant (numbers_in (meanings names.now)) (formula index.now))
        (sign (meanings names.now) (formula index.now))
        (tree_of site.file site.base (meanings names.now) (formula index.now)
        (own_context (meanings names.now) (formula index.now)))) }
{
    match constant(index, names) {
        Ok(number) => Ok(selected(known, Index::Fixed(number), site.base)),
        Err(_) => {
            let index = boxed(index, own_context(index, names), names, site)?;
            Ok(selected(known, Index::Computed(index), site.base))
        }
    }
}

fn selected(known: Option<Known>, index: Index, base: u16) -> Node
    ensures { form result ≡ bit (signal_of base known) (low_of known) index }
{
    let select = Select::Bit {
        low: low_of(known),
        index,
    };
    Node::Read(signal_of(base, known), select)
}

/// Parts beside one another, each sized by itself.
#[cycle(size)]
#[tactic(auto, using(crate::proofs::Nodes::before_more, crate::proofs::Nodes::before_none))]
fn row(parts: &[Expr], names: &Names, site: Site) -> Result<Node, Memory>
    ensures { IfOk result (λ made. form made
        ≡ row_tree site.file site.base (meanings names.now) (formula_row (map formula parts.now))) }
{
    let mut made = Vec::with_capacity(site.alloc, parts.len())?;
    for part in parts {
        made.push(size(part, own_context(part, names), names, site)?)?;
    }
    Ok(Node::Concat(made))
}
