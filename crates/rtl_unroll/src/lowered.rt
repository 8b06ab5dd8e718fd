// Generate constructs with assignments in place of gates, and a label at each loop.

ghost use Rattle.std.specs.Prelude.{◌≡◌, ◌+◌, IfOk, map};
ghost use Rattle.std.specs.Option.{option_map, unwrap_or};
ghost use Rattle.rtl_tree.specs.TreeExpr.{formula, identifier};
ghost use Rattle.rtl_tree.specs.TreeWritten.{Block, Case, For, If, IfElse, Region, Single, choice, choice_row, item_row, made, written_item};
ghost use Rattle.rtl_unroll.specs.Numbering.{block_constructs};
ghost use Rattle.rtl_unroll.specs.Lowered.{loop_name, lowered_block, lowered_body, lowered_choice, lowered_choices, lowered_item, lowered_items};

use crate::gates::gates_item;
use crate::numbering::{behind_block, behind_choice, behind_item, counted, without_outer};
use itoa::Buffer;
use rtl_tree::tree::expr::Expr;
use rtl_tree::tree::names::Name;
use rtl_tree::tree::written::{GenerateBlock, GenerateChoice, WrittenItem};
use std::alloc::Global;
use text_ground::memory::Memory;
use text_ground::text::Text;

/// A branch of a construct, and how many constructs of its scope stand up to its end.
#[derive(Drop)]
struct Taken {
    block: GenerateBlock,
    count: u64,
}

/// The label of a loop without one.
fn loop_name(alloc: Global, number: u64, at: u32) -> Result<Name, Memory>
    ensures { IfOk result (λ name. identifier name ≡ loop_name number at) }
{
    let mut text = Vec::from_slice(alloc, b"genblk")?;
    text.extend_from_slice(Buffer::new().format(number).as_bytes())?;
    Ok(Name {
        text: Text::from_vec(text),
        at,
    })
}

/// The label of a loop, where it may have one.
fn label_of(alloc: Global, number: u64, at: u32, label: Option<Name>) -> Result<Name, Memory>
    ensures { IfOk result (λ name. identifier name
        ≡ unwrap_or (option_map identifier label) (loop_name number at)) }
{
    match label {
        Some(label) => Ok(label),
        None => loop_name(alloc, number, at),
    }
}

/// An item behind so many constructs of its scope.
#[cycle(lowered)]
pub fn lowered_item(alloc: Global, count: u64, written: WrittenItem) -> Result<WrittenItem, Memory>
    ensures { IfOk result (λ item. written_item item ≡ lowered_item count (written_item written)) }
{
    let number = counted(count, 1)?;
    match written {
        WrittenItem::Plain(item) => Ok(WrittenItem::Plain(item)),
        WrittenItem::Genvars(at, names) => Ok(WrittenItem::Genvars(at, names)),
        WrittenItem::Gates {
            at,
            kind,
            delay,
            gates,
        } => Ok(WrittenItem::Plain(gates_item(alloc, at, kind, delay, gates)?)),
        WrittenItem::Region(at, items) => lowered_region(alloc, count, at, items),
        WrittenItem::If(at, condition, taken) => lowered_if(alloc, number, taken, at, condition),
        WrittenItem::IfElse(at, condition, taken, otherwise) => {
            let taken = lowered_taken(alloc, number, taken)?;
            lowered_otherwise(alloc, otherwise, taken, at, condition)
        }
        WrittenItem::Case(at, selector, choices) => {
            lowered_case(alloc, number, choices, at, selector)
        }
        WrittenItem::For {
            at,
            index,
            start,
            condition,
            stepped,
            step,
            body,
        } => lowered_loop(
            alloc, number, body, at, index, start, condition, stepped, step,
        ),
    }
}

/// Items of a region, behind so many constructs of its scope.
#[cycle(lowered)]
fn lowered_region(
    alloc: Global,
    count: u64,
    at: u32,
    items: Vec<WrittenItem>,
) -> Result<WrittenItem, Memory>
    ensures { IfOk result (λ item. written_item item
        ≡ Region at (lowered_items count (item_row (map written_item items.items)))) }
{
    let items = lowered_items(alloc, count, items)?;
    Ok(WrittenItem::region(at, items))
}

#[cycle(lowered)]
fn lowered_if(
    alloc: Global,
    number: u64,
    taken: GenerateBlock,
    at: u32,
    condition: Expr,
) -> Result<WrittenItem, Memory>
    ensures { IfOk result (λ item. written_item item
        ≡ If at (formula condition) (lowered_block number (made taken))) }
{
    let taken = lowered_block(alloc, number, taken)?;
    Ok(WrittenItem::If(at, condition, taken))
}

/// The branch of a condition that holds.
#[cycle(lowered)]
fn lowered_taken(alloc: Global, number: u64, taken: GenerateBlock) -> Result<Taken, Memory>
    ensures block { IfOk result (λ one. made one.block ≡ lowered_block number (made taken)) }
    ensures count { IfOk result (λ one. one.count ≡ number + block_constructs (made taken)) }
{
    let count = behind_block(number, &taken)?;
    let block = lowered_block(alloc, number, taken)?;
    Ok(Taken { block, count })
}

/// The `else` of a condition, behind the other branch.
#[cycle(lowered)]
fn lowered_otherwise(
    alloc: Global,
    otherwise: GenerateBlock,
    taken: Taken,
    at: u32,
    condition: Expr,
) -> Result<WrittenItem, Memory>
    ensures { IfOk result (λ item. written_item item ≡ IfElse at (formula condition)
        (made taken.block) (lowered_block taken.count (made otherwise))) }
{
    let Taken { block, count } = taken;
    let otherwise = lowered_block(alloc, count, otherwise)?;
    Ok(WrittenItem::IfElse(at, condition, block, otherwise))
}

#[cycle(lowered)]
fn lowered_case(
    alloc: Global,
    number: u64,
    choices: Vec<GenerateChoice>,
    at: u32,
    selector: Expr,
) -> Result<WrittenItem, Memory>
    ensures { IfOk result (λ item. written_item item ≡ Case at (formula selector)
        (lowered_choices number (choice_row (map choice choices.items)))) }
{
    let choices = lowered_choices(alloc, number, choices)?;
    Ok(WrittenItem::case(at, selector, choices))
}

/// A loop with its number.
#[cycle(lowered)]
fn lowered_loop(
    alloc: Global,
    number: u64,
    body: GenerateBlock,
    at: u32,
    index: Name,
    start: Expr,
    condition: Expr,
    stepped: Name,
    step: Expr,
) -> Result<WrittenItem, Memory>
    ensures { IfOk result (λ item. written_item item
        ≡ For at (identifier index) (formula start) (formula condition) (identifier stepped)
        (formula step) (lowered_body number at (made body))) }
{
    let body = lowered_body(alloc, number, at, body)?;
    Ok(WrittenItem::For {
        at,
        index,
        start,
        condition,
        stepped,
        step,
        body,
    })
}

/// Items in a row.
#[cycle(lowered)]
fn lowered_items(
    alloc: Global,
    count: u64,
    items: Vec<WrittenItem>,
) -> Result<Vec<WrittenItem>, Memory>
    ensures { IfOk result (λ all. item_row (map written_item all.items)
        ≡ lowered_items count (item_row (map written_item items.items))) }
{
    let mut before = count;
    let mut all = Vec::new(alloc);
    for item in items {
        let next = behind_item(before, &item)?;
        all.push(lowered_item(alloc, before, item)?)?;
        before = next;
    }
    Ok(all)
}

/// What a branch of a construct makes, where the construct is the last of so many.
#[cycle(lowered)]
fn lowered_block(alloc: Global, count: u64, block: GenerateBlock) -> Result<GenerateBlock, Memory>
    ensures { IfOk result (λ lowered. made lowered ≡ lowered_block count (made block)) }
{
    match block {
        GenerateBlock::Null(at) => Ok(GenerateBlock::Null(at)),
        GenerateBlock::Single(item) => lowered_single(alloc, count, Box::into_inner(item)),
        GenerateBlock::Block(at, label, items) => lowered_row(alloc, count, at, label, items),
    }
}

/// An item that a branch makes alone.
#[cycle(lowered)]
fn lowered_single(alloc: Global, count: u64, item: WrittenItem) -> Result<GenerateBlock, Memory>
    ensures { IfOk result (λ lowered. made lowered
        ≡ lowered_block count (Single (written_item item))) }
{
    let before = without_outer(&item, count);
    let item = Box::new(alloc, lowered_item(alloc, before, item)?)?;
    Ok(GenerateBlock::Single(item))
}

/// Items that a branch makes between `begin` and `end`: with a label these are a scope of their own.
#[cycle(lowered)]
fn lowered_row(
    alloc: Global,
    count: u64,
    at: u32,
    label: Option<Name>,
    items: Vec<WrittenItem>,
) -> Result<GenerateBlock, Memory>
    ensures { let all = item_row (map written_item items.items) in IfOk result (λ lowered.
        made lowered ≡ lowered_block count (Block at (option_map identifier label) all)) }
{
    let before = if label.is_some() { 0 } else { count };
    let items = lowered_items(alloc, before, items)?;
    Ok(GenerateBlock::block(at, label, items))
}

/// What a loop makes.
#[cycle(lowered)]
fn lowered_body(
    alloc: Global,
    number: u64,
    at: u32,
    body: GenerateBlock,
) -> Result<GenerateBlock, Memory>
    ensures { IfOk result (λ lowered. made lowered ≡ lowered_body number at (made body)) }
{
    match body {
        GenerateBlock::Null(own) => {
            let label = loop_name(alloc, number, at)?;
            Ok(GenerateBlock::block(own, Some(label), Vec::new(alloc)))
        }
        GenerateBlock::Single(item) => {
            let items = vec![in alloc; lowered_item(alloc, 0, Box::into_inner(item))?]?;
            let label = loop_name(alloc, number, at)?;
            Ok(GenerateBlock::block(at, Some(label), items))
        }
        GenerateBlock::Block(own, label, items) => {
            let items = lowered_items(alloc, 0, items)?;
            let label = label_of(alloc, number, at, label)?;
            Ok(GenerateBlock::block(own, Some(label), items))
        }
    }
}

/// A choice.
#[cycle(lowered)]
fn lowered_choice(
    alloc: Global,
    count: u64,
    chosen: GenerateChoice,
) -> Result<GenerateChoice, Memory>
    ensures { IfOk result (λ lowered. choice lowered ≡ lowered_choice count (choice chosen)) }
{
    match chosen {
        GenerateChoice::Labelled(labels, body) => {
            let body = lowered_block(alloc, count, body)?;
            Ok(GenerateChoice::Labelled(labels, body))
        }
        GenerateChoice::Default(at, body) => {
            let body = lowered_block(alloc, count, body)?;
            Ok(GenerateChoice::Default(at, body))
        }
    }
}

/// Choices in a row.
#[cycle(lowered)]
fn lowered_choices(
    alloc: Global,
    count: u64,
    choices: Vec<GenerateChoice>,
) -> Result<Vec<GenerateChoice>, Memory>
    ensures { IfOk result (λ all. choice_row (map choice all.items)
        ≡ lowered_choices count (choice_row (map choice choices.items))) }
{
    let mut before = count;
    let mut all = Vec::new(alloc);
    for one in choices {
        let next = behind_choice(before, &one)?;
        all.push(lowered_choice(alloc, before, one)?)?;
        before = next;
    }
    Ok(all)
}
