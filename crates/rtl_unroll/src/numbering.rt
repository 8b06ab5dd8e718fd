// How many generate constructs stand in a scope, by which a loop without a label is numbered.
//
// The only error is want of memory: none holds a tree with more constructs than are counted here.

ghost use Rattle.std.specs.Prelude.{◌≡◌, ◌+◌, IfOk, map};
ghost use Rattle.rtl_tree.specs.TreeWritten.{choice, choice_row, item_row, made, written_item};
ghost use Rattle.rtl_unroll.specs.Numbering.{block_constructs, choice_constructs, choices_constructs, is_branching, item_constructs, items_constructs, without_outer};

use rtl_tree::tree::written::{GenerateBlock, GenerateChoice, WrittenItem};
use text_ground::memory::Memory;

/// The sum of two counts.
pub fn counted(count: u64, more: u64) -> Result<u64, Memory>
    ensures { IfOk result (λ sum. sum ≡ count + more) }
{
    count.checked_add(more).ok_or(Memory)
}

/// Whether it is an `if` or a `case`.
fn is_branching(item: &WrittenItem) -> bool
    ensures { result ≡ is_branching (written_item item.now) }
{
    match item {
        WrittenItem::If(..) | WrittenItem::IfElse(..) | WrittenItem::Case(..) => true,
        WrittenItem::Plain(_)
        | WrittenItem::Gates { .. }
        | WrittenItem::Genvars(..)
        | WrittenItem::Region(..)
        | WrittenItem::For { .. } => false,
    }
}

/// A count without the construct that an item stands in alone, where it is that construct still.
pub fn without_outer(item: &WrittenItem, count: u64) -> u64
    ensures { result ≡ without_outer (written_item item.now) count }
{
    if is_branching(item) {
        count.saturating_sub(1)
    } else {
        count
    }
}

/// How many constructs of its own scope an item is and holds.
#[cycle(constructs)]
fn item_constructs(item: &WrittenItem) -> Result<u64, Memory>
    ensures { IfOk result (λ count. count ≡ item_constructs (written_item item.now)) }
{
    match item {
        WrittenItem::Plain(_) | WrittenItem::Gates { .. } | WrittenItem::Genvars(..) => Ok(0),
        WrittenItem::Region(_, items) => items_constructs(items),
        WrittenItem::If(_, _, taken) => counted(1, block_constructs(taken)?),
        WrittenItem::IfElse(_, _, taken, otherwise) => {
            let count = counted(1, block_constructs(taken)?)?;
            counted(count, block_constructs(otherwise)?)
        }
        WrittenItem::Case(_, _, choices) => counted(1, choices_constructs(choices)?),
        WrittenItem::For { .. } => Ok(1),
    }
}

/// Of items in a row.
#[cycle(constructs)]
fn items_constructs(items: &[WrittenItem]) -> Result<u64, Memory>
    ensures { IfOk result (λ count. count
        ≡ items_constructs (item_row (map written_item items.now))) }
{
    let mut count = 0;
    for item in items {
        count = counted(count, item_constructs(item)?)?;
    }
    Ok(count)
}

/// Of what a branch makes.
#[cycle(constructs)]
fn block_constructs(block: &GenerateBlock) -> Result<u64, Memory>
    ensures { IfOk result (λ count. count ≡ block_constructs (made block.now)) }
{
    match block {
        GenerateBlock::Null(_) => Ok(0),
        GenerateBlock::Single(item) => Ok(without_outer(item, item_constructs(item)?)),
        GenerateBlock::Block(_, label, items) => match label {
            Some(_) => Ok(0),
            None => items_constructs(items),
        },
    }
}

/// Of a choice.
#[cycle(constructs)]
fn choice_constructs(chosen: &GenerateChoice) -> Result<u64, Memory>
    ensures { IfOk result (λ count. count ≡ choice_constructs (choice chosen.now)) }
{
    match chosen {
        GenerateChoice::Labelled(_, body) | GenerateChoice::Default(_, body) => block_constructs(
            body,
        ),
    }
}

/// Of choices in a row.
#[cycle(constructs)]
fn choices_constructs(choices: &[GenerateChoice]) -> Result<u64, Memory>
    ensures { IfOk result (λ count. count
        ≡ choices_constructs (choice_row (map choice choices.now))) }
{
    let mut count = 0;
    for one in choices {
        count = counted(count, choice_constructs(one)?)?;
    }
    Ok(count)
}

/// How many constructs stand up to the end of an item, where so many stand before it.
pub fn behind_item(count: u64, item: &WrittenItem) -> Result<u64, Memory>
    ensures { IfOk result (λ sum. sum ≡ count + item_constructs (written_item item.now)) }
{
    counted(count, item_constructs(item)?)
}

/// The same of a branch.
pub fn behind_block(count: u64, block: &GenerateBlock) -> Result<u64, Memory>
    ensures { IfOk result (λ sum. sum ≡ count + block_constructs (made block.now)) }
{
    counted(count, block_constructs(block)?)
}

/// The same of a choice.
pub fn behind_choice(count: u64, chosen: &GenerateChoice) -> Result<u64, Memory>
    ensures { IfOk result (λ sum. sum ≡ count + choice_constructs (choice chosen.now)) }
{
    counted(count, choice_constructs(chosen)?)
}
