// How deep the items of a module as they are written are nested.

ghost use Rattle.std.specs.Prelude.{◌≡◌, ◌-◌, ◌^◌, map, min};
ghost use Rattle.rtl_tree.specs.TreeWritten.{choice, made, written_item};
ghost use Rattle.text_grammar.specs.Depth.{choice_depth, greatest, made_depth, written_depth};

use crate::nesting::exprs::{above, expr_depth, exprs_depth};
use crate::nesting::gates::{gates_depth, optional_gate_delay_depth};
use crate::nesting::items::item_depth;
use rtl_tree::tree::written::{GenerateBlock, GenerateChoice, WrittenItem};

#[cycle(nested_written)]
fn written_depth(item: &WrittenItem) -> u32
    ensures { result ≡ min (written_depth (written_item item.now)) (2 ^ 32 - 1) }
{
    match item {
        WrittenItem::Plain(item) => item_depth(item),
        WrittenItem::Gates { delay, gates, .. } => {
            optional_gate_delay_depth(delay).max(gates_depth(gates))
        }
        WrittenItem::Genvars(_, _) => 0,
        WrittenItem::Region(_, items) => above(items_depth(items)),
        WrittenItem::If(_, condition, taken) => above(expr_depth(condition).max(made_depth(taken))),
        WrittenItem::IfElse(_, condition, taken, otherwise) => above(expr_depth(condition).max(
            made_depth(taken).max(made_depth(otherwise)),
        )),
        WrittenItem::Case(_, selector, choices) => {
            above(expr_depth(selector).max(choices_depth(choices)))
        }
        WrittenItem::For {
            start,
            condition,
            step,
            body,
            ..
        } => above(expr_depth(start).max(expr_depth(condition).max(expr_depth(step).max(made_depth(
            body,
        ))))),
    }
}

#[cycle(nested_written)]
pub(crate) fn items_depth(all: &[WrittenItem]) -> u32
    ensures { result ≡ min (greatest written_depth (map written_item all.now)) (2 ^ 32 - 1) }
{
    let mut most = 0;
    for item in all {
        most = written_depth(item).max(most);
    }
    most
}

#[cycle(nested_written)]
fn made_depth(block: &GenerateBlock) -> u32
    ensures { result ≡ min (made_depth (made block.now)) (2 ^ 32 - 1) }
{
    match block {
        GenerateBlock::Null(_) => 1,
        GenerateBlock::Single(item) => written_depth(item),
        GenerateBlock::Block(_, _, items) => above(items_depth(items)),
    }
}

#[cycle(nested_written)]
fn choice_depth(one: &GenerateChoice) -> u32
    ensures { result ≡ min (choice_depth (choice one.now)) (2 ^ 32 - 1) }
{
    match one {
        GenerateChoice::Labelled(labels, body) => exprs_depth(labels).max(made_depth(body)),
        GenerateChoice::Default(_, body) => made_depth(body),
    }
}

#[cycle(nested_written)]
fn choices_depth(all: &[GenerateChoice]) -> u32
    ensures { result ≡ min (greatest choice_depth (map choice all.now)) (2 ^ 32 - 1) }
{
    let mut most = 0;
    for one in all {
        most = choice_depth(one).max(most);
    }
    most
}
