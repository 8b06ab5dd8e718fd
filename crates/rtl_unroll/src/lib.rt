//! Modules as elaboration reads them: assignments in place of gates, and generate constructs apart from other items.
#![tactic(auto)]

mod gates;
mod inputs;
mod lowered;
mod numbering;

ghost use Rattle.std.specs.Prelude.{◌≡◌, IfOk, OnOk, map};
ghost use Rattle.rtl_tree.specs.TreeWritten.{item_row, written_item};
ghost use Rattle.rtl_tree.specs.TreeItem.{module_item};
ghost use Rattle.rtl_tree.specs.TreeModule.{circuit, written_circuit};
ghost use Rattle.rtl_unroll.specs.Plain.{nothing_sorted, plain_circuit, sorted_item, sorted_items, sorted_of, with_construct, with_item};

use gates::gates_item;
use lowered::lowered_item;
use numbering::behind_item;
use rtl_tree::tree::item::Item;
use rtl_tree::tree::modules::{Construct, Module, WrittenModule};
use rtl_tree::tree::written::WrittenItem;
use std::alloc::Global;
use text_ground::memory::Memory;

/// Items of a module, the constructs among them, and how many constructs of the module's scope these are and hold.
#[derive(Drop)]
struct Sorted {
    items: Vec<Item>,
    constructs: Vec<Construct>,
    count: u64,
}

/// Puts a construct behind others.
fn push_construct(alloc: Global, written: WrittenItem, sorted: &mut Sorted) -> Result<(), Memory>
    ensures { OnOk result (sorted_of sorted.new
        ≡ with_construct (sorted_of sorted.old) (written_item written)) }
{
    let count = behind_item(sorted.count, &written)?;
    let written = lowered_item(alloc, sorted.count, written)?;
    sorted.constructs.push(Construct {
        position: sorted.items.len(),
        written,
    })?;
    sorted.count = count;
    Ok(())
}

/// Puts an item behind others.
#[cycle(sorted)]
fn push_item(alloc: Global, written: WrittenItem, sorted: &mut Sorted) -> Result<(), Memory>
    ensures { OnOk result (sorted_of sorted.new
        ≡ sorted_item (sorted_of sorted.old) (written_item written)) }
{
    match written {
        WrittenItem::Plain(item) => Ok(sorted.items.push(item)?),
        WrittenItem::Gates {
            at,
            kind,
            delay,
            gates,
        } => Ok(
            sorted
                .items
                .push(gates_item(alloc, at, kind, delay, gates)?)?,
        ),
        WrittenItem::Region(_, items) => push_items(alloc, items, sorted),
        other => push_construct(alloc, other, sorted),
    }
}

/// Puts items behind others.
#[cycle(sorted)]
fn push_items(alloc: Global, written: Vec<WrittenItem>, sorted: &mut Sorted) -> Result<(), Memory>
    ensures { OnOk result (sorted_of sorted.new
        ≡ sorted_items (sorted_of sorted.old) (item_row (map written_item written.items))) }
{
    for one in written {
        push_item(alloc, one, sorted)?;
    }
    Ok(())
}

fn sorted_items(alloc: Global, written: Vec<WrittenItem>) -> Result<Sorted, Memory>
    ensures { IfOk result (λ sorted. sorted_of sorted
        ≡ sorted_items nothing_sorted (item_row (map written_item written.items))) }
{
    let mut sorted = Sorted {
        items: Vec::new(alloc),
        constructs: Vec::new(alloc),
        count: 0,
    };
    push_items(alloc, written, &mut sorted)?;
    Ok(sorted)
}

/// A module with assignments in place of its gates.
pub fn plain(alloc: Global, written: WrittenModule) -> Result<Module, Memory>
    ensures { IfOk result (λ made. circuit made ≡ plain_circuit (written_circuit written)) }
{
    let WrittenModule {
        at,
        name,
        parameters,
        ports,
        items,
        dropped,
    } = written;
    let Sorted {
        items,
        constructs,
        ..
    } = sorted_items(alloc, items)?;
    Ok(Module {
        at,
        name,
        parameters,
        ports,
        items,
        constructs,
        dropped,
    })
}
