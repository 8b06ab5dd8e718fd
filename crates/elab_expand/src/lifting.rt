//! The items of a block among those of the block round it.

ghost use Rattle.std.specs.Prelude.{◌≡◌, ◌++◌, ◌+◌, ◌*◌, [], List, ℕ, length, min, IfOk, OnOk, map};
ghost use Rattle.std.specs.Option.{option_map, option_to_list};
ghost use Rattle.rtl_tree.specs.TreeItem.{ModuleItem, module_item};
ghost use Rattle.elab_scope.specs.Names.{meanings};
ghost use Rattle.elab_expand.specs.Lifting.{all_lifted, lifted};
ghost use Rattle.elab_expand.specs.Tallies.{most_made};
ghost use Rattle.elab_sizes.specs.Sizes.{item_size};
ghost use Rattle.elab_expand.specs.Openings.{piece, tally};

use crate::block::Piece;
use crate::tally::Tally;
use elab_genvars::items::judge_genvars;
use elab_renames::items::renamed;
use elab_renames::naming::Naming;
use elab_scope::names::Names;
use elab_sizes::items::item_size;
use rtl_tree::tree::item::Item;
use std::alloc::Global;
use text_ground::memory::Memory;
use text_ground::text::Text;

/// How much a copy of an item counts, with the name that it gets.
fn weight(item: &Item, component: &Text) -> u64
    ensures { (size : ℕ) → min (size + result) (most_made + 1)
        ≡ min (size + item_size (module_item item.now) * (1 + length component.now)) (most_made + 1) }
{
    let times = component.as_bytes().len() as u64;
    u64::from(item_size(item)).saturating_mul(times.saturating_add(1))
}

/// A copy of an item, unless a limit is passed.
fn lift(
    alloc: Global,
    own: &Names,
    component: &Text,
    at: u32,
    item: &Item,
    so_far: &mut Tally,
) -> Result<Option<Item>, Memory>
    ensures { IfOk result (λ made. (items : List ModuleItem)
        → lifted (meanings own.now) component.now at (module_item item.now)
        (record { items = items; tally = tally so_far.old })
        ≡ record { items = items ++ option_to_list (option_map module_item made); tally = tally so_far.new }) }
{
    so_far.count(at, weight(item, component));
    if so_far.is_full() {
        return Ok(None);
    }
    let naming = Naming {
        names: own,
        component,
    };
    let made = renamed(alloc, &naming, item)?;
    so_far.tell_genvar(alloc, judge_genvars(item, own, None))?;
    Ok(Some(made))
}

/// Copies of a block's items, behind those of the block round it, until a limit is passed.
pub(crate) fn lift_all(
    alloc: Global,
    own: &Names,
    component: &Text,
    at: u32,
    within: &[Piece<'_>],
    items: &mut Vec<Piece<'_>>,
    so_far: &mut Tally,
) -> Result<(), Memory>
    ensures { OnOk result (all_lifted (meanings own.now) component.now at (map piece within.now)
        (record { items = map piece items.old.items; tally = tally so_far.old })
        ≡ record { items = map piece items.new.items; tally = tally so_far.new }) }
{
    for piece in within {
        if !so_far.is_full() {
            if let Some(made) = lift(alloc, own, component, at, piece.item(), so_far)? {
                items.push(Piece::Made(made))?;
            }
        }
    }
    Ok(())
}

/// Copies of the items of a module, until a limit is passed.
pub(crate) fn lift_items(
    alloc: Global,
    own: &Names,
    component: &Text,
    at: u32,
    within: &[Piece<'_>],
    so_far: &mut Tally,
) -> Result<Vec<Item>, Memory>
    ensures { IfOk result (λ items. all_lifted (meanings own.now) component.now at (map piece within.now)
        (record { items = []; tally = tally so_far.old })
        ≡ record { items = map module_item items.items; tally = tally so_far.new }) }
{
    let mut items = Vec::new(alloc);
    for piece in within {
        if !so_far.is_full() {
            if let Some(made) = lift(alloc, own, component, at, piece.item(), so_far)? {
                items.push(made)?;
            }
        }
    }
    Ok(items)
}
