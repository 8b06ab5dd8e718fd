//! How many parameters, `integer`s and dropped regions the instances of a design may still have. None of them is a signal, a process
//! or a statement, so that without a limit of their own a short text could have hundreds of millions of them.

ghost use Rattle.std.specs.Prelude.{◌≡◌};
ghost use Rattle.rtl_tree.specs.TreeItem.{module_item};
ghost use Rattle.rtl_tree.specs.TreeModule.{circuit};
ghost use Rattle.elab_walk.specs.Rooms.{extra_count, item_extras};
ghost use Rattle.elab_parts.specs.elab_nodes.Spares.{spared};

use elab_parts::elab_nodes::spare::spare;
use rtl_tree::tree::item::Item;
use rtl_tree::tree::modules::Module;

fn count_in(item: &Item) -> usize
    ensures { result ≡ item_extras (module_item item.now) }
{
    match item {
        Item::Parameters { settings, .. } => settings.len(),
        Item::Integers(_, names) => names.len(),
        Item::Ports(_, _)
        | Item::Wires { .. }
        | Item::Regs { .. }
        | Item::Assigns(_, _, _)
        | Item::Gates { .. }
        | Item::Always(_, _, _)
        | Item::Instances { .. } => 0,
    }
}

/// How many of so many extras are left behind those of a module; none where it has more.
#[tactic(auto, using(crate::proofs::Borrowed::spared_more))]
pub(crate) fn spare_extras(written: &Module, most: u32) -> Option<u32>
    ensures { result ≡ spared most (extra_count (circuit written.now)) }
{
    let left = spare(most, written.parameters.len())?;
    let mut left = spare(left, written.dropped.len())?;
    for item in &written.items {
        left = spare(left, count_in(item))?;
    }
    Some(left)
}
