//! The instances that an item places.

ghost use Rattle.std.specs.Prelude.{◌≡◌, IfOk, map};
ghost use Rattle.std.specs.Option.{option_map};
ghost use Rattle.rtl_tree.specs.TreeItem.{association, module_item, instantiation};
ghost use Rattle.elab_items.specs.elab_scope.Names.{meanings};
ghost use Rattle.elab_links.specs.Groups.{found_group, group, group_of};
ghost use Rattle.elab_links.specs.Modules.{circuits_of, lookups_of};

use crate::module_set::{Lookup, ModuleSet, Place, module_at};
use crate::parameters::{settable, settings_by};
use elab_items::elab_scope::names::Names;
use elab_items::entries::entries_of;
use elab_items::overrides::Overrides;
use rtl_tree::tree::item::{Arguments, Instance, Item};
use rtl_tree::tree::modules::Module;
use std::alloc::Global;
use text_ground::memory::Memory;

/// Instances of one module with the same parameters.
#[derive(Drop)]
pub struct Group<'a> {
    /// Where their module stands.
    pub place: Place,
    pub written: &'a Module,
    /// What their parameters are set to.
    pub overrides: Overrides,
    /// In the order of the item.
    pub instances: &'a [Instance],
}

fn found_group<'a>(
    alloc: Global,
    files: &'a [Vec<Module>],
    lookup: Lookup,
    parameters: &Arguments,
    instances: &'a [Instance],
    names: &Names,
) -> Result<Option<Group<'a>>, Memory>
    ensures { IfOk result (λ made. option_map group made
        ≡ found_group (circuits_of files.now) (meanings names.now) lookup
        (association parameters.now) (map instantiation instances.now)) }
{
    let Lookup::Found(place) = lookup else {
        return Ok(None);
    };
    let Some(written) = module_at(files, place) else {
        return Ok(None);
    };
    let entries = entries_of(alloc, written)?;
    let settable = settable(alloc, &entries)?;
    Ok(Some(Group {
        place,
        written,
        overrides: settings_by(alloc, &settable, parameters, names)?,
        instances,
    }))
}

/// The instances that an item places, where their module is found; `names` are those of the module that holds it.
pub fn group_of<'a>(
    alloc: Global,
    files: &'a [Vec<Module>],
    set: &ModuleSet,
    item: &'a Item,
    names: &Names,
) -> Result<Option<Group<'a>>, Memory>
    ensures { IfOk result (λ made. option_map group made
        ≡ group_of (lookups_of set.now) (circuits_of files.now) (meanings names.now)
        (module_item item.now)) }
{
    match item {
        Item::Instances {
            child,
            parameters,
            instances,
        } => {
            let lookup = set.find(&child.text);
            found_group(alloc, files, lookup, parameters, instances, names)
        }
        Item::Ports(_, _)
        | Item::Wires { .. }
        | Item::Regs { .. }
        | Item::Integers(_, _)
        | Item::Parameters { .. }
        | Item::Assigns(_, _, _)
        | Item::Gates { .. }
        | Item::Always(_, _, _) => Ok(None),
    }
}
