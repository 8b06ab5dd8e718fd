//! What instances have from those that hold them.

ghost use Rattle.std.specs.Prelude.{◌≡◌, ◌++◌, IfOk, OnOk, drop, map};
ghost use Rattle.std.specs.List.{flat_map};
ghost use Rattle.std.specs.Option.{option_map};
ghost use Rattle.name_map.specs.Values.{no_values, values_of};
ghost use Rattle.rtl_tree.specs.TreeItem.{association, instantiation, module_item};
ghost use Rattle.elab_uses.specs.elab_items.Declarations.{declaration};
ghost use Rattle.elab_readings.specs.Readings.{above_of, below_one, item_below, next_of, with_place, with_places};
ghost use Rattle.elab_readings.specs.Views.{above, below, holder, waiting};

use elab_uses::elab_items::entries::Entry;
use elab_uses::elab_standard::scopes::Scopes;
use elab_uses::elab_standard::uses::Home;
use name_map::NameMap;
use rtl_tree::tree::item::{Arguments, Instance, Item};
use std::alloc::Global;
use std::rc::Rc;
use text_ground::memory::Memory;

/// An instance that holds others.
#[derive(Drop)]
pub struct Holder {
    pub home: Home,
    pub scopes: Scopes,
    /// Where the parameters of its module are declared.
    pub places: NameMap<u32>,
}

/// An instance that an item places.
#[derive(Clone, Copy)]
pub struct Below<'a> {
    /// What the item sets the parameters to.
    pub parameters: &'a Arguments,
    pub connections: &'a Arguments,
}

/// What an instance has from the one that holds it.
#[derive(Drop)]
pub struct Above<'a> {
    pub holder: Rc<Holder>,
    pub below: Below<'a>,
}

fn push_instances<'a>(
    parameters: &'a Arguments,
    instances: &'a [Instance],
    made: &mut Vec<Below<'a>>,
) -> Result<(), Memory>
    ensures { OnOk result (map below made.new.items ≡ map below made.old.items
        ++ map (below_one (association parameters.now)) (map instantiation instances.now)) }
{
    for instance in instances {
        made.push(Below {
            parameters,
            connections: &instance.connections,
        })?;
    }
    Ok(())
}

fn push_item<'a>(item: &'a Item, made: &mut Vec<Below<'a>>) -> Result<(), Memory>
    ensures { OnOk result (map below made.new.items
        ≡ map below made.old.items ++ item_below (module_item item.now)) }
{
    match item {
        Item::Instances {
            parameters,
            instances,
            ..
        } => push_instances(parameters, instances, made),
        Item::Ports(_, _)
        | Item::Wires { .. }
        | Item::Regs { .. }
        | Item::Integers(_, _)
        | Item::Parameters { .. }
        | Item::Assigns(_, _, _)
        | Item::Gates { .. }
        | Item::Always(_, _, _) => Ok(()),
    }
}

/// The instances that items place, in order.
pub(crate) fn below_of<'a>(alloc: Global, items: &'a [Item]) -> Result<Vec<Below<'a>>, Memory>
    ensures { IfOk result (λ made. map below made.items
        ≡ flat_map item_below (map module_item items.now)) }
{
    let mut made = Vec::new(alloc);
    for item in items {
        push_item(item, &mut made)?;
    }
    Ok(made)
}

fn enter_place(entry: Entry<'_>, places: &mut NameMap<u32>) -> Result<(), Memory>
    ensures { OnOk result (values_of places.new
        ≡ with_place (values_of places.old) (declaration entry.entry)) }
{
    match entry {
        Entry::Parameter(_, name, _) => places.enter(&name.text, name.at),
        Entry::ParameterRange(_)
        | Entry::SignalRange(_)
        | Entry::Listed(_)
        | Entry::Signal { .. }
        | Entry::Integer(_)
        | Entry::Instance(_) => Ok(()),
    }
}

/// Where parameters are declared.
pub(crate) fn places_of(alloc: Global, entries: &[Entry<'_>]) -> Result<NameMap<u32>, Memory>
    ensures { IfOk result (λ made. values_of made
        ≡ with_places no_values (map declaration entries.now)) }
{
    let mut places = NameMap::new(alloc);
    for entry in entries {
        enter_place(*entry, &mut places)?;
    }
    Ok(places)
}

/// An instance as those that it holds share it.
pub(crate) fn shared(alloc: Global, holder: Holder) -> Result<Rc<Holder>, Memory>
    ensures { IfOk result (λ made. made.value ≡ holder) }
{
    match Rc::new(alloc, holder) {
        Ok(made) => Ok(made),
        Err(_) => Err(Memory),
    }
}

fn again(holder: &Rc<Holder>) -> Result<Rc<Holder>, Memory>
    ensures { IfOk result (λ made. made.value ≡ holder.now.value) }
{
    match holder.clone() {
        Ok(made) => Ok(made),
        Err(_) => Err(Memory),
    }
}

/// What the instances that one holds have from it, before all that waits.
pub(crate) fn push_above<'a>(
    shared: &Rc<Holder>,
    held: &[Below<'a>],
    pending: &mut Vec<Above<'a>>,
) -> Result<(), Memory>
    ensures { OnOk result (waiting pending.new.items
        ≡ map (above_of (holder shared.now.value)) (map below held.now)
        ++ waiting pending.old.items) }
{
    let mut left = held.len();
    while left > 0 {
        left -= 1;
        pending.push(Above {
            holder: again(shared)?,
            below: held[left],
        })?;
    }
    Ok(())
}

/// What the next instance has from above; the top has nothing.
pub(crate) fn next_above<'a>(pending: &mut Vec<Above<'a>>) -> Option<Above<'a>>
    ensures next { option_map above result ≡ next_of (waiting pending.old.items) }
    ensures others { waiting pending.new.items ≡ drop 1 (waiting pending.old.items) }
{
    pending.pop()
}
