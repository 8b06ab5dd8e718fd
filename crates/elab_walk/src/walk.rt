//! The walk over the instances of a design, each before those that it holds.

ghost use Rattle.std.specs.Prelude.{◌≡◌, IfErr, IfOk, map};
ghost use Rattle.std.specs.List.{flat_map};
ghost use Rattle.std.specs.Option.{option_map};
ghost use Rattle.rtl_tree.specs.TreeItem.{module_item, instantiation};
ghost use Rattle.elab_links.specs.elab_scope.Faults.{answer, located, refusal};
ghost use Rattle.elab_links.specs.elab_scope.Names.{meanings};
ghost use Rattle.elab_links.specs.elab_items.Rosters.{listing};
ghost use Rattle.elab_links.specs.elab_items.Scopes.{listings_of};
ghost use Rattle.elab_links.specs.Groups.{group, group_of};
ghost use Rattle.elab_walk.specs.Refusals.{told_of};
ghost use Rattle.rtl_tree.specs.TreeModule.{circuit};
ghost use Rattle.elab_walk.specs.Rooms.{has_room, room_after};
ghost use Rattle.elab_walk.specs.Trails.{AreDeclared, Going, IsTold, Went, gone, trail};
ghost use Rattle.elab_walk.specs.Visits.{child_of, children, holder, item_children, library, placed_children, scope_in, visit, visits};

use crate::extras::spare_extras;
use crate::judge::{Judged, judge_visit};
use crate::library::Library;
use crate::room::Room;
use crate::trail::Trail;
use crate::visit::{Holder, Visit, file_of};
use elab_links::elab_items::roster::{Listing, Roster};
use elab_links::elab_scope::fault::{ElabFault, Fault};
use elab_links::elab_scope::names::Names;
use elab_links::groups::{Group, group_of};
use elab_links::module_set::Place;
use rtl_tree::tree::item::{Instance, Item};
use rtl_tree::tree::modules::Module;
use std::alloc::Global;
use text_ground::memory::Memory;

/// The most instances of a design.
const INSTANCES: u16 = 20_000;

/// The fault with its file, or want of memory.
#[tactic(auto, using(crate::proofs::Telling::told_as))]
fn told(alloc: Global, place: Place, fault: Fault<'_>) -> ElabFault
    ensures { IsTold (answer result) (Some (located place.file (refusal fault.entry))) }
{
    let Ok(file) = file_of(place) else {
        return ElabFault::Memory;
    };
    match fault.locate(alloc, file) {
        Ok(told) => told,
        Err(_) => ElabFault::Memory,
    }
}

/// What an instance leaves of which nothing is told.
#[derive(Drop)]
struct Left<'a> {
    /// What the names of its module stand for.
    names: Names,
    /// The signals of its module, in the order of their numbers.
    signals: Vec<Listing<'a>>,
    room: Room,
}

/// Whether a design has room for one instance more, of this module.
#[tactic(auto, using(crate::proofs::Borrowed::some_spared))]
fn has_room(room: Room, written: &Module) -> bool
    ensures { result ≡ has_room room (circuit written.now) }
{
    room.number < INSTANCES && spare_extras(written, room.extras).is_some()
}

/// An instance of which nothing is told.
fn pass<'a>(
    alloc: Global,
    all: Library<'a>,
    met: &Visit<'a>,
    room: Room,
) -> Result<Left<'a>, ElabFault>
    ensures names { IfOk result (λ left. meanings left.names ≡ scope_in (visit met.now)) }
    ensures signals { IfOk result (λ left. map listing left.signals.items
        ≡ listings_of (visit met.now).settings (visit met.now).circuit) }
    ensures nothing { IfOk result (λ left. told_of (library all.entry) room (visit met.now)
        ≡ None) }
    ensures room { IfOk result (λ left. left.room
        ≡ room_after (library all.entry) room (visit met.now)) }
    ensures told { IfErr result (λ error.
        IsTold (answer error) (told_of (library all.entry) room (visit met.now))) }
{
    if !has_room(room, met.written) {
        return Err(ElabFault::TooLarge(met.spot));
    }
    match judge_visit(alloc, all, met, room) {
        Err(_) => Err(ElabFault::Memory),
        Ok(
            Judged {
                names,
                signals,
                best,
                room,
            },
        ) => match best {
            None => Ok(Left {
                names,
                signals,
                room,
            }),
            Some(fault) => Err(told(alloc, met.place, fault)),
        },
    }
}

/// An instance, and behind it each that it holds with its own, over so many levels. The trail has each instance to which
/// the walk comes, the one at fault among them.
#[cycle(visit)]
pub fn visit<'a>(
    alloc: Global,
    all: Library<'a>,
    levels: u32,
    met: Visit<'a>,
    so_far: &mut Trail<'a>,
) -> Result<(), ElabFault>
    ensures went { Went result (trail so_far.new)
        (gone (library all.entry) (Going (trail so_far.old))
        (visits (library all.entry) levels (visit met.entry))) }
    ensures declared { AreDeclared so_far.old.placements.items
        → AreDeclared so_far.new.placements.items }
{
    if levels == 0 {
        return Ok(());
    }
    let room = so_far.room;
    match pass(alloc, all, &met, room) {
        Err(error) => {
            so_far.follow(met, room)?;
            Err(error)
        }
        Ok(left) => {
            let holder = Holder::new(alloc, &met, left.names)?;
            let items = met.written.items.as_slice();
            let place = so_far.placements.len();
            so_far.follow(met, left.room)?;
            visit_items(alloc, all, levels - 1, &holder, items, so_far)?;
            let names = holder.names;
            let signals = left.signals;
            so_far.keep(place, Roster { names, signals });
            Ok(())
        }
    }
}

/// What items hold, in order.
#[cycle(visit)]
fn visit_items<'a>(
    alloc: Global,
    all: Library<'a>,
    levels: u32,
    within: &Holder<'a>,
    items: &'a [Item],
    so_far: &mut Trail<'a>,
) -> Result<(), ElabFault>
    ensures went { Went result (trail so_far.new)
        (gone (library all.entry) (Going (trail so_far.old))
        (flat_map (visits (library all.entry) levels)
        (children (library all.entry) (holder within.now) (map module_item items.now)))) }
    ensures declared { AreDeclared so_far.old.placements.items
        → AreDeclared so_far.new.placements.items }
{
    for item in items {
        visit_item(alloc, all, levels, within, item, so_far)?;
    }
    Ok(())
}

/// What an item holds.
#[cycle(visit)]
fn visit_item<'a>(
    alloc: Global,
    all: Library<'a>,
    levels: u32,
    within: &Holder<'a>,
    item: &'a Item,
    so_far: &mut Trail<'a>,
) -> Result<(), ElabFault>
    ensures went { Went result (trail so_far.new)
        (gone (library all.entry) (Going (trail so_far.old))
        (flat_map (visits (library all.entry) levels)
        (item_children (library all.entry) (holder within.now) (module_item item.now)))) }
    ensures declared { AreDeclared so_far.old.placements.items
        → AreDeclared so_far.new.placements.items }
{
    match item {
        Item::Instances {
            child,
            instances,
            ..
        } => {
            visit_instantiations(
                alloc, all, levels, within, child.at, item, instances, so_far,
            )
        }
        Item::Ports(_, _)
        | Item::Wires { .. }
        | Item::Regs { .. }
        | Item::Integers(_, _)
        | Item::Parameters { .. }
        | Item::Assigns(_, _, _)
        | Item::Gates { .. }
        | Item::Always(_, _, _) => Ok(()),
    }
}

/// The instances that an item places, in order.
#[cycle(visit)]
fn visit_instantiations<'a>(
    alloc: Global,
    all: Library<'a>,
    levels: u32,
    within: &Holder<'a>,
    at: u32,
    item: &'a Item,
    instances: &'a [Instance],
    so_far: &mut Trail<'a>,
) -> Result<(), ElabFault>
    ensures went { Went result (trail so_far.new)
        (gone (library all.entry) (Going (trail so_far.old))
        (flat_map (visits (library all.entry) levels)
        (placed_children (holder within.now) at
        (group_of (library all.entry).lookups (library all.entry).files
        (holder within.now).scope (module_item item.now)) (map instantiation instances.now)))) }
    ensures declared { AreDeclared so_far.old.placements.items
        → AreDeclared so_far.new.placements.items }
{
    for instance in instances {
        visit_instantiation(alloc, all, levels, within, at, item, instance, so_far)?;
    }
    Ok(())
}

/// One instance that an item places.
#[cycle(visit)]
fn visit_instantiation<'a>(
    alloc: Global,
    all: Library<'a>,
    levels: u32,
    within: &Holder<'a>,
    at: u32,
    item: &'a Item,
    instance: &'a Instance,
    so_far: &mut Trail<'a>,
) -> Result<(), ElabFault>
    ensures went { Went result (trail so_far.new)
        (gone (library all.entry) (Going (trail so_far.old))
        (flat_map (visits (library all.entry) levels)
        (child_of (holder within.now) at instance.now.name.text
        (group_of (library all.entry).lookups (library all.entry).files
        (holder within.now).scope (module_item item.now))))) }
    ensures declared { AreDeclared so_far.old.placements.items
        → AreDeclared so_far.new.placements.items }
{
    match group_of(alloc, all.files, all.set, item, &within.names)? {
        None => Ok(()),
        Some(made) => {
            let met = within.child(alloc, at, &instance.name.text, made)?;
            visit(alloc, all, levels, met, so_far)
        }
    }
}
