//! What other tools read otherwise in a design.

ghost use Rattle.std.specs.Prelude.{◌≡◌, ◌++◌, IfOk, IfSome, None, OnOk, map};
ghost use Rattle.std.specs.List.{flat_map};
ghost use Rattle.std.specs.Option.{option_map};
ghost use Rattle.name_map.specs.Values.{values_of};
ghost use Rattle.rtl_tree.specs.TreeItem.{module_item};
ghost use Rattle.elab_uses.specs.elab_items.Declarations.{declaration, declarations};
ghost use Rattle.elab_uses.specs.elab_items.Scopes.{listings_of};
ghost use Rattle.elab_uses.specs.elab_scope.Names.{meanings};
ghost use Rattle.elab_uses.specs.elab_standard.Scopes.{scopes};
ghost use Rattle.elab_uses.specs.elab_walk.Trails.{AreDeclared, IsDeclared, placement};
ghost use Rattle.elab_uses.specs.elab_walk.Visits.{scope_in};
ghost use Rattle.elab_readings.specs.Readings.{above_in, coming, given_to, held_notes, home_at, item_notes, next_of, notes_of, own_notes, placement_notes, scopes_at};
ghost use Rattle.elab_readings.specs.Signs.{sign_notes};
ghost use Rattle.elab_readings.specs.Views.{above, waiting};

use crate::above::{Above, Holder, below_of, next_above, places_of, push_above, shared};
use crate::connections::{Ends, push_connections};
use crate::signs::push_signs;
use elab_uses::elab_items::entries::{Entry, entries_of};
use elab_uses::elab_items::roster::Roster;
use elab_uses::elab_links::parameters::settable;
use elab_uses::elab_scope::names::Names;
use elab_uses::elab_standard::declarations::{push_declarations, push_settings};
use elab_uses::elab_standard::scopes::Scopes;
use elab_uses::elab_standard::standard::Standard;
use elab_uses::elab_standard::standards::given_by;
use elab_uses::elab_standard::uses::Home;
use elab_uses::elab_walk::trail::Placement;
use elab_uses::elab_walk::visit::file_of;
use elab_uses::items::push_item;
use name_map::NameMap;
use rtl_flat::note::Note;
use rtl_tree::tree::item::Item;
use std::alloc::Global;
use text_ground::memory::Memory;

fn home_at(at: &Placement<'_>) -> Result<Home, Memory>
    ensures { IfOk result (λ home. home ≡ home_at (placement at.now)) }
{
    Ok(Home {
        file: file_of(at.visit.place)?,
        instance: u32::from(at.number),
    })
}

/// What the parameters of an instance are set to by the standard; no one sets those of the top.
fn given_to(
    alloc: Global,
    at: &Placement<'_>,
    from_above: &Option<Above<'_>>,
    entries: &[Entry<'_>],
) -> Result<NameMap<Standard>, Memory>
    requires { map declaration entries.now ≡ declarations (placement at.now).visit.circuit }
    ensures { IfOk result (λ made. values_of made
        ≡ given_to (option_map above from_above.now) (placement at.now).visit.circuit) }
{
    match from_above {
        None => Ok(NameMap::new(alloc)),
        Some(own) => {
            let names = settable(alloc, entries)?;
            given_by(alloc, &names, own.below.parameters, &own.holder.scopes)
        }
    }
}

/// What the names of an instance's module stand for, which are taken from it, and the notes of the signs of its ports.
fn own_names(
    alloc: Global,
    home: Home,
    at: &mut Placement<'_>,
    entries: &[Entry<'_>],
    made: &mut Vec<Note>,
) -> Result<Names, Memory>
    requires declared { IfSome at.old.declared (IsDeclared (placement at.old).visit) }
    requires entries { map declaration entries.now ≡ declarations (placement at.old).visit.circuit }
    ensures names { IfOk result (λ names. meanings names ≡ scope_in (placement at.old).visit) }
    ensures notes { OnOk result (made.new.items ≡ made.old.items
        ++ sign_notes home (placement at.old).base (scope_in (placement at.old).visit)
        (listings_of (placement at.old).visit.settings (placement at.old).visit.circuit)
        (declarations (placement at.old).visit.circuit)) }
    ensures same { placement at.new ≡ placement at.old }
    ensures taken { OnOk result (at.new.declared ≡ None) }
{
    let Roster { names, signals } = at.take_declared(alloc)?;
    push_signs(alloc, home, at.base, &names, &signals, entries, made)?;
    Ok(names)
}

/// What the names of an instance's module stand for by the standard too, and the notes of its declarations.
fn own_scopes(
    alloc: Global,
    home: Home,
    at: &mut Placement<'_>,
    from_above: &Option<Above<'_>>,
    entries: &[Entry<'_>],
    made: &mut Vec<Note>,
) -> Result<Scopes, Memory>
    requires declared { IfSome at.old.declared (IsDeclared (placement at.old).visit) }
    requires home { home ≡ home_at (placement at.old) }
    requires entries { map declaration entries.now ≡ declarations (placement at.old).visit.circuit }
    ensures scopes { IfOk result (λ own. scopes own
        ≡ scopes_at (option_map above from_above.now) (placement at.old)) }
    ensures notes { OnOk result (made.new.items ≡ made.old.items
        ++ own_notes (option_map above from_above.now) (placement at.old)) }
    ensures same { placement at.new ≡ placement at.old }
    ensures taken { OnOk result (at.new.declared ≡ None) }
{
    let written = at.visit.written;
    let given = given_to(alloc, at, from_above, entries)?;
    let names = own_names(alloc, home, at, entries, made)?;
    let own = Scopes::of(alloc, names, written, &given)?;
    push_declarations(alloc, home, &own, written, &given, made)?;
    Ok(own)
}

/// The notes of items.
fn push_items(
    home: Home,
    own: &mut Scopes,
    items: &[Item],
    made: &mut Vec<Note>,
) -> Result<(), Memory>
    ensures notes { OnOk result (made.new.items ≡ made.old.items
        ++ flat_map (item_notes home (scopes own.old)) (map module_item items.now)) }
    ensures same { scopes own.new ≡ scopes own.old }
{
    for item in items {
        push_item(home, own, item, made)?;
    }
    Ok(())
}

/// The notes of what an instance is given, which stand in the module that holds it.
fn push_held(
    alloc: Global,
    at: &Placement<'_>,
    from_above: &Option<Above<'_>>,
    own: &Scopes,
    made: &mut Vec<Note>,
) -> Result<(), Memory>
    ensures { OnOk result (made.new.items ≡ made.old.items
        ++ held_notes (option_map above from_above.now) (placement at.now) (scopes own.now)) }
{
    let Some(given) = from_above else {
        return Ok(());
    };
    let holder: &Holder = &given.holder;
    let written = at.visit.written;
    let parameters = given.below.parameters;
    push_settings(
        alloc,
        holder.home,
        &holder.scopes,
        written,
        &own.names,
        parameters,
        made,
    )?;
    let sides = Ends {
        holder,
        base: at.base,
        inner: &own.names,
    };
    push_connections(&written.ports, sides, given.below.connections, made)
}

/// What the instances that an instance holds have from it, before all that waits.
fn push_below<'a>(
    alloc: Global,
    home: Home,
    at: &Placement<'a>,
    own: Scopes,
    entries: &[Entry<'_>],
    pending: &mut Vec<Above<'a>>,
) -> Result<(), Memory>
    requires home { home ≡ home_at (placement at.now) }
    requires entries { map declaration entries.now ≡ declarations (placement at.now).visit.circuit }
    ensures { OnOk result (waiting pending.new.items
        ≡ above_in (scopes own) (placement at.now) ++ waiting pending.old.items) }
{
    let held = below_of(alloc, &at.visit.written.items)?;
    if held.is_empty() {
        return Ok(());
    }
    let places = places_of(alloc, entries)?;
    let holder = shared(
        alloc,
        Holder {
            home,
            scopes: own,
            places,
        },
    )?;
    push_above(&holder, &held, pending)
}

/// The notes of the next instance.
fn push_placement<'a>(
    alloc: Global,
    at: &mut Placement<'a>,
    pending: &mut Vec<Above<'a>>,
    made: &mut Vec<Note>,
) -> Result<(), Memory>
    requires { IfSome at.old.declared (IsDeclared (placement at.old).visit) }
    ensures notes { OnOk result (made.new.items ≡ made.old.items
        ++ placement_notes (next_of (waiting pending.old.items)) (placement at.old)) }
    ensures waiting { OnOk result (waiting pending.new.items
        ≡ coming (waiting pending.old.items) (placement at.old)) }
    ensures same { placement at.new ≡ placement at.old }
    ensures taken { OnOk result (at.new.declared ≡ None) }
{
    let from_above = next_above(pending);
    let home = home_at(at)?;
    let entries = entries_of(alloc, at.visit.written)?;
    let mut own = own_scopes(alloc, home, at, &from_above, &entries, made)?;
    push_items(home, &mut own, &at.visit.written.items, made)?;
    push_held(alloc, at, &from_above, &own, made)?;
    push_below(alloc, home, at, own, &entries, pending)
}

/// What other tools read otherwise in the texts of these instances, each before those that it holds. What they declare is
/// taken from them.
///
/// Fails only where memory runs out.
pub fn notes_of(alloc: Global, placements: &mut [Placement<'_>]) -> Result<Vec<Note>, Memory>
    requires { AreDeclared placements.old }
    ensures { IfOk result (λ made. made.items ≡ notes_of (map placement placements.old)) }
{
    let mut pending = Vec::new(alloc);
    let mut made = Vec::new(alloc);
    for place in 0..placements.len() {
        push_placement(alloc, &mut placements[place], &mut pending, &mut made)?;
    }
    Ok(made)
}
