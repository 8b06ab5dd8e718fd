// The names that a top looks up.

ghost use Rattle.std.specs.Prelude.{◌≡◌, [], ◌∷◌, IfOk, OnOk, map};
ghost use Rattle.name_map.specs.Values.{no_values, values_of};
ghost use Rattle.rtl_tree.specs.TreeItem.{module_item};
ghost use Rattle.rtl_elab.specs.elab_links.Modules.{lookups_of};
ghost use Rattle.rtl_elab.specs.elab_walk.Visits.{visit};
ghost use Rattle.elab_names.specs.Asking.{AreFound, Asks};
ghost use Rattle.elab_names.specs.LookUps.{name_in_item, names_by, names_in};

use elab_lookups::LookUp;
use name_map::NameMap;
use rtl_elab::elab_links::module_set::{Lookup, ModuleSet};
use rtl_elab::elab_walk::trail::Placement;
use rtl_tree::tree::item::Item;
use std::alloc::Global;
use text_ground::memory::Memory;
use text_ground::text::Text;

/// The names that are looked up so far, each once.
#[derive(Drop)]
pub(crate) struct Asked {
    known: NameMap<Lookup>,
    found: Vec<LookUp>,
}

impl Asked {
    /// No name is looked up yet.
    fn new(alloc: Global) -> Asked
        ensures known { values_of result.known ≡ no_values }
        ensures found { result.found.items ≡ [] }
    {
        Asked {
            known: NameMap::new(alloc),
            found: Vec::new(alloc),
        }
    }

    /// A name, where it isn't there yet.
    fn add(&mut self, alloc: Global, set: &ModuleSet, name: &Text) -> Result<(), Memory>
        ensures { OnOk result (Asks (lookups_of set.now) (name.now ∷ []) self.old self.new) }
    {
        if self.known.find(name).is_some() {
            return Ok(());
        }
        let meant = set.find(name);
        let copy = Text::from_bytes(alloc, name.as_bytes())?;
        self.known.put(&copy, meant)?;
        self.found.push(LookUp { name: copy, meant })?;
        Ok(())
    }

    /// The name of the module whose instances an item places.
    #[tactic(auto, using(crate::proofs::Asking::asks_nothing))]
    fn add_item(&mut self, alloc: Global, set: &ModuleSet, item: &Item) -> Result<(), Memory>
        ensures { OnOk result
            (Asks (lookups_of set.now) (name_in_item (module_item item.now)) self.old self.new) }
    {
        match item {
            Item::Instances { child, .. } => self.add(alloc, set, &child.text),
            Item::Ports(_, _)
            | Item::Wires { .. }
            | Item::Regs { .. }
            | Item::Integers(_, _)
            | Item::Parameters { .. }
            | Item::Assigns(_, _, _)
            | Item::Gates { .. }
            | Item::Always(_, _, _) => Ok(()),
        }
    }

    /// The names of the modules whose instances items place.
    #[tactic(auto, using(crate::proofs::Asking::asks_nothing))]
    fn add_items(&mut self, alloc: Global, set: &ModuleSet, items: &[Item]) -> Result<(), Memory>
        ensures { OnOk result
            (Asks (lookups_of set.now) (names_in (map module_item items.now)) self.old self.new) }
    {
        for item in items {
            self.add_item(alloc, set, item)?;
        }
        Ok(())
    }
}

/// The names that a top looks up, its own first and each once, with what they mean: those that the modules of these instances
/// place. It fails only for want of memory.
pub(crate) fn look_ups(
    alloc: Global,
    set: &ModuleSet,
    top: &Text,
    placements: &[Placement<'_>],
) -> Result<Vec<LookUp>, Memory>
    ensures { IfOk result (λ found. AreFound (lookups_of set.now)
        (top.now ∷ names_by (map (λ placement. visit placement.visit) placements.now))
        found.items) }
{
    let mut asked = Asked::new(alloc);
    asked.add(alloc, set, top)?;
    for placement in placements {
        asked.add_items(alloc, set, &placement.visit.written.items)?;
    }
    Ok(asked.found)
}
