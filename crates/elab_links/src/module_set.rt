//! The modules of all files, by their names.

ghost use Rattle.std.specs.Prelude.{◌≡◌, IfOk, OnOk, map};
ghost use Rattle.std.specs.Option.{option_map};
ghost use Rattle.rtl_tree.specs.TreeModule.{circuit};
ghost use Rattle.elab_links.specs.Modules.{all_placed, circuit_at, circuits_of, lookups_of, found, placed_in, with_another};
ghost use Rattle.elab_links.specs.Modules.{no_lookups, with_all, with_one};

use name_map::NameMap;
use rtl_tree::tree::modules::Module;
use std::alloc::Global;
use text_ground::memory::Memory;
use text_ground::text::Text;

/// Where a module stands.
#[derive(Clone, Copy, PartialEq, Eq, Debug)]
pub struct Place {
    /// The number of its file, from 0.
    pub file: usize,
    /// Its number in the file, from 0.
    pub index: usize,
}

/// What a name means among modules.
#[derive(Clone, Copy, PartialEq, Eq, Debug)]
pub enum Lookup {
    /// No module has it.
    Missing,
    /// One module has it.
    Found(Place),
    /// More than one module has it.
    Twice,
}

/// The modules of all files, by their names.
#[derive(Drop)]
pub struct ModuleSet {
    known: NameMap<Lookup>,
}

/// What a name means where one module more has it.
fn with_another(place: Place, lookup: Lookup) -> Lookup
    ensures { result ≡ with_another place lookup }
{
    match lookup {
        Lookup::Missing => Lookup::Found(place),
        Lookup::Found(_) | Lookup::Twice => Lookup::Twice,
    }
}

impl ModuleSet {
    /// No module is there yet.
    fn empty(alloc: Global) -> ModuleSet
        ensures { lookups_of result ≡ no_lookups }
    {
        ModuleSet {
            known: NameMap::new(alloc),
        }
    }

    /// The modules of files.
    #[tactic(auto, using(crate::proofs::Founds::with_all_append, crate::proofs::Founds::found_is))]
    pub fn new(alloc: Global, files: &[Vec<Module>]) -> Result<ModuleSet, Memory>
        ensures { IfOk result (λ set. lookups_of set ≡ found (all_placed (circuits_of files.now))) }
    {
        let mut set = ModuleSet::empty(alloc);
        for (file, modules) in files.iter().enumerate() {
            set.add_file(file, modules)?;
        }
        Ok(set)
    }

    /// The modules of one file more.
    fn add_file(&mut self, file: usize, modules: &[Module]) -> Result<(), Memory>
        ensures { OnOk result (lookups_of self.new
            ≡ with_all (lookups_of self.old) (placed_in file 0 (map circuit modules.now))) }
    {
        for (index, written) in modules.iter().enumerate() {
            self.add(Place { file, index }, &written.name.text)?;
        }
        Ok(())
    }

    /// One module more.
    fn add(&mut self, place: Place, name: &Text) -> Result<(), Memory>
        ensures { OnOk result (lookups_of self.new
            ≡ with_one (lookups_of self.old) (record { place = place; name = name.now })) }
    {
        let lookup = with_another(place, self.find(name));
        self.known.put(name, lookup)?;
        Ok(())
    }

    /// What the name means.
    pub fn find(&self, name: &Text) -> Lookup
        ensures { result ≡ lookups_of self.now name.now }
    {
        self.known.find(name).unwrap_or(Lookup::Missing)
    }
}

/// The module at a place.
#[tactic(auto, using(crate::proofs::Places::at_place))]
pub fn module_at(files: &[Vec<Module>], place: Place) -> Option<&Module>
    ensures { option_map (λ written. circuit written.now) result
        ≡ circuit_at (circuits_of files.now) place }
{
    files.get(place.file)?.get(place.index)
}
