//! Instances on the walk.

ghost use Rattle.std.specs.Prelude.{◌≡◌, ◌++◌, ◌∷◌, [], IfOk, map};
ghost use Rattle.elab_links.specs.elab_items.Signals.{path_in};
ghost use Rattle.elab_links.specs.Groups.{group};
ghost use Rattle.elab_links.specs.elab_scope.Names.{meanings};
ghost use Rattle.elab_walk.specs.Visits.{child_in, holder, holder_of, scope_in, visit};

use elab_links::elab_items::overrides::Overrides;
use elab_links::elab_scope::names::Names;
use elab_links::groups::Group;
use elab_links::module_set::Place;
use rtl_tree::tree::modules::Module;
use std::alloc::Global;
use text_ground::memory::Memory;
use text_ground::text::{Spot, Text};

/// An instance of a module.
#[derive(Drop)]
pub struct Visit<'a> {
    /// The names of the instances from the top to it, with dots between them.
    pub path: Text,
    /// Where its module stands.
    pub place: Place,
    pub written: &'a Module,
    /// What its parameters are set to.
    pub overrides: Overrides,
    /// The names of the modules from the top to its own.
    pub way: Vec<&'a Text>,
    /// Where its module is named; for the top where it stands.
    pub spot: Spot,
}

/// What an instance gives to those that it holds.
#[derive(Drop)]
pub struct Holder<'a> {
    pub path: Text,
    /// The file of its module.
    pub file: u32,
    /// The names of the modules from the top to its own.
    pub way: Vec<&'a Text>,
    /// What the names of its module stand for.
    pub names: Names,
}

/// The number of a file. More files than it can count fit into no memory.
pub fn file_of(place: Place) -> Result<u32, Memory>
    ensures { IfOk result (λ file. file ≡ place.file) }
{
    match u32::try_from(place.file) {
        Ok(file) => Ok(file),
        Err(_) => Err(Memory),
    }
}

/// The path of what an instance holds: its own, a dot and the name.
pub fn path_in(alloc: Global, holder: &Text, name: &Text) -> Result<Text, Memory>
    ensures { IfOk result (λ path. path ≡ path_in holder.now name.now) }
{
    let mut path = Vec::from_slice(alloc, holder.as_bytes())?;
    path.push(b'.')?;
    path.extend_from_slice(name.as_bytes())?;
    Ok(Text::from_vec(path))
}

fn way_of<'a>(alloc: Global, way: &[&'a Text]) -> Result<Vec<&'a Text>, Memory>
    ensures { IfOk result (λ made. map (λ text. text.now) made.items
        ≡ map (λ text. text.now) way.now) }
{
    let mut made = Vec::new(alloc);
    for name in way {
        made.push(*name)?;
    }
    Ok(made)
}

impl<'a> Holder<'a> {
    pub fn new(alloc: Global, met: &Visit<'a>, names: Names) -> Result<Holder<'a>, Memory>
        requires { meanings names ≡ scope_in (visit met.now) }
        ensures { IfOk result (λ made. holder made ≡ holder_of (visit met.now)) }
    {
        Ok(Holder {
            path: Text::from_bytes(alloc, met.path.as_bytes())?,
            file: file_of(met.place)?,
            way: way_of(alloc, &met.way)?,
            names,
        })
    }

    /// An instance of this name, whose module the item names at a place.
    pub fn child(
        &self,
        alloc: Global,
        at: u32,
        name: &Text,
        made: Group<'a>,
    ) -> Result<Visit<'a>, Memory>
        ensures { IfOk result (λ met. visit met
            ≡ child_in (holder self.now) at name.now (group made.entry)) }
    {
        let mut way = way_of(alloc, &self.way)?;
        way.push(&made.written.name.text)?;
        let Group {
            place,
            written,
            overrides,
            instances: _,
        } = made;
        Ok(Visit {
            path: path_in(alloc, &self.path, name)?,
            place,
            written,
            overrides,
            way,
            spot: Spot {
                file: self.file,
                at,
            },
        })
    }
}
