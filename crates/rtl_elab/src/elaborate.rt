//! The flat design of a top module.

ghost use Rattle.std.specs.Prelude.{◌≡◌, [], IfErr, IfOk, Some, map};
ghost use Rattle.std.specs.Option.{option_map};
ghost use Rattle.elab_lawful.specs.elab_scope.Faults.{answer};
ghost use Rattle.rtl_elab.specs.Designs.{noted_parts};
ghost use Rattle.rtl_elab.specs.Elaborated.{elaborated, made_of, refused, visited};
ghost use Rattle.elab_lawful.specs.elab_flat.Children.{HaveChildren};
ghost use Rattle.elab_lawful.specs.elab_walk.Placements.{placements};
ghost use Rattle.elab_lawful.specs.elab_walk.Trails.{AreDeclared, IsTold, placement};
ghost use Rattle.elab_lawful.specs.elab_walk.Visits.{library};

use elab_lawful::elab_flat::flat::{DesignParts, flat_of};
use elab_lawful::elab_links::module_set::{Lookup, module_at};
use elab_lawful::elab_scope::fault::ElabFault;
use elab_lawful::elab_walk::library::Library;
use elab_lawful::elab_walk::top::{Walked, top_visit, walk};
use elab_lawful::elab_walk::trail::Placement;
use elab_readings::readings::notes_of;
use rtl_flat::note::Note;
use std::alloc::Global;
use text_ground::memory::Memory;
use text_ground::text::Text;

/// The instances of the module with a name, each before those that it holds, up to the first of which something is told,
/// and what that is.
///
/// Fails only where memory runs out.
pub fn walk_from<'a>(alloc: Global, all: Library<'a>, top: &Text) -> Result<Walked<'a>, Memory>
    ensures visited { IfOk result (λ walk. map placement walk.placements.items
        ≡ placements 0 0 (visited (library all.entry) top.now)) }
    ensures told { IfOk result (λ walk.
        option_map answer walk.fault ≡ refused (elaborated (library all.entry) top.now)) }
    ensures declared { IfOk result (λ walk. AreDeclared walk.placements.items) }
{
    match all.set.find(top) {
        Lookup::Missing => Ok(unmet(alloc, ElabFault::NoSuchModule(bytes(alloc, top)?))),
        Lookup::Twice => Ok(unmet(alloc, ElabFault::ModuleTwice(bytes(alloc, top)?))),
        Lookup::Found(place) => match module_at(all.files, place) {
            None => Ok(unmet(alloc, ElabFault::NoSuchModule(bytes(alloc, top)?))),
            Some(written) => walk(alloc, all, top_visit(alloc, place, written)?),
        },
    }
}

/// The walk that comes to no instance.
fn unmet<'a>(alloc: Global, fault: ElabFault) -> Walked<'a>
    ensures placements { result.placements.items ≡ [] }
    ensures fault { result.fault ≡ Some fault }
{
    Walked {
        placements: Vec::new(alloc),
        fault: Some(fault),
    }
}

/// A flat design, and what other tools read otherwise in its texts.
#[derive(Drop)]
pub struct NotedParts {
    pub flat: DesignParts,
    pub notes: Vec<Note>,
}

/// What these instances make, where those right under each are the ones that its items place. What they declare is taken
/// from them.
pub fn made_of(
    alloc: Global,
    all: Library<'_>,
    placements: &mut [Placement<'_>],
) -> Result<NotedParts, Memory>
    requires declared { AreDeclared placements.old }
    requires held { HaveChildren (library all) (map placement placements.old) }
    ensures { IfOk result (λ made. noted_parts made
        ≡ made_of (library all.entry) (map placement placements.old)) }
{
    let flat = flat_of(alloc, all, placements)?;
    let notes = notes_of(alloc, placements)?;
    Ok(NotedParts { flat, notes })
}

/// What elaboration makes of the module with a name, but for the proof that it is lawful.
pub(crate) fn flat_design(
    alloc: Global,
    all: Library<'_>,
    top: &Text,
) -> Result<NotedParts, ElabFault>
    ensures design { IfOk result (λ made. elaborated (library all.entry) top.now
        ≡ Ok (noted_parts made)) }
    ensures told { IfErr result (λ error.
        IsTold (answer error) (refused (elaborated (library all.entry) top.now))) }
{
    let Walked {
        mut placements,
        fault,
    } = walk_from(alloc, all, top)?;
    match fault {
        None => Ok(made_of(alloc, all, &mut placements)?),
        Some(fault) => Err(fault),
    }
}

fn bytes(alloc: Global, name: &Text) -> Result<Vec<u8>, Memory>
    ensures { IfOk result (λ made. made.items ≡ name.now) }
{
    Ok(Vec::from_slice(alloc, name.as_bytes())?)
}
