//! The design of a top module, and that it is lawful.

ghost use Rattle.std.specs.Prelude.{◌≡◌, ◌+◌, IfErr, IfOk, Ok};
ghost use Rattle.elab_lawful.specs.elab_scope.Faults.{answer};
ghost use Rattle.elab_lawful.specs.elab_links.Modules.{all_placed, circuits_of, found, lookups_of};
ghost use Rattle.elab_lawful.specs.elab_walk.Trails.{IsTold};
ghost use Rattle.elab_lawful.specs.elab_walk.Visits.{library};
ghost use Rattle.elab_lawful.specs.Laws.{IsLawful};
ghost use Rattle.rtl_elab.specs.Designs.{library_of, noted_parts};
ghost use Rattle.rtl_flat.specs.Flats.{flat_in};
ghost use Rattle.rtl_elab.specs.Elaborated.{elaborated, refused};

use crate::elaborate::{NotedParts, flat_design};
use elab_lawful::elab_flat::flat::DesignParts;
use elab_lawful::elab_flat::works::Works;
use elab_lawful::elab_links::module_set::ModuleSet;
use elab_lawful::elab_scope::fault::ElabFault;
use elab_lawful::elab_walk::library::Library;
use rtl_flat::design::Design;
use rtl_tree::tree::modules::Module;
use std::alloc::Global;
use std::sync::ledger::Ledger;
use steps::Steps;
use text_ground::text::Text;

/// The design that is made of these parts.
pub fn design_of(made: NotedParts) -> Design
    requires { IsLawful (noted_parts made) }
    ensures { flat_in result ≡ noted_parts made }
{
    let NotedParts { flat, notes } = made;
    let DesignParts {
        signals,
        works,
        instances,
        dropped,
    } = flat;
    let Works { processes, delays } = works;
    Design {
        signals,
        processes,
        instances,
        dropped,
        delays,
        notes,
    }
}

/// The design of the module with a name, of modules and any set of them.
fn design_in(alloc: Global, all: Library<'_>, top: &Text) -> Result<Design, ElabFault>
    ensures design { IfOk result (λ design. elaborated (library all.entry) top.now
        ≡ Ok (flat_in design)) }
    ensures told { IfErr result (λ error.
        IsTold (answer error) (refused (elaborated (library all.entry) top.now))) }
{
    match flat_design(alloc, all, top) {
        Ok(made) => Ok(design_of(made)),
        Err(error) => Err(error),
    }
}

/// The flat design of the module with a name among those of all files, of which `set` is made. Each call is one step.
///
/// # Errors
///
/// `NoSuchModule` or `ModuleTwice` of the top's name; else of the first instance, each before those that it holds, that has
/// a fault or passes a limit, its least fault by place and then by the order of the rules; `Memory` where memory runs out.
pub fn elaborate<L: Ledger>(
    alloc: Global,
    files: &[Vec<Module>],
    set: &ModuleSet,
    top: &Text,
    steps: &mut Steps<L>,
) -> Result<Design, ElabFault>
    requires { lookups_of set.now ≡ found (all_placed (circuits_of files.now)) }
    ensures counted { steps.new ≡ steps.old + 1 }
    ensures design { IfOk result (λ design. elaborated (library_of (circuits_of files.now)) top.now
        ≡ Ok (flat_in design)) }
    ensures told { IfErr result (λ error.
        IsTold (answer error) (refused (elaborated (library_of (circuits_of files.now)) top.now))) }
{
    steps.tick();
    design_in(alloc, Library { files, set }, top)
}
