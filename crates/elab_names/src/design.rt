// Elaboration in the files that a top uses.

ghost use Rattle.std.specs.Prelude.{◌≡◌, ◌+◌, IfOk};
ghost use Rattle.rtl_elab.specs.elab_links.Modules.{all_placed, circuits_of, found, lookups_of};
ghost use Rattle.rtl_elab.specs.elab_walk.Visits.{library};
ghost use Rattle.rtl_elab.specs.Designs.{library_of};
ghost use Rattle.rtl_elab.specs.Elaborated.{elaborated};
ghost use Rattle.elab_names.specs.Extracts.{IsElaborated, extract};
ghost use Rattle.elab_names.specs.LookUps.{AreLookUps, AreUsed};

use crate::moves::{move_look_ups, move_placements, moved_fault};
use crate::names::look_ups;
use crate::used::used_files;
use elab_lookups::LookUp;
use rtl_elab::elab_links::module_set::ModuleSet;
use rtl_elab::elab_scope::fault::ElabFault;
use rtl_elab::elab_walk::library::Library;
use rtl_elab::elab_walk::top::Walked;
use rtl_elab::elaborate::{made_of, walk_from};
use rtl_elab::whole::design_of;
use rtl_flat::design::Design;
use rtl_tree::tree::modules::Module;
use std::alloc::Global;
use std::sync::ledger::Ledger;
use steps::Steps;
use text_ground::memory::Memory;
use text_ground::text::Text;

/// What elaboration makes of a top in the files that it uses, which are numbered among themselves.
#[derive(Drop)]
pub struct Elaborated {
    /// The design, or why there is none.
    pub design: Result<Design, ElabFault>,
    /// The names that the top looked up, with what they mean among the used files.
    pub look_ups: Vec<LookUp>,
    /// The numbers of the used files among all files, ascending.
    pub files: Vec<usize>,
}

/// What elaboration makes of the module with a name among those of all files, of which `set` is made, in the files that it
/// uses. Each call is one step.
///
/// Fails only where memory runs out.
pub fn elaborate<L: Ledger>(
    alloc: Global,
    files: &[Vec<Module>],
    set: &ModuleSet,
    top: &Text,
    steps: &mut Steps<L>,
) -> Result<Elaborated, Memory>
    requires { lookups_of set.now ≡ found (all_placed (circuits_of files.now)) }
    ensures counted { steps.new ≡ steps.old + 1 }
    ensures used { IfOk result (λ made.
        AreUsed (library_of (circuits_of files.now)) top.now made.files.items) }
    ensures look_ups { IfOk result (λ made.
        AreLookUps (extract made.files.items (library_of (circuits_of files.now))) top.now
        made.look_ups.items) }
    ensures design { IfOk result (λ made. IsElaborated
        (elaborated (extract made.files.items (library_of (circuits_of files.now))) top.now)
        made.design) }
{
    steps.tick();
    elaborate_in(alloc, Library { files, set }, top)
}

/// The same of modules and any set of them.
fn elaborate_in(alloc: Global, all: Library<'_>, top: &Text) -> Result<Elaborated, Memory>
    ensures used { IfOk result (λ made. AreUsed (library all.entry) top.now made.files.items) }
    ensures look_ups { IfOk result (λ made.
        AreLookUps (extract made.files.items (library all.entry)) top.now made.look_ups.items) }
    ensures design { IfOk result (λ made. IsElaborated
        (elaborated (extract made.files.items (library all.entry)) top.now) made.design) }
{
    let Walked {
        mut placements,
        fault,
    } = walk_from(alloc, all, top)?;
    let mut look_ups = look_ups(alloc, all.set, top, &placements)?;
    let files = used_files(alloc, &look_ups)?;
    move_look_ups(&mut look_ups, &files);
    let design = match fault {
        Some(fault) => Err(moved_fault(fault, &files)?),
        None => {
            move_placements(&mut placements, &files)?;
            Ok(design_of(made_of(alloc, all, &mut placements)?))
        }
    };
    Ok(Elaborated {
        design,
        look_ups,
        files,
    })
}
