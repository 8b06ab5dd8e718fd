//! The front end: what texts make of a top.

ghost use Rattle.std.specs.Prelude.{◌≡◌, ◌<◌, List, IfErr, IfOk, IsSome, Ok};
ghost use Rattle.std.specs.List.{range_with_len};
ghost use Rattle.rtl_tree.specs.TreeModule.{Circuit};
ghost use Rattle.source_file.specs.SourceFiles.{AreShort, texts_in};
ghost use Rattle.desk_refusals.specs.elab_scope.Faults.{answer};
ghost use Rattle.rtl_elab.specs.elab_links.Modules.{circuits_of};
ghost use Rattle.rtl_elab.specs.elab_walk.Trails.{IsTold};
ghost use Rattle.rtl_elab.specs.Designs.{library_of};
ghost use Rattle.rtl_flat.specs.Flats.{flat_in};
ghost use Rattle.rtl_elab.specs.Elaborated.{elaborated, refused};
ghost use Rattle.rtl_front.specs.Fronts.{AreAsked, AreRead, IsFirstFaulty};
ghost use Rattle.check_conditions.specs.ToolNotes.{with_tools};
ghost use Rattle.desk_refusals.specs.Notices.{design_notice};
ghost use Rattle.desk_refusals.specs.Refusals.{design_line, source_line};
ghost use Rattle.desk_build.specs.Building.{Designed, IsBuilt, Modules, Refused, all_foreign, built, built_of};

use check_conditions::add_tool_notes;
use desk_places::sources::Sources;
use desk_refusals::elab_scope::fault::ElabFault;
use desk_refusals::{design_refusal, source_refusal};
use rtl_elab::elab_links::module_set::ModuleSet;
use rtl_elab::whole::elaborate;
use rtl_flat::design::Design;
use rtl_front::{Conditions, FileFault, FilesRead, SourceFault, read_files};
use rtl_tree::tree::modules::Module;
use source_file::SourceFile;
use std::alloc::Global;
use std::marker::Brand;
use std::sync::ledger::{Blank, Ledger};
use steps::Steps;
use text_ground::memory::Memory;
use text_ground::text::Text;

/// What texts make of a top.
#[derive(Drop)]
pub enum Built {
    /// Its design.
    Designed(Design),
    /// The line that says why it has none.
    Refused(Vec<u8>),
}

/// The design of a top among the modules of files, or the line that says why there is none.
pub fn build(alloc: Global, top: &str, files: &[SourceFile]) -> Result<Built, Memory>
    requires { AreShort files.now }
    ensures { IfOk result (λ made.
        IsBuilt top.now files.now (texts_in files.now) (built made)) }
{
    match modules_of(alloc, files) {
        Ok(read) => build_modules(alloc, top, files, &read),
        Err(SourceFault::Refused(file, fault)) => refuse_file(alloc, files, file, &fault),
        Err(SourceFault::Memory) => Err(Memory),
    }
}

fn build_modules(
    alloc: Global,
    top: &str,
    files: &[SourceFile],
    read: &FilesRead,
) -> Result<Built, Memory>
    requires { AreShort files.now }
    ensures { let circuits = circuits_of read.now.modules.items in
        IfOk result (λ made. built made ≡ built_of top.now files.now
        (Modules circuits read.now.conditions.items)) }
{
    let name = name_of(alloc, top)?;
    match design_of(alloc, &read.modules, &name) {
        Ok(design) => build_design(alloc, &read.conditions, design),
        Err(ElabFault::Memory) => Err(Memory),
        Err(fault) => refuse_design(alloc, files, &fault),
    }
}

/// A design with the notes on conditions that ask for names of tools or other files.
fn build_design(
    alloc: Global,
    conditions: &[Conditions],
    mut design: Design,
) -> Result<Built, Memory>
    ensures { IfOk result (λ made. built made
        ≡ Designed (with_tools (all_foreign conditions.now) (flat_in design))) }
{
    let numbers = all_numbers(alloc, conditions.len())?;
    add_tool_notes(alloc, conditions, &numbers, &mut design)?;
    Ok(Built::Designed(design))
}

/// The numbers of so many files.
fn all_numbers(alloc: Global, count: usize) -> Result<Vec<usize>, Memory>
    ensures { IfOk result (λ numbers. numbers.items ≡ range_with_len 0 count) }
{
    let mut numbers = Vec::new(alloc);
    for number in 0..count {
        numbers.push(number)?;
    }
    Ok(numbers)
}

/// The line that says why a file spells no modules. It has one place.
fn refuse_file(
    alloc: Global,
    files: &[SourceFile],
    file: usize,
    fault: &FileFault,
) -> Result<Built, Memory>
    requires { AreShort files.now }
    ensures { IfOk result (λ made. built made ≡ Refused (source_line files.now file fault.now)) }
{
    let sources = Sources::seldom(alloc, files)?;
    Ok(Built::Refused(source_refusal(alloc, &sources, file, fault)?))
}

/// The line that says why modules make no design. It has one place at most.
fn refuse_design(alloc: Global, files: &[SourceFile], fault: &ElabFault) -> Result<Built, Memory>
    requires { AreShort files.now }
    ensures told { IfOk result (λ _. IsSome (design_notice (answer fault.now))) }
    ensures line { IfOk result (λ made. built made
        ≡ Refused (design_line files.now (answer fault.now))) }
{
    let sources = Sources::seldom(alloc, files)?;
    Ok(Built::Refused(design_refusal(alloc, &sources, fault)?))
}

/// The modules that files spell and what their conditions ask, file by file; or the first file that spells none, and
/// why.
pub fn modules_of(alloc: Global, files: &[SourceFile]) -> Result<FilesRead, SourceFault>
    requires { AreShort files.now }
    ensures read { IfOk result (λ made.
        AreRead (texts_in files.now) (circuits_of made.modules.items)) }
    ensures only { IfOk result (λ made. (others : List (List Circuit))
        → AreRead (texts_in files.now) others → others ≡ circuits_of made.modules.items) }
    ensures asked { IfOk result (λ made.
        AreAsked (texts_in files.now) made.conditions.items) }
    ensures fault { IfErr result (λ fault. IsFirstFaulty (texts_in files.now) fault) }
{
    count_modules::<Brand>(alloc, files, Blank::new(1))
}

fn count_modules<L: Ledger>(
    alloc: Global,
    files: &[SourceFile],
    blank: Blank,
) -> Result<FilesRead, SourceFault>
    requires short { AreShort files.now }
    requires name { blank.name ≡ L.name }
    requires parts { blank.parts ≡ L.parts }
    requires some { 0 < L.parts }
    ensures read { IfOk result (λ made.
        AreRead (texts_in files.now) (circuits_of made.modules.items)) }
    ensures only { IfOk result (λ made. (others : List (List Circuit))
        → AreRead (texts_in files.now) others → others ≡ circuits_of made.modules.items) }
    ensures asked { IfOk result (λ made.
        AreAsked (texts_in files.now) made.conditions.items) }
    ensures fault { IfErr result (λ fault. IsFirstFaulty (texts_in files.now) fault) }
{
    let mut steps = Steps::<L>::new(blank);
    read_files(alloc, files, &mut steps)
}

/// The flat design of the module with a name, or why there is none.
pub fn design_of(alloc: Global, modules: &[Vec<Module>], top: &Text) -> Result<Design, ElabFault>
    ensures design { IfOk result (λ design.
        elaborated (library_of (circuits_of modules.now)) top.now ≡ Ok (flat_in design)) }
    ensures told { IfErr result (λ error.
        IsTold (answer error)
        (refused (elaborated (library_of (circuits_of modules.now)) top.now))) }
{
    count_design::<Brand>(alloc, modules, top, Blank::new(1))
}

fn count_design<L: Ledger>(
    alloc: Global,
    modules: &[Vec<Module>],
    top: &Text,
    blank: Blank,
) -> Result<Design, ElabFault>
    requires name { blank.name ≡ L.name }
    requires parts { blank.parts ≡ L.parts }
    requires some { 0 < L.parts }
    ensures design { IfOk result (λ design.
        elaborated (library_of (circuits_of modules.now)) top.now ≡ Ok (flat_in design)) }
    ensures told { IfErr result (λ error.
        IsTold (answer error)
        (refused (elaborated (library_of (circuits_of modules.now)) top.now))) }
{
    let mut steps = Steps::<L>::new(blank);
    let set = ModuleSet::new(alloc, modules)?;
    elaborate(alloc, modules, &set, top, &mut steps)
}

fn name_of(alloc: Global, top: &str) -> Result<Text, Memory>
    ensures { IfOk result (λ name. name ≡ top.now) }
{
    Ok(Text::from_bytes(alloc, top.as_bytes())?)
}
