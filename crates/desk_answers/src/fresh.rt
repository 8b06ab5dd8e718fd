// What files say of a top, worked out from their texts alone.
ghost use Rattle.std.specs.Prelude.{◌≡◌, ◌++◌, ◌∷◌, [], Ok, Result, IfOk, IsSome, OnOk};
ghost use Rattle.desk_refusals.specs.elab_scope.Faults.{Answer as Fault, answer};
ghost use Rattle.rtl_flat.specs.Flats.{DesignParts};
ghost use Rattle.elab_names.specs.Extracts.{IsElaborated};
ghost use Rattle.rtl_flat.specs.Flats.{flat_in};
ghost use Rattle.desk_places.specs.Places.{sources_of};
ghost use Rattle.desk_refusals.specs.Notices.{design_notice};
ghost use Rattle.desk_refusals.specs.Refusals.{design_line};
ghost use Rattle.source_file.specs.SourceFiles.{AreShort};
ghost use Rattle.desk_memo.specs.Texts.{IsRefusal};
ghost use Rattle.desk_answers.specs.Fresh.{IsOfDesign, names_of, sources_at};

use crate::judge::Judge;
use desk_memo::Answer;
use desk_places::sources::Sources;
use desk_refusals::design_refusal;
use desk_refusals::elab_scope::fault::ElabFault;
use rtl_flat::design::Design;
use source_file::SourceFile;
use std::alloc::Global;
use text_ground::memory::Memory;
use text_ground::text::Text;

// A file behind others, where there is one with the number, as places are written of it.
fn push_source<'f>(
    files: &'f [SourceFile],
    number: usize,
    sources: &mut Sources<'f>,
) -> Result<(), Memory>
    requires { AreShort files.now }
    ensures { OnOk result (sources_of sources.new
        ≡ sources_of sources.old ++ sources_at (number ∷ []) files.now) }
{
    match files.get(number) {
        Some(file) => sources.push_seldom(file),
        None => Ok(()),
    }
}

// The files with these numbers, as places are written of them.
fn sources_at<'f>(
    alloc: Global,
    files: &'f [SourceFile],
    numbers: &[usize],
) -> Result<Sources<'f>, Memory>
    requires { AreShort files.now }
    ensures { IfOk result (λ sources. sources_of sources
        ≡ sources_at numbers.now files.now) }
{
    let mut sources = Sources::empty(alloc);
    for number in numbers {
        push_source(files, *number, &mut sources)?;
    }
    Ok(sources)
}

// The name of a file behind others, where there is such a file.
fn push_name(
    alloc: Global,
    files: &[SourceFile],
    number: usize,
    names: &mut Vec<Text>,
) -> Result<(), Memory>
    ensures { OnOk result
        (names.new.items ≡ names.old.items ++ names_of (sources_at (number ∷ []) files.now)) }
{
    match files.get(number) {
        Some(file) => {
            names.push(Text::from_bytes(alloc, file.name.as_bytes())?)?;
            Ok(())
        }
        None => Ok(()),
    }
}

// The names of the files with these numbers.
fn names_at(alloc: Global, files: &[SourceFile], numbers: &[usize]) -> Result<Vec<Text>, Memory>
    ensures { IfOk result (λ names. names.items ≡ names_of (sources_at numbers.now files.now)) }
{
    let mut names = Vec::new(alloc);
    for number in numbers {
        push_name(alloc, files, *number, &mut names)?;
    }
    Ok(names)
}

// Files make no design. Want of memory is no reason.
fn undesigned<V: Drop>(
    alloc: Global,
    files: &[SourceFile],
    numbers: &[usize],
    fault: &ElabFault,
) -> Result<Box<Answer<V>>, Memory>
    requires { AreShort files.now }
    ensures told { IfOk result (λ _. IsSome (design_notice (answer fault.now))) }
    ensures line { IfOk result (λ made. IsRefusal
        (design_line (sources_at numbers.now files.now) (answer fault.now))
        made.value) }
{
    let sources = sources_at(alloc, files, numbers)?;
    let line = design_refusal(alloc, &sources, fault)?;
    Answer::Refused(line).boxed(alloc)
}

// What is said of the design of files.
fn ruled<J: Judge>(
    alloc: Global,
    files: &[SourceFile],
    numbers: &[usize],
    design: &Design,
) -> Result<Box<Answer<J::Said>>, Memory>
    ensures { IfOk result (λ made. IsOfDesign J.says (sources_at numbers.now files.now)
        (Ok (flat_in design.now)) made.value) }
{
    let reached = names_at(alloc, files, numbers)?;
    match J::judge(alloc, design) {
        Ok(said) => Answer::Ruled(said, reached).boxed(alloc),
        Err(error) => Err(error),
    }
}

// What is said of the design of the files with these numbers, or of why there is none.
pub(crate) fn of_design<J: Judge>(
    alloc: Global,
    files: &[SourceFile],
    numbers: &[usize],
    design: &Result<Design, ElabFault>,
) -> Result<Box<Answer<J::Said>>, Memory>
    requires { AreShort files.now }
    ensures { IfOk result (λ made. (elaborated : Result DesignParts Fault)
        → IsElaborated elaborated design.now
        → IsOfDesign J.says (sources_at numbers.now files.now) elaborated made.value) }
{
    match design {
        Ok(design) => ruled::<J>(alloc, files, numbers, design),
        Err(ElabFault::Memory) => Err(Memory),
        Err(fault) => undesigned(alloc, files, numbers, fault),
    }
}
