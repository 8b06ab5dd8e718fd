// A file as it was read last.
ghost use Rattle.std.specs.Prelude.{◌≡◌, ◌≤◌, ◌+◌, false, IfOk, Some, [], ◌∷◌, length, option_copied, option_map};
ghost use Rattle.desk_files.specs.Limits.{MAX_BYTES};
ghost use Rattle.rtl_front.specs.Fronts.{AreAsked, AreSpelled, IsFaulty, is_memory};
ghost use Rattle.elab_lookups.specs.elab_links.Modules.{circuits_of};
ghost use Rattle.desk_memo.specs.Texts.{IsRefusal, refusal_line};
ghost use Rattle.desk_memo.specs.Readings.{IsKnown, refusal_of};
ghost use Rattle.desk_memo.specs.ShownReadings.{IsNew, is_current, marked, reading_of};

use crate::answer::Answer;
use desk_places::sources::Sources;
use desk_refusals::source_refusal;
use rtl_front::{Conditions, FileFault, FilesRead, SourceFault, read_files};
use rtl_tree::tree::modules::Module;
use source_file::SourceFile;
use std::alloc::Global;
use std::rc::Rc;
use std::slice::from_ref;
use std::sync::ledger::Ledger;
use steps::Steps;
use text_ground::memory::Memory;
use text_ground::text::Text;

/// A file as it was read last.
#[derive(Drop)]
pub(crate) struct Reading<V> {
    pub(crate) file: Rc<SourceFile>,
    /// Why it spells no modules, where it spells none.
    pub(crate) refusal: Option<Box<Answer<V>>>,
    /// Whether the file still has this text, so that asking compares no texts.
    pub(crate) is_current: bool,
}

/// A file as it was just read, with the modules that it spells, and what its conditions ask.
#[derive(Drop)]
pub(crate) struct Fresh<V> {
    pub(crate) reading: Reading<V>,
    pub(crate) modules: Vec<Module>,
    pub(crate) conditions: Conditions,
}

pub(crate) fn is_current<V: Drop>(reading: &Option<Reading<V>>) -> bool
    ensures { result ≡ is_current reading.now }
{
    match reading {
        Some(reading) => reading.is_current,
        None => false,
    }
}

pub(crate) fn refusal_of<V: Drop>(reading: &Option<Reading<V>>) -> Option<&Answer<V>>
    ensures { option_copied result ≡ refusal_of (option_map reading_of reading.now) }
{
    match reading {
        Some(reading) => match &reading.refusal {
            Some(answer) => Some(answer),
            None => None,
        },
        None => None,
    }
}

// Sets the flag of a reading by the file as it is now.
pub(crate) fn mark<V: Drop>(reading: &mut Option<Reading<V>>, file: &SourceFile)
    ensures { reading.new ≡ marked file.now reading.old }
{
    if let Some(reading) = reading {
        reading.is_current = reading.file.text.as_bytes() == file.text.as_bytes();
    }
}

fn copied(alloc: Global, file: &SourceFile) -> Result<Rc<SourceFile>, Memory>
    ensures { IfOk result (λ made. made.value ≡ file.now) }
{
    let name = Text::from_bytes(alloc, file.name.as_bytes())?;
    let text = Text::from_bytes(alloc, file.text.as_bytes())?;
    match Rc::new(alloc, SourceFile { name, text }) {
        Ok(made) => Ok(made),
        Err(_) => Err(Memory),
    }
}

fn spelled<V: Drop>(
    alloc: Global,
    file: &SourceFile,
    mut files: FilesRead,
) -> Result<Fresh<V>, Memory>
    requires spelled { AreSpelled (file.now.text ∷ []) (circuits_of files.modules.items) }
    requires asked { AreAsked (file.now.text ∷ []) files.conditions.items }
    ensures new { IfOk result (λ fresh. IsNew file.now fresh.reading fresh.modules) }
    ensures known { IfOk result (λ fresh.
        IsKnown (Some (reading_of fresh.reading)) fresh.conditions) }
{
    let reading = Reading {
        file: copied(alloc, file)?,
        refusal: None,
        is_current: true,
    };
    Ok(Fresh {
        reading,
        modules: files.modules.remove(0),
        conditions: files.conditions.remove(0),
    })
}

/// The line that says why a file spells no modules.
fn unread<V: Drop>(
    alloc: Global,
    file: &SourceFile,
    fault: &FileFault,
) -> Result<Box<Answer<V>>, Memory>
    requires { length file.now.text ≤ MAX_BYTES }
    ensures { IfOk result (λ made. IsRefusal (refusal_line file.now fault.now) made.value) }
{
    let sources = Sources::seldom(alloc, from_ref(file))?;
    let line = source_refusal(alloc, &sources, 0, fault)?;
    Answer::Refused(line).boxed(alloc)
}

fn refused<V: Drop>(alloc: Global, file: &SourceFile, fault: &FileFault) -> Result<Fresh<V>, Memory>
    requires short { length file.now.text ≤ MAX_BYTES }
    requires no_memory { is_memory fault.now ≡ false }
    requires faulty { IsFaulty file.now.text fault.now }
    ensures new { IfOk result (λ fresh. IsNew file.now fresh.reading fresh.modules) }
    ensures known { IfOk result (λ fresh.
        IsKnown (Some (reading_of fresh.reading)) fresh.conditions) }
{
    let reading = Reading {
        file: copied(alloc, file)?,
        refusal: Some(unread(alloc, file, fault)?),
        is_current: true,
    };
    Ok(Fresh {
        reading,
        modules: Vec::new(alloc),
        conditions: Conditions::new(alloc),
    })
}

/// Reads a file: one step at most.
pub(crate) fn read<V: Drop, L: Ledger>(
    alloc: Global,
    file: &SourceFile,
    steps: &mut Steps<L>,
) -> Result<Fresh<V>, Memory>
    requires { length file.now.text ≤ MAX_BYTES }
    ensures counted { steps.new ≤ steps.old + 1 }
    ensures new { IfOk result (λ fresh. IsNew file.now fresh.reading fresh.modules) }
    ensures known { IfOk result (λ fresh.
        IsKnown (Some (reading_of fresh.reading)) fresh.conditions) }
{
    match read_files(alloc, from_ref(file), steps) {
        Ok(files) => spelled(alloc, file, files),
        Err(SourceFault::Memory) => Err(Memory),
        Err(SourceFault::Refused(_, fault)) => refused(alloc, file, &fault),
    }
}
