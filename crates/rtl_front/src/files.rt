//! The modules of files, in order, and what their conditions ask.

ghost use Rattle.std.specs.Prelude.{◌≡◌, ◌≤◌, ◌+◌, ◌++◌, ◌∷◌, [], List, IfErr, IfOk, OnOk, length, map};
ghost use Rattle.rtl_tree.specs.TreeModule.{Circuit, circuit};
ghost use Rattle.rtl_tree.specs.Prepared.{Ready};
ghost use Rattle.source_file.specs.SourceFiles.{AreShort, texts_in};
ghost use Rattle.rtl_front.specs.Fronts.{AreAsked, AreRead, IsAsked, IsFaulty, IsFirstFaulty, IsPrepared, IsRead, circuits_of, is_memory, told};

use crate::fault::{FileFault, SourceFault};
use rtl_parse::law::one_list;
use rtl_parse::{ParseFault, parse};
use rtl_prep::{Conditions, PrepFault, Preparation, prepare};
use rtl_text::{LexFault, lex};
use rtl_tree::tree::modules::Module;
use source_file::SourceFile;
use std::alloc::Global;
use std::sync::ledger::Ledger;
use steps::Steps;
use text_ground::memory::Memory;

/// The modules of a file, and what its conditions ask.
#[derive(Drop)]
struct FileRead {
    modules: Vec<Module>,
    conditions: Conditions,
}

/// The modules of files, and what the conditions of each ask of others.
#[derive(Drop)]
pub struct FilesRead {
    pub modules: Vec<Vec<Module>>,
    pub conditions: Vec<Conditions>,
}

impl FilesRead {
    fn push(&mut self, file: FileRead) -> Result<(), Memory>
        ensures modules { OnOk result (self.new.modules.items
            ≡ self.old.modules.items ++ file.modules ∷ []) }
        ensures conditions { OnOk result (self.new.conditions.items
            ≡ self.old.conditions.items ++ file.conditions ∷ []) }
    {
        self.modules.push(file.modules)?;
        self.conditions.push(file.conditions)?;
        Ok(())
    }
}

/// A text whose directives are read, without what synthesis doesn't see, and what its conditions ask.
fn prepared(alloc: Global, text: &[u8]) -> Result<Preparation, FileFault>
    requires { length text.now ≤ 1048576 }
    ensures prepared { IfOk result (λ made. IsPrepared text.now made.prepared) }
    ensures only { IfOk result (λ made. (other : Ready) → IsPrepared text.now other
        → other ≡ made.prepared) }
    ensures asked { IfOk result (λ made. IsAsked text.now made.conditions) }
    ensures fault { IfErr result (λ fault. IsFaulty text.now fault) }
{
    match lex(alloc, text) {
        Err(fault) => Err(FileFault::Lex(fault)),
        Ok(tokens) => match prepare(alloc, tokens, text) {
            Err(fault) => Err(FileFault::Prepare(fault)),
            Ok(made) => Ok(made),
        },
    }
}

/// The modules of a file's text, and what its conditions ask. Each call is at most one step.
fn read_file<L: Ledger>(
    alloc: Global,
    text: &[u8],
    steps: &mut Steps<L>,
) -> Result<FileRead, FileFault>
    requires { length text.now ≤ 1048576 }
    ensures counted { steps.new ≤ steps.old + 1 }
    ensures read { IfOk result (λ file. IsRead text.now (map circuit file.modules.items)) }
    ensures only { IfOk result (λ file. (circuits : List Circuit) → IsRead text.now circuits
        → circuits ≡ map circuit file.modules.items) }
    ensures asked { IfOk result (λ file. IsAsked text.now file.conditions) }
    ensures fault { IfErr result (λ fault. IsFaulty text.now fault) }
{
    let made = prepared(alloc, text)?;
    // The law says that no other modules are read.
    one_list();
    match parse(alloc, &made.prepared, steps) {
        Ok(modules) => Ok(FileRead {
            modules,
            conditions: made.conditions,
        }),
        Err(fault) => Err(FileFault::Parse(fault)),
    }
}

/// Whether memory ran out.
fn is_memory(fault: &FileFault) -> bool
    ensures { result ≡ is_memory fault.now }
{
    matches!(
        fault,
        FileFault::Lex(LexFault::Memory)
            | FileFault::Prepare(PrepFault::Memory)
            | FileFault::Parse(ParseFault::Memory)
    )
}

/// How the fault of a file is told. Want of memory is told without the file, since its text isn't at fault.
fn told(file: usize, fault: FileFault) -> SourceFault
    ensures { result ≡ told file fault }
{
    if is_memory(&fault) {
        return SourceFault::Memory;
    }
    SourceFault::Refused(file, fault)
}

/// The modules of files, each of at most 1,048,576 bytes, in order: the one list that their texts have. Beside it what the
/// conditions of each ask of others. Each file takes at most one step.
///
/// # Errors
///
/// `Refused` with the first file that has no modules, by its position from 0, and why: its first fault as a list of
/// tokens, else in its directives, else in its grammar. `Memory` where memory runs out.
pub fn read_files<L: Ledger>(
    alloc: Global,
    sources: &[SourceFile],
    steps: &mut Steps<L>,
) -> Result<FilesRead, SourceFault>
    requires { AreShort sources.now }
    ensures counted { steps.new ≤ steps.old + length sources.now }
    ensures read { IfOk result (λ made. AreRead (texts_in sources.now)
        (circuits_of made.modules.items)) }
    ensures only { IfOk result (λ made. (circuits : List (List Circuit))
        → AreRead (texts_in sources.now) circuits → circuits ≡ circuits_of made.modules.items) }
    ensures asked { IfOk result (λ made. AreAsked (texts_in sources.now) made.conditions.items) }
    ensures fault { IfErr result (λ fault. IsFirstFaulty (texts_in sources.now) fault) }
{
    let mut files = FilesRead {
        modules: Vec::new(alloc),
        conditions: Vec::new(alloc),
    };
    for (number, source) in sources.iter().enumerate() {
        match read_file(alloc, source.text.as_bytes(), steps) {
            Ok(file) => files.push(file)?,
            Err(fault) => return Err(told(number, fault)),
        }
    }
    Ok(files)
}
