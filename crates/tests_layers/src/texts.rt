//! Tokens and modules of a text, or its fault.

ghost use Rattle.std.specs.Prelude.{◌≡◌, ◌≤◌, ◌<◌, IfOk, length};
ghost use Rattle.text_ground.specs.declared.text.TheConstants.{MAX_BYTES};
ghost use Rattle.source_file.specs.SourceFiles.{AreShort};

use crate::stop::Stop;
use crate::words;
use rtl_front::{FileFault, FilesRead, SourceFault, read_files};
use rtl_parse::ParseFault;
use rtl_prep::{PrepFault, prepare};
use rtl_text::{law, lex};
use rtl_tree::prepared::Prepared;
use rtl_tree::tree::modules::Module;
use source_file::SourceFile;
use std::alloc::Global;
use std::marker::Brand;
use std::sync::ledger::{Blank, Ledger};
use steps::Steps;
use text_ground::dropped::DropKind;
use text_ground::memory::Memory;
use text_ground::text::MAX_BYTES;

fn counted<L: Ledger>(
    alloc: Global,
    files: &[SourceFile],
    blank: Blank,
) -> Result<FilesRead, SourceFault>
    requires name { blank.name ≡ L.name }
    requires parts { blank.parts ≡ L.parts }
    requires some { 0 < L.parts }
    requires short { AreShort files.now }
{
    let mut steps = Steps::<L>::new(blank);
    read_files(alloc, files, &mut steps)
}

fn read(alloc: Global, files: &[SourceFile]) -> Result<FilesRead, SourceFault>
    requires { AreShort files.now }
{
    counted::<Brand>(alloc, files, Blank::new(1))
}

fn two_files(alloc: Global, first: &[u8], second: &[u8]) -> Result<Vec<SourceFile>, Memory>
    requires first { length first.now ≤ MAX_BYTES }
    requires second { length second.now ≤ MAX_BYTES }
    ensures { IfOk result (λ files. AreShort files.items) }
{
    let mut files = Vec::new(alloc);
    files.push(SourceFile::new(alloc, b"", Vec::from_slice(alloc, first)?)?)?;
    files.push(SourceFile::new(alloc, b"", Vec::from_slice(alloc, second)?)?)?;
    Ok(files)
}

fn named(alloc: Global, fault: &str, name: &[u8], at: u32) -> Result<Vec<u8>, Stop> {
    let mut all = format!(in alloc; "{fault} ")?.into_bytes();
    all.extend_from_slice(name)?;
    all.extend_from_slice(format!(in alloc; " {at}")?.as_bytes())?;
    Ok(all)
}

/// A fault, with its name where it has one, and its place.
pub fn faulty(alloc: Global, fault: &FileFault) -> Result<Vec<u8>, Stop> {
    match fault {
        FileFault::Prepare(PrepFault::Directive(name, at)) => named(alloc, "Directive", name, *at),
        FileFault::Prepare(PrepFault::MacroLoop(name, at)) => named(alloc, "MacroLoop", name, *at),
        FileFault::Parse(ParseFault::Refused(word, at)) => named(alloc, "Refused", word, *at),
        FileFault::Parse(ParseFault::Syntax(token, at)) => named(alloc, "Syntax", token, *at),
        FileFault::Lex(fault) => Ok(format!(in alloc; "{fault:?}")?.into_bytes()),
        FileFault::Prepare(fault) => Ok(format!(in alloc; "{fault:?}")?.into_bytes()),
        FileFault::Parse(fault) => Ok(format!(in alloc; "{fault:?}")?.into_bytes()),
    }
}

/// The names of the modules of each file, behind a slash.
fn names(alloc: Global, files: &[Vec<Module>]) -> Result<Vec<u8>, Stop> {
    let mut all = Vec::new(alloc);
    for modules in files {
        all.push(b'/')?;
        for module in modules {
            all.push(b' ')?;
            all.extend_from_slice(module.name.text.as_bytes())?;
        }
    }
    Ok(all)
}

/// The modules of an empty file and of a text, or its fault.
pub fn modules(alloc: Global, text: &[u8]) -> Result<Vec<u8>, Stop>
    requires { length text.now ≤ MAX_BYTES }
{
    let files = two_files(alloc, b"", text)?;
    match read(alloc, &files) {
        Ok(files) => names(alloc, files.modules.as_slice()),
        Err(SourceFault::Refused(1, fault)) => faulty(alloc, &fault),
        Err(_) => Err(Stop::OtherFile),
    }
}

/// The tokens of a text behind its directives.
pub fn prepared(alloc: Global, text: &[u8]) -> Result<Prepared, FileFault>
    requires { length text.now ≤ MAX_BYTES }
{
    match lex(alloc, text) {
        Err(fault) => Err(FileFault::Lex(fault)),
        Ok(tokens) => match prepare(alloc, tokens, text) {
            Err(fault) => Err(FileFault::Prepare(fault)),
            Ok(made) => Ok(made.prepared),
        },
    }
}

/// The tokens that are kept, and a letter and the place of each region that is dropped.
fn kept(alloc: Global, ready: &Prepared) -> Result<Vec<u8>, Stop> {
    let mut all = Vec::new(alloc);
    for t in ready.tokens() {
        let slice = ready.text().get(t.from as usize..t.to as usize);
        words::put(slice.unwrap_or(b"?".as_slice()), &mut all)?;
    }
    for region in ready.dropped() {
        let letter = match region.kind {
            DropKind::Initial => 'I',
            DropKind::TranslateOff => 'T',
            DropKind::Comment => 'C',
        };
        let told = format!(in alloc; "{letter}{}", region.at)?;
        words::say(&mut all, &told)?;
    }
    Ok(all)
}

/// The tokens and the dropped regions of a text, or its fault.
pub fn tokens(alloc: Global, text: &[u8]) -> Result<Vec<u8>, Stop>
    requires { length text.now ≤ MAX_BYTES }
{
    law::one_split();
    law::one_answer();
    match prepared(alloc, text) {
        Ok(ready) => kept(alloc, &ready),
        Err(fault) => faulty(alloc, &fault),
    }
}

/// How many tokens are kept of a text, or its fault.
pub fn count(alloc: Global, text: &[u8]) -> Result<Vec<u8>, Stop>
    requires { length text.now ≤ MAX_BYTES }
{
    match prepared(alloc, text) {
        Ok(ready) => Ok(format!(in alloc; "{} tokens", ready.tokens().len())?.into_bytes()),
        Err(fault) => faulty(alloc, &fault),
    }
}

/// The tokens of a use of the last of some macros, each of which is a use of the one before.
pub fn ladder(alloc: Global, steps: &str) -> Result<Vec<u8>, Stop> {
    let Ok(steps) = steps.parse::<u32>() else {
        return Err(Stop::NoLook);
    };
    let mut text = Vec::from_slice(alloc, b"`define M0 x\n")?;
    for k in 0..steps {
        let line = format!(in alloc; "`define M{} `M{k}\n", k + 1)?;
        text.extend_from_slice(line.as_bytes())?;
    }
    text.extend_from_slice(format!(in alloc; "`M{steps}")?.as_bytes())?;
    if text.len() > MAX_BYTES {
        return Err(Stop::TooLong);
    }
    tokens(alloc, &text)
}
