//! The names that a top looks up, the files that it uses, and what elaboration makes of these.

ghost use Rattle.std.specs.Prelude.{◌≡◌, ◌≤◌, ◌<◌, IfOk, OnOk, length};
ghost use Rattle.source_file.specs.SourceFiles.{AreShort};

use crate::stop::Stop;
use crate::words::{put, say};
use elab_names::elab_links::module_set::{Lookup, ModuleSet};
use elab_names::elab_scope::fault::ElabFault;
use elab_names::{Elaborated, LookUp, elaborate, resolve};
use rtl_tree::tree::modules::Module;
use source_file::SourceFile;
use std::alloc::Global;
use std::marker::Brand;
use std::sync::ledger::{Blank, Ledger};
use steps::Steps;
use tests_designs::desk_build::modules_of;
use tests_reader::File;
use text_ground::memory::Memory;
use text_ground::text::{MAX_BYTES, Text};

/// One file more.
fn add(alloc: Global, sources: &mut Vec<SourceFile>, text: &[u8]) -> Result<(), Stop>
    requires { AreShort sources.old.items }
    ensures { OnOk result (AreShort sources.new.items) }
{
    if text.len() > MAX_BYTES {
        return Err(Stop::TooLong);
    }
    let text = Vec::from_slice(alloc, text)?;
    sources.push(SourceFile::new(alloc, b"", text)?)?;
    Ok(())
}

/// The files, as they are read.
fn sources_of(alloc: Global, files: &[File]) -> Result<Vec<SourceFile>, Stop>
    ensures { IfOk result (λ sources. AreShort sources.items) }
{
    let mut sources = Vec::new(alloc);
    for file in files {
        add(alloc, &mut sources, &file.text)?;
    }
    Ok(sources)
}

fn elaborated<L: Ledger>(
    alloc: Global,
    modules: &[Vec<Module>],
    top: &Text,
    blank: Blank,
) -> Result<Elaborated, Memory>
    requires name { blank.name ≡ L.name }
    requires parts { blank.parts ≡ L.parts }
    requires some { 0 < L.parts }
{
    let mut steps = Steps::<L>::new(blank);
    let set = ModuleSet::new(alloc, modules)?;
    elaborate(alloc, modules, &set, top, &mut steps)
}

/// Whether a name means among all files what it means among those with these numbers.
fn is_same(now: Lookup, meant: Lookup, numbers: &[usize]) -> bool {
    match (now, meant) {
        (Lookup::Missing, Lookup::Missing) | (Lookup::Twice, Lookup::Twice) => true,
        (Lookup::Found(now), Lookup::Found(meant)) => {
            numbers.get(meant.file) == Some(&now.file) && now.index == meant.index
        }
        _ => false,
    }
}

/// A name, and what it means.
fn put_look_up(alloc: Global, out: &mut Vec<u8>, one: &LookUp) -> Result<(), Stop> {
    put(one.name.as_bytes(), out)?;
    let meant = match one.meant {
        Lookup::Missing => format!(in alloc; "?")?,
        Lookup::Found(place) => format!(in alloc; ":{}.{}", place.file, place.index)?,
        Lookup::Twice => format!(in alloc; "!")?,
    };
    out.extend_from_slice(meant.as_bytes())?;
    Ok(())
}

/// Why there is no design, with the number of the file among those that are used.
fn put_fault(alloc: Global, out: &mut Vec<u8>, fault: &ElabFault) -> Result<(), Stop> {
    say(out, &format!(in alloc; "{fault}")?)?;
    if let ElabFault::Undeclared(_, spot) = fault {
        say(out, &format!(in alloc; "in {}", spot.file)?)?;
    }
    Ok(())
}

/// The files that are used, the names that are looked up, and what is made of them.
fn shown(alloc: Global, modules: &[Vec<Module>], made: &Elaborated) -> Result<Vec<u8>, Stop> {
    let mut out = Vec::new(alloc);
    for number in &made.files {
        say(&mut out, &format!(in alloc; "{number}")?)?;
    }
    say(&mut out, "|")?;
    for one in &made.look_ups {
        put_look_up(alloc, &mut out, one)?;
        if !is_same(resolve(modules, &one.name), one.meant, &made.files) {
            return Err(Stop::OtherMeaning);
        }
    }
    say(&mut out, "|")?;
    match &made.design {
        Ok(_) => say(&mut out, "design")?,
        Err(fault) => put_fault(alloc, &mut out, fault)?,
    }
    Ok(out)
}

/// What is told of the module `top` of some files.
pub fn told(alloc: Global, files: &[File]) -> Result<Vec<u8>, Stop> {
    let sources = sources_of(alloc, files)?;
    let Ok(read) = modules_of(alloc, &sources) else {
        return Err(Stop::Unread);
    };
    let top = Text::from_bytes(alloc, b"top")?;
    let made = elaborated::<Brand>(alloc, &read.modules, &top, Blank::new(1))?;
    shown(alloc, &read.modules, &made)
}
