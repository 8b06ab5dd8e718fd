// Notes on the conditions that instances hang on.

ghost use Rattle.std.specs.Prelude.{◌≡◌, ◌≤◌, ◌++◌, IfOk, OnErr, OnOk, length, map};
ghost use Rattle.std.specs.List.{slice_get};
ghost use Rattle.rtl_flat.specs.Flats.{flat_in};
ghost use Rattle.check_conditions.specs.Foreign.{file_at, foreign_in};
ghost use Rattle.check_conditions.specs.Kept.{shown};
ghost use Rattle.check_conditions.specs.ToolNotes.{asked_notes, hangs_in, hangs_on, tool_notes, with_tools};

use crate::foreign::{AskingFile, are_quiet, asking_files};
use rtl_flat::design::Design;
use rtl_flat::instance::Instance;
use rtl_flat::note::{Note, Reading};
use rtl_prep::{Ask, Conditions, Extent, Span};
use std::alloc::Global;
use text_ground::memory::Memory;
use text_ground::text::Spot;

/// Whether a module hangs on a chain: they overlap, or the chain ends before it and may leave it other macros.
fn hangs_on(text: Extent, chain: Span) -> bool
    ensures { result ≡ hangs_on (Some text) (Some chain) }
{
    (chain.from <= text.to && text.from <= chain.to) || (chain.to < text.from && chain.defines)
}

fn hangs_in(file: &AskingFile<'_>, number: usize, ask: &Ask) -> bool
    ensures { result ≡ hangs_in (shown file.now) number ask.now }
{
    let Some(text) = file.modules.get(number) else {
        return false;
    };
    match file.chains.get(ask.chain) {
        Some(chain) => hangs_on(*text, *chain),
        None => false,
    }
}

/// The number of a file. More files than it can count fit into no memory.
fn file_number(file: usize) -> Result<u32, Memory>
    ensures { IfOk result (λ number. number ≡ file) }
{
    match u32::try_from(file) {
        Ok(number) => Ok(number),
        Err(_) => Err(Memory),
    }
}

/// Adds the notes of an instance, where `file` has its module.
fn push_asked(
    file: &AskingFile<'_>,
    number: u32,
    instance: &Instance,
    notes: &mut Vec<Note>,
) -> Result<(), Memory>
    ensures { OnOk result (notes.new.items
        ≡ notes.old.items ++ asked_notes (shown file.now) number instance.now) }
{
    let place = file_number(instance.file)?;
    for ask in &file.asks {
        if hangs_in(file, instance.module, ask) {
            notes.push(Note {
                reading: Reading::ToolMacro,
                signal: None,
                instance: number,
                spot: Spot {
                    file: place,
                    at: ask.at,
                },
            })?;
        }
    }
    Ok(())
}

fn push_instance(
    files: &[AskingFile<'_>],
    number: u32,
    instance: &Instance,
    notes: &mut Vec<Note>,
) -> Result<(), Memory>
    ensures { OnOk result (notes.new.items
        ≡ notes.old.items
        ++ asked_notes (file_at (map shown files.now) instance.now.file) number instance.now) }
{
    match files.get(instance.file) {
        Some(file) => push_asked(file, number, instance, notes),
        None => Ok(()),
    }
}

fn tool_notes(
    alloc: Global,
    files: &[AskingFile<'_>],
    instances: &[Instance],
) -> Result<Vec<Note>, Memory>
    requires { length instances.now ≤ 20000 }
    ensures { IfOk result (λ notes. notes.items
        ≡ tool_notes (map shown files.now) instances.now) }
{
    let mut notes = Vec::new(alloc);
    for (number, instance) in instances.iter().enumerate() {
        push_instance(files, number as u32, instance, &mut notes)?;
    }
    Ok(notes)
}

/// Adds to a design of files with these numbers among all the notes on conditions that ask for foreign names.
pub fn add_tool_notes(
    alloc: Global,
    all: &[Conditions],
    numbers: &[usize],
    design: &mut Design,
) -> Result<(), Memory>
    ensures ok { OnOk result (flat_in design.new
        ≡ with_tools (map (foreign_in all.now) numbers.now) (flat_in design.old)) }
    ensures err { OnErr result (flat_in design.new ≡ flat_in design.old) }
{
    if are_quiet(all, numbers) {
        return Ok(());
    }
    let files = asking_files(alloc, all, numbers)?;
    let notes = tool_notes(alloc, &files, &design.instances)?;
    design.notes.extend_from_slice(&notes)?;
    Ok(())
}
