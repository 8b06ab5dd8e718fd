//! A line of a steps file: the inputs that it sets.

ghost use Rattle.std.specs.Prelude.{ℕ, ◌≡◌, ◌==◌, ◌||◌, List, Some, false, IfOk, OnOk, [], map};
ghost use Rattle.std.specs.Option.{option_map};
ghost use Rattle.desk_steps.specs.Marks.{AreMarks, is_marked};
ghost use Rattle.desk_steps.specs.Names.{names_of};
ghost use Rattle.desk_steps.specs.Lines.{parts};
ghost use Rattle.desk_steps.specs.Steps.{Setting as Plain, behind, set_signal, setting, setting_of, settings_of, step, step_of};

use crate::cut::{cut_at, next_part};
use crate::names::{Input, Names};
use crate::value::value_bits;
use event_model::setting::Setting;
use rtl_flat::expr::SigId;
use std::alloc::Global;
use std::collections::BTreeMap;
use text_ground::memory::Memory;

/// The inputs that a line has set so far.
#[derive(Drop)]
pub(crate) struct Marks {
    signals: BTreeMap<u32, bool>,
}

impl Marks {
    fn new(alloc: Global) -> Marks
        ensures { (signal : ℕ) → is_marked result signal ≡ false }
    {
        Marks {
            signals: BTreeMap::new(alloc),
        }
    }

    fn has(&self, signal: SigId) -> bool
        ensures { result ≡ is_marked self.now signal.0 }
    {
        self.signals.get(&signal.0).is_some()
    }

    fn add(&mut self, signal: SigId) -> Result<(), Memory>
        ensures { OnOk result ((other : ℕ)
            → is_marked self.new other ≡ (is_marked self.old other || (signal.0 == other))) }
    {
        self.signals.insert(signal.0, true)?;
        Ok(())
    }
}

/// An input, set to the value of a text, where others are set already.
fn set_input(
    alloc: Global,
    marks: &Marks,
    input: Input,
    text: &[u8],
) -> Result<Option<Setting>, Memory>
    ensures { (earlier : List Plain) → AreMarks marks.now earlier
        → IfOk result (λ made. option_map setting made ≡ set_signal earlier text.now (Some input)) }
{
    let Some(value) = value_bits(alloc, input.width, text)? else {
        return Ok(None);
    };
    if marks.has(input.signal) {
        return Ok(None);
    }
    Ok(Some(Setting {
        signal: input.signal,
        value,
    }))
}

/// `NAME=VALUE`, where some inputs are set already.
fn read_setting(
    alloc: Global,
    names: &Names,
    marks: &Marks,
    text: &[u8],
) -> Result<Option<Setting>, Memory>
    ensures { (earlier : List Plain) → AreMarks marks.now earlier
        → IfOk result (λ made. option_map setting made
        ≡ setting_of (names_of names.now) earlier text.now) }
{
    let Some((name, value)) = cut_at(b'=', text) else {
        return Ok(None);
    };
    match names.find(name) {
        None => Ok(None),
        Some(input) => set_input(alloc, marks, input, value),
    }
}

/// Settings with one space between two of them.
fn read_settings(alloc: Global, names: &Names, text: &[u8]) -> Result<Option<Vec<Setting>>, Memory>
    ensures { IfOk result (λ made. option_map step made
        ≡ settings_of (names_of names.now) [] (parts 32 text.now)) }
{
    let mut marks = Marks::new(alloc);
    let mut settings = Vec::new(alloc);
    let mut rest = Some(text);
    while let Some(text) = rest {
        let (part, behind) = next_part(text);
        let Some(setting) = read_setting(alloc, names, &marks, part)? else {
            return Ok(None);
        };
        marks.add(setting.signal)?;
        settings.push(setting)?;
        rest = behind;
    }
    Ok(Some(settings))
}

/// What is behind a text at the begin of another.
fn behind<'a>(head: &[u8], text: &'a [u8]) -> Option<&'a [u8]>
    ensures { option_map (λ rest. rest.now) result ≡ behind head.now text.now }
{
    let Some((first, others)) = head.split_first() else {
        return Some(text);
    };
    let (byte, rest) = text.split_first()?;
    if byte == first {
        behind(others, rest)
    } else {
        None
    }
}

/// A line that sets inputs; none where it is anything else.
pub(crate) fn read_line(
    alloc: Global,
    names: &Names,
    line: &[u8],
) -> Result<Option<Vec<Setting>>, Memory>
    ensures { IfOk result (λ made. option_map step made ≡ step_of (names_of names.now) line.now) }
{
    match behind(b"set ", line) {
        None => Ok(None),
        Some(text) => read_settings(alloc, names, text),
    }
}
