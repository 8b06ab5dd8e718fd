// The conditions of files that ask for foreign names.

ghost use Rattle.std.specs.Prelude.{◌≡◌, ◌↔◌, IfOk, IsTrue, map};
ghost use Rattle.check_conditions.specs.Foreign.{elsewhere_in, file_at, foreign_asks, foreign_in, has_macro, is_elsewhere};
ghost use Rattle.std.specs.List.{list_all};
ghost use Rattle.name_map.specs.Values.{values_of};
ghost use Rattle.check_conditions.specs.Kept.{AreProviders, bare, is_other, is_quiet, shown};

use crate::names::is_tool_name;
use crate::providers::{Provider, is_elsewhere, providers};
use name_map::NameMap;
use rtl_prep::{Ask, Conditions, Extent, Span};
use std::alloc::Global;
use text_ground::memory::Memory;
use text_ground::text::Text;

/// So many names are looked for among all macros; for more a map of them is made.
const FEW: usize = 8;

/// The asks of a file for foreign names, and what they hang on.
#[derive(Drop)]
pub(crate) struct AskingFile<'c> {
    pub asks: Vec<&'c Ask>,
    pub chains: &'c [Span],
    pub modules: &'c [Extent],
}

/// The asks of the file of a number.
fn asks_of(all: &[Conditions], number: usize) -> &[Ask]
    ensures { result.now ≡ (file_at all.now number).asks }
{
    match all.get(number) {
        Some(file) => file.asks(),
        None => &[],
    }
}

/// Whether none of the files of these numbers asks anything.
pub(crate) fn are_quiet(all: &[Conditions], numbers: &[usize]) -> bool
    ensures { result ≡ list_all (λ number. is_quiet (file_at all.now number)) numbers.now }
{
    numbers
        .iter()
        .all(|number| asks_of(all, *number).is_empty())
}

// ---- names of other files

fn marks(
    alloc: Global,
    providers: &NameMap<Provider>,
    number: usize,
    asks: &[Ask],
) -> Result<Vec<bool>, Memory>
    ensures { IfOk result (λ marks. marks.items
        ≡ map (λ ask. is_other number (values_of providers.now ask.name)) asks.now) }
{
    let mut marks = Vec::new(alloc);
    for ask in asks {
        marks.push(is_elsewhere(providers, number, &ask.name))?;
    }
    Ok(marks)
}

fn has_macro(name: &Text, file: &Conditions) -> bool
    ensures { result ≡ has_macro name.now file.now }
{
    for other in file.macros() {
        if other.as_bytes() == name.as_bytes() {
            return true;
        }
    }
    false
}

/// Whether another file has the name as a macro at its end. It takes no memory and looks at all macros.
fn is_macro_elsewhere(all: &[Conditions], number: usize, name: &Text) -> bool
    ensures { result ≡ is_elsewhere all.now number name.now }
{
    for (at, file) in all.iter().enumerate() {
        if at != number && has_macro(name, file) {
            return true;
        }
    }
    false
}

/// `marks` without a map.
fn few_marks(
    alloc: Global,
    all: &[Conditions],
    number: usize,
    asks: &[Ask],
) -> Result<Vec<bool>, Memory>
    ensures { IfOk result (λ marks. marks.items
        ≡ map (λ ask. is_elsewhere all.now number ask.name) asks.now) }
{
    let mut marks = Vec::new(alloc);
    for ask in asks {
        marks.push(is_macro_elsewhere(all, number, &ask.name))?;
    }
    Ok(marks)
}

/// Of each name that a file asks for, whether another file has it as a macro at its end.
pub fn elsewhere(alloc: Global, all: &[Conditions], number: usize) -> Result<Vec<bool>, Memory>
    ensures { IfOk result (λ marks. marks.items ≡ elsewhere_in all.now number) }
{
    let asks = asks_of(all, number);
    if asks.len() <= FEW {
        return few_marks(alloc, all, number, asks);
    }
    let providers = providers(alloc, all)?;
    marks(alloc, &providers, number, asks)
}

/// Whether `elsewhere` of a file would still be the same. It takes no memory.
pub fn is_still(all: &[Conditions], number: usize, was: &[bool]) -> bool
    ensures { IsTrue result ↔ (elsewhere_in all.now number ≡ was.now) }
{
    let asks = asks_of(all, number);
    if asks.len() != was.len() {
        return false;
    }
    for (index, ask) in asks.iter().enumerate() {
        if is_macro_elsewhere(all, number, &ask.name) != was[index] {
            return false;
        }
    }
    true
}

// ---- foreign names

fn foreign_asks<'c>(
    alloc: Global,
    providers: &NameMap<Provider>,
    number: usize,
    asks: &'c [Ask],
) -> Result<Vec<&'c Ask>, Memory>
    ensures { IfOk result (λ kept. map (λ ask. ask.now) kept.items
        ≡ foreign_asks asks.now
        (map (λ ask. is_other number (values_of providers.now ask.name)) asks.now)) }
{
    let mut kept = Vec::new(alloc);
    for ask in asks {
        if is_tool_name(ask.name.as_bytes()) || is_elsewhere(providers, number, &ask.name) {
            kept.push(ask)?;
        }
    }
    Ok(kept)
}

fn foreign_of<'c>(
    alloc: Global,
    all: &'c [Conditions],
    providers: &NameMap<Provider>,
    number: usize,
) -> Result<AskingFile<'c>, Memory>
    requires { AreProviders providers.now all.now }
    ensures { IfOk result (λ kept. shown kept ≡ bare (foreign_in all.now number)) }
{
    match all.get(number) {
        Some(file) => Ok(AskingFile {
            asks: foreign_asks(alloc, providers, number, file.asks())?,
            chains: file.chains(),
            modules: file.modules(),
        }),
        None => Ok(AskingFile {
            asks: Vec::new(alloc),
            chains: &[],
            modules: &[],
        }),
    }
}

/// Of each number, the asks of its file for foreign names.
pub(crate) fn asking_files<'c>(
    alloc: Global,
    all: &'c [Conditions],
    numbers: &[usize],
) -> Result<Vec<AskingFile<'c>>, Memory>
    ensures { IfOk result (λ made. map shown made.items
        ≡ map (λ number. bare (foreign_in all.now number)) numbers.now) }
{
    let providers = providers(alloc, all)?;
    let mut made = Vec::new(alloc);
    for number in numbers {
        made.push(foreign_of(alloc, all, &providers, *number)?)?;
    }
    Ok(made)
}
