//! What a row looks at below the top call: a design, its netlist, the netlist's steps, findings, or a demonstration.

ghost use Rattle.std.specs.Prelude.{◌≡◌};
ghost use Rattle.tests_rows.specs.declared.look.Stop.TheVariants as stop;

use crate::{beside, demos, events, moments, netlists, runs, starts};
use rtl_flat::design::Design;
use std::alloc::{AllocError, AllocFailed, Global};
use tests_designs::{NoDesign, designed};
use tests_netlists::NoRun;
use tests_reader::Row;
use text_ground::memory::Memory;
use thiserror::Error;

/// Why a look ends early.
#[derive(Debug, Error, Drop)]
pub enum Stop {
    #[error("no such look")]
    NoLook,
    #[error("no such file")]
    NoFile,
    #[error("{0}")]
    NoDesign(NoDesign),
    #[error("{0}")]
    NoRun(NoRun),
    #[error("the steps aren't read")]
    NoSteps,
    #[error("no such signal")]
    NoSignal,
    #[error("no such rule")]
    NoRule,
    #[error("a step didn't settle")]
    Unsettled,
    #[error("the demonstration isn't read")]
    NoDemonstration,
    #[error("the demonstration can't be run again")]
    NotShown,
    #[error("out of memory")]
    Memory,
}

impl From<AllocError> for Stop {
    ghost from_gives = { λ _ e. e ≡ stop.Memory };

    fn from(_error: AllocError) -> Stop {
        Stop::Memory
    }
}

impl From<Memory> for Stop {
    ghost from_gives = { λ _ e. e ≡ stop.Memory };

    fn from(_error: Memory) -> Stop {
        Stop::Memory
    }
}

impl From<NoRun> for Stop {
    ghost from_gives = { λ no e. e ≡ stop.NoRun no };

    fn from(no: NoRun) -> Stop {
        Stop::NoRun(no)
    }
}

impl<T: Drop> From<AllocFailed<T>> for Stop {
    ghost from_gives = { λ _ e. e ≡ stop.Memory };

    fn from(_error: AllocFailed<T>) -> Stop {
        Stop::Memory
    }
}

/// What one look says of a design. Words behind those that name the design are `words`, and the first of them may have named a
/// file, whose text is `behind`.
fn told_of(
    alloc: Global,
    design: &Design,
    goal: &str,
    words: &[String],
    behind: &[u8],
) -> Result<Vec<u8>, Stop> {
    match goal {
        "design" => netlists::size(alloc, design),
        "netlist" => netlists::begun(alloc, design),
        "steps" => netlists::ran(alloc, design, behind),
        "demonstration" => moments::lines(alloc, design, behind),
        "stored" => starts::listed(alloc, design),
        "registers" => starts::inferred(alloc, design),
        "start" => starts::started(alloc, design, words),
        "run" => runs::ran(alloc, design, words, behind),
        "events" => events::taken(alloc, design, words, behind),
        "beside" => beside::compared(alloc, design, behind),
        "shown" => demos::shown(alloc, design, words),
        "replayed" => demos::replayed(alloc, design, words),
        _ => Err(Stop::NoLook),
    }
}

/// What one look says: its words are how far it goes, the top module, its source, and where it wants one another file.
pub fn told(alloc: Global, row: &Row) -> Result<Vec<u8>, Stop> {
    let [goal, top, source, more @ ..] = row.words.as_slice() else {
        return Err(Stop::NoLook);
    };
    let Some(text) = row.text(source) else {
        return Err(Stop::NoFile);
    };
    let (words, behind) = match more.split_first() {
        Some((name, rest)) => match row.text(name) {
            Some(text) => (rest, text),
            None => (more, b"".as_slice()),
        },
        None => (more, b"".as_slice()),
    };
    match designed(alloc, top.as_bytes(), text) {
        Ok(design) => told_of(alloc, &design, goal, words, behind),
        Err(no) => Err(Stop::NoDesign(no)),
    }
}
