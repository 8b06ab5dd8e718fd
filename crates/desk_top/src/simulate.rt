// The command `simulate TOP STEPS FILE..`, up to its run.

ghost use Rattle.std.specs.Prelude.{◌≡◌, ◌≢◌, ◌≤◌, IfOk, true};
ghost use Rattle.source_file.specs.SourceFiles.{AreShort, texts_in};
ghost use Rattle.desk_io.specs.Causes.{Rose};
ghost use Rattle.desk_io.specs.Shelf.{reading};
ghost use Rattle.rtl_flat.specs.Flats.{flat_in};
ghost use Rattle.desk_steps.specs.Steps.{file_of};
ghost use Rattle.desk_top.specs.Answers.{OverWorld};
ghost use Rattle.desk_top.specs.Delivery.{IsCalmWork, outcome_of};
ghost use Rattle.desk_top.specs.Outcome.{IsRun, IsSimulating, IsStepped, malformed, names_in, refused};
ghost use Rattle.desk_top.specs.Plans.{HasFitting, IsPlan};
ghost use Rattle.desk_top.specs.Texts.{texts_of};
ghost use Rattle.desk_top.specs.Words.{are_files, texts};

use crate::deliver::{Ending, Stop, Work};
use crate::files::{read_sources, stop_of};
use desk_build::{Built, build};
use desk_io::Shelf;
use desk_steps::{Steps, StepsFault, read_steps};
use itoa::Buffer;
use rtl_flat::design::Design;
use source_file::SourceFile;
use std::alloc::Global;
use text_ground::memory::Memory;

/// What is to be done when all is read.
#[derive(Drop)]
pub enum Plan {
    /// To write this: the source is refused, or a line of the steps is none.
    Told(Work),
    /// To run the design through the steps, and to write a line for each.
    Run(Design, Steps),
}

/// How the module of this name among those of these files is run through the steps of a file.
pub fn simulate<F: Shelf>(
    alloc: Global,
    top: &str,
    steps: &str,
    files: &[String],
    shelf: &mut F,
) -> Result<Plan, Stop>
    requires { are_files (texts files.now) ≡ true }
    ensures plan { OverWorld (F.files shelf.old) (λ world.
        IsPlan (IsSimulating top.now (texts files.now) (reading (world.before steps.now))
        (texts_of world.files (texts files.now))) result) }
    ensures fitting { HasFitting result }
    ensures unread { result ≡ Err Stop.Unread → Rose (F.faults shelf.old) (F.faults shelf.new) }
    ensures later { F.faults shelf.old ≤ F.faults shelf.new }
    ensures calm { IsCalmWork (F.files shelf.old) result (F.faults shelf.old) (F.faults shelf.new) }
{
    let text = match shelf.read(steps) {
        Ok(text) => text,
        Err(fault) => return Err(stop_of(fault)),
    };
    match read_sources(alloc, files, shelf) {
        Ok(made) => try_steps(alloc, top, &text, &made),
        Err(stop) => Err(stop),
    }
}

// How the top is run through the steps, or why it isn't.
fn try_steps(alloc: Global, top: &str, steps: &[u8], files: &[SourceFile]) -> Result<Plan, Stop>
    requires { AreShort files.now }
    ensures plan { IsPlan (IsStepped top.now files.now (texts_in files.now) steps.now) result }
    ensures fitting { HasFitting result }
    ensures read { result ≢ Err Stop.Unread }
{
    match build(alloc, top, files) {
        Ok(Built::Designed(design)) => make_plan(alloc, steps, design),
        Ok(Built::Refused(line)) => Ok(Plan::Told(refused(line))),
        Err(Memory) => Err(Stop::Memory),
    }
}

// How a design is run through the steps of a text, or that the text is none of steps.
fn make_plan(alloc: Global, text: &[u8], design: Design) -> Result<Plan, Stop>
    ensures plan { IsPlan (IsRun (flat_in design) (file_of (names_in (flat_in design)) text.now))
        result }
    ensures fitting { HasFitting result }
    ensures read { result ≢ Err Stop.Unread }
{
    match read_steps(alloc, &design, text) {
        Ok(steps) => Ok(Plan::Run(design, steps)),
        Err(StepsFault::Malformed(number)) => Ok(Plan::Told(malformed(alloc, number)?)),
        Err(StepsFault::Memory) => Err(Stop::Memory),
    }
}

// The work that is done with a refusal.
fn refused(line: Vec<u8>) -> Work
    ensures { outcome_of result ≡ refused line.items }
{
    Work {
        ending: Ending::Refused,
        bytes: line,
    }
}

// The work that is done with a line that is none.
pub fn malformed(alloc: Global, number: u32) -> Result<Work, Memory>
    ensures { IfOk result (λ work. outcome_of work ≡ malformed number) }
{
    let mut bytes = Vec::from_slice(alloc, b"malformed line ")?;
    let mut digits = Buffer::new();
    bytes.extend_from_slice(digits.format(number).as_bytes())?;
    bytes.push(b'\n')?;
    Ok(Work {
        ending: Ending::Malformed,
        bytes,
    })
}
