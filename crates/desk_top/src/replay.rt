// The command `replay TOP DEMO FILE..`.

ghost use Rattle.std.specs.Prelude.{◌≡◌, ◌≢◌, ◌≤◌, ℕ, List, slice_get, true, Err, Some};
ghost use Rattle.source_file.specs.SourceFiles.{AreShort, texts_in};
ghost use Rattle.desk_io.specs.Causes.{Rose};
ghost use Rattle.desk_io.specs.Shelf.{reading};
ghost use Rattle.rtl_flat.specs.Flats.{flat_in};
ghost use Rattle.desk_demo.specs.Files.{Leads};
ghost use Rattle.desk_report.specs.Tellings.{signal_path};
ghost use Rattle.desk_top.specs.Answers.{OverWorld};
ghost use Rattle.desk_top.specs.Delivery.{IsCalmWork, IsWork, status_of};
ghost use Rattle.desk_top.specs.Outcome.{IsDemoRun, IsReplayIn, IsReplaying, IsRerun, fault_outcome, replay_outcome};
ghost use Rattle.desk_top.specs.Texts.{texts_of};
ghost use Rattle.desk_top.specs.Words.{are_files, texts};

use crate::deliver::{Ending, Stop, Work};
use crate::files::{read_sources, stop_of};
use crate::sign::refuse;
use crate::simulate::malformed;
use demo_told::{Demo, Shown};
use desk_build::{Built, build};
use desk_demo::{Malformed, read_file};
use desk_io::Shelf;
use desk_report::push_replay;
use desk_verdict::demo_replay::{ReplayFault, legal_trial, replay as shown_by};
use rtl_flat::design::Design;
use source_file::SourceFile;
use std::alloc::Global;
use text_ground::memory::Memory;

/// Runs the demonstration of a file again in the module of this name among those of these files, and
/// writes what it shows.
pub fn replay<F: Shelf>(
    alloc: Global,
    top: &str,
    demo: &str,
    files: &[String],
    shelf: &mut F,
) -> Result<Work, Stop>
    requires { are_files (texts files.now) ≡ true }
    ensures work { OverWorld (F.files shelf.old) (λ world.
        IsWork (IsReplaying top.now (texts files.now) (reading (world.before demo.now))
        (texts_of world.files (texts files.now))) result) }
    ensures unread { result ≡ Err Stop.Unread → Rose (F.faults shelf.old) (F.faults shelf.new) }
    ensures later { F.faults shelf.old ≤ F.faults shelf.new }
    ensures calm { IsCalmWork (F.files shelf.old) result
        (F.faults shelf.old) (F.faults shelf.new) }
{
    let text = match shelf.read(demo) {
        Ok(text) => text,
        Err(fault) => return Err(stop_of(fault)),
    };
    match read_sources(alloc, files, shelf) {
        Ok(made) => run_in(alloc, top, &text, &made),
        Err(stop) => Err(stop),
    }
}

// What the demonstration shows in the top, or why it shows nothing.
fn run_in(alloc: Global, top: &str, demo: &[u8], files: &[SourceFile]) -> Result<Work, Stop>
    requires { AreShort files.now }
    ensures work { IsWork (IsReplayIn top.now files.now (texts_in files.now) demo.now) result }
    ensures read { result ≢ Err Stop.Unread }
{
    match build(alloc, top, files) {
        Ok(Built::Designed(design)) => run_file(alloc, demo, &design),
        Ok(Built::Refused(line)) => refuse(line),
        Err(Memory) => Err(Stop::Memory),
    }
}

// What the demonstration of a file shows in a design, or that the file names none.
fn run_file(alloc: Global, text: &[u8], design: &Design) -> Result<Work, Stop>
    ensures work { IsWork (IsDemoRun (flat_in design.now) text.now) result }
    ensures read { result ≢ Err Stop.Unread }
{
    match read_file(design, text) {
        Ok(demo) => run_demo(alloc, design, &demo),
        Err(Malformed::First) => Ok(malformed(alloc, 1)?),
        Err(Malformed::More(demo)) => refuse_more(alloc, design, &demo),
    }
}

// A file with something behind the line of a demonstration: its second line is malformed, unless the
// first names what the design doesn't have.
fn refuse_more(alloc: Global, design: &Design, demo: &Demo) -> Result<Work, Stop>
    ensures work { (text : List ℕ) → Leads design.now.signals.items text demo.now
        → IsWork (IsDemoRun (flat_in design.now) text) result }
    ensures read { result ≢ Err Stop.Unread }
{
    match legal_trial(alloc, design, demo) {
        Ok(_) => Ok(malformed(alloc, 2)?),
        Err(ReplayFault::Illegal(_)) => Ok(malformed(alloc, 1)?),
        Err(ReplayFault::Memory) => Err(Stop::Memory),
        Err(ReplayFault::NoNetlist) => Ok(malformed(alloc, 2)?),
        Err(ReplayFault::Unsettled(_)) => Ok(malformed(alloc, 2)?),
        Err(ReplayFault::Same(_)) => Ok(malformed(alloc, 2)?),
    }
}

// What a demonstration shows, or why it shows nothing.
fn run_demo(alloc: Global, design: &Design, demo: &Demo) -> Result<Work, Stop>
    ensures work { IsWork (IsRerun (flat_in design.now) demo.now) result }
    ensures read { result ≢ Err Stop.Unread }
{
    match shown_by(alloc, design, demo) {
        Ok(shown) => show(alloc, design, demo, &shown),
        Err(fault) => tell(alloc, fault),
    }
}

// Two values that differ.
fn show(alloc: Global, design: &Design, demo: &Demo, shown: &Shown) -> Result<Work, Stop>
    ensures work { IsWork (λ outcome. outcome
        ≡ replay_outcome (flat_in design.now) demo.now shown.now) result }
    ensures read { result ≢ Err Stop.Unread }
{
    let mut bytes = Vec::new(alloc);
    push_replay(alloc, demo, path_of(design, demo), shown, &mut bytes)?;
    Ok(Work {
        ending: Ending::Shown,
        bytes,
    })
}

// The path of a demonstration's signal; empty where the design has none with its number.
fn path_of<'d>(design: &'d Design, demo: &Demo) -> &'d [u8]
    ensures { result.now ≡ signal_path (slice_get design.now.signals.items demo.now.signal.0) }
{
    match design.signals.get(demo.signal.0 as usize) {
        Some(signal) => signal.path.as_bytes(),
        None => b"",
    }
}

// Why a demonstration shows nothing.
fn tell(alloc: Global, fault: ReplayFault) -> Result<Work, Stop>
    ensures work { IsWork (λ outcome. fault_outcome fault ≡ Some outcome) result }
    ensures read { result ≢ Err Stop.Unread }
{
    match fault {
        ReplayFault::Illegal(_) => Ok(malformed(alloc, 1)?),
        ReplayFault::NoNetlist => line(alloc, Ending::NoNetlist, b"no netlist\n"),
        ReplayFault::Unsettled(_) => line(alloc, Ending::Unsettled, b"unsettled\n"),
        ReplayFault::Same(_) => line(alloc, Ending::Same, b"no difference\n"),
        ReplayFault::Memory => Err(Stop::Memory),
    }
}

fn line(alloc: Global, ending: Ending, text: &[u8]) -> Result<Work, Stop>
    ensures work { IsWork (λ outcome. outcome
        ≡ record { status = status_of ending; bytes = text.now }) result }
    ensures read { result ≢ Err Stop.Unread }
{
    Ok(Work {
        ending,
        bytes: Vec::from_slice(alloc, text)?,
    })
}
