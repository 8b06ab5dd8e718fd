// The command `vcd TOP SCOPE DUMP FILE..`.

ghost use Rattle.std.specs.Prelude.{◌≡◌, ◌≢◌, ◌≤◌, Err, Some, length, true};
ghost use Rattle.source_file.specs.SourceFiles.{AreShort, texts_in};
ghost use Rattle.desk_io.specs.Causes.{Rose};
ghost use Rattle.desk_io.specs.Shelf.{reading};
ghost use Rattle.rtl_flat.specs.Flats.{flat_in};
ghost use Rattle.vcd_check.specs.vcd_signals.vcd_read.Reading.{dump_of, read};
ghost use Rattle.desk_top.specs.Answers.{OverWorld};
ghost use Rattle.desk_top.specs.Delivery.{IsCalmWork, IsWork, status_of};
ghost use Rattle.desk_top.specs.Outcome.{IsBeside, IsCompared, IsComparing, IsReadBeside, compare_outcome, compare_status, read_outcome, verdict_outcome, verdict_status};
ghost use Rattle.desk_top.specs.Texts.{texts_of};
ghost use Rattle.desk_top.specs.Words.{are_files, texts};

use crate::deliver::{Ending, Stop, Work};
use crate::files::{read_sources, stop_of};
use crate::sign::refuse;
use desk_build::{Built, build};
use desk_dumps::{compare_line, read_line, verdict_line};
use desk_io::Shelf;
use rtl_flat::design::Design;
use source_file::SourceFile;
use std::alloc::Global;
use text_ground::memory::Memory;
use vcd_check::vcd_read::{Dump, VcdFault, read};
use vcd_check::{CompareFault, Verdict, compare};

/// Compares the dump of a file, which has the top in a scope, with the module of this name among those of these files,
/// and writes where it first departs.
pub fn vcd<F: Shelf>(
    alloc: Global,
    top: &str,
    scope: &str,
    dump: &str,
    files: &[String],
    shelf: &mut F,
) -> Result<Work, Stop>
    requires { are_files (texts files.now) ≡ true }
    ensures work { OverWorld (F.files shelf.old) (λ world.
        IsWork (IsComparing top.now scope.now (texts files.now) (reading (world.before dump.now))
        (texts_of world.files (texts files.now))) result) }
    ensures unread { result ≡ Err Stop.Unread → Rose (F.faults shelf.old) (F.faults shelf.new) }
    ensures later { F.faults shelf.old ≤ F.faults shelf.new }
    ensures calm { IsCalmWork (F.files shelf.old) result
        (F.faults shelf.old) (F.faults shelf.new) }
{
    let text = match shelf.read(dump) {
        Ok(text) => text,
        Err(fault) => return Err(stop_of(fault)),
    };
    match read_sources(alloc, files, shelf) {
        Ok(made) => compare_text(alloc, top, scope, &text, &made),
        Err(stop) => Err(stop),
    }
}

// What is told of the text of a dump, or that it is none.
fn compare_text(
    alloc: Global,
    top: &str,
    scope: &str,
    text: &[u8],
    files: &[SourceFile],
) -> Result<Work, Stop>
    requires short { AreShort files.now }
    requires text { length text.now ≤ 1048576 }
    ensures work { IsWork (IsReadBeside top.now files.now (texts_in files.now) scope.now
        (read text.now)) result }
    ensures read { result ≢ Err Stop.Unread }
{
    match read(alloc, text) {
        Ok(dump) => compare_in(alloc, top, scope, &dump, files),
        Err(fault) => tell_unread(alloc, fault),
    }
}

// What is told of a dump, or why the top is refused.
fn compare_in(
    alloc: Global,
    top: &str,
    scope: &str,
    dump: &Dump,
    files: &[SourceFile],
) -> Result<Work, Stop>
    requires { AreShort files.now }
    ensures work { IsWork (IsBeside top.now files.now (texts_in files.now) scope.now
        (dump_of dump.now)) result }
    ensures read { result ≢ Err Stop.Unread }
{
    match build(alloc, top, files) {
        Ok(Built::Designed(design)) => compare_with(alloc, scope, dump, &design),
        Ok(Built::Refused(line)) => refuse(line),
        Err(Memory) => Err(Stop::Memory),
    }
}

// What is told of a dump beside a design.
fn compare_with(alloc: Global, scope: &str, dump: &Dump, design: &Design) -> Result<Work, Stop>
    ensures work { IsWork (IsCompared (flat_in design.now) scope.now (dump_of dump.now)) result }
    ensures read { result ≢ Err Stop.Unread }
{
    match compare(alloc, design, scope, dump) {
        Ok(verdict) => tell(alloc, design, verdict),
        Err(fault) => tell_fault(alloc, design, fault),
    }
}

// That a dump agrees, or where it departs.
fn tell(alloc: Global, design: &Design, verdict: Verdict) -> Result<Work, Stop>
    ensures work { IsWork (λ outcome. outcome ≡ verdict_outcome (flat_in design.now) verdict)
        result }
    ensures read { result ≢ Err Stop.Unread }
{
    Ok(Work {
        ending: ending_of(verdict),
        bytes: verdict_line(alloc, design, verdict)?,
    })
}

fn ending_of(verdict: Verdict) -> Ending
    ensures { status_of result ≡ verdict_status verdict }
{
    match verdict {
        Verdict::Agrees { .. } => Ending::Agreed,
        Verdict::Departs { .. } => Ending::Departed,
    }
}

// Why nothing is told of a dump.
fn tell_fault(alloc: Global, design: &Design, fault: CompareFault) -> Result<Work, Stop>
    ensures work { IsWork (λ outcome. compare_outcome (flat_in design.now) fault ≡ Some outcome)
        result }
    ensures read { result ≢ Err Stop.Unread }
{
    Ok(Work {
        ending: fault_ending(fault),
        bytes: compare_line(alloc, design, fault)?,
    })
}

fn fault_ending(fault: CompareFault) -> Ending
    ensures { status_of result ≡ compare_status fault }
{
    match fault {
        CompareFault::NoNetlist => Ending::NoNetlist,
        CompareFault::MissingInput(_) => Ending::NoDump,
        CompareFault::MissingRegister(_) => Ending::NoDump,
        CompareFault::NeverKnown => Ending::NoDump,
        CompareFault::Unlawful(_) => Ending::NoDump,
        CompareFault::Memory => Ending::NoDump,
    }
}

// Why a text is no dump.
fn tell_unread(alloc: Global, fault: VcdFault) -> Result<Work, Stop>
    ensures work { IsWork (λ outcome. read_outcome fault ≡ Some outcome) result }
    ensures read { result ≢ Err Stop.Unread }
{
    Ok(Work {
        ending: Ending::NoDump,
        bytes: read_line(alloc, fault)?,
    })
}
