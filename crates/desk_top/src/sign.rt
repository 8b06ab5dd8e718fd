// The command `sign TOP FILE..`.

ghost use Rattle.std.specs.Prelude.{◌≡◌, ◌≢◌, ◌≤◌, IfOk, if◌then◌else◌, map, true};
ghost use Rattle.source_file.specs.SourceFiles.{AreShort, texts_in};
ghost use Rattle.desk_io.specs.Causes.{Rose};
ghost use Rattle.rtl_flat.specs.Flats.{flat_in};
ghost use Rattle.desk_places.specs.Places.{sources_of};
ghost use Rattle.desk_report.specs.Reports.{report_text};
ghost use Rattle.desk_rows.specs.Rows.{unwaived};
ghost use Rattle.desk_top.specs.Answers.{OverWorld};
ghost use Rattle.desk_top.specs.Delivery.{IsCalmWork, IsWork, status_of};
ghost use Rattle.desk_top.specs.Outcome.{IsJudged, IsRuled, IsSigned, refused};
ghost use Rattle.desk_top.specs.Texts.{texts_of};
ghost use Rattle.desk_top.specs.Words.{are_files, texts};

use crate::deliver::{Ending, Stop, Work};
use crate::files::read_sources;
use desk_build::{Built, build};
use desk_io::Shelf;
use desk_places::sources::Sources;
use desk_report::report;
use desk_rows::unwaived;
use desk_verdict::Verdict;
use rtl_flat::design::Design;
use source_file::SourceFile;
use std::alloc::Global;
use text_ground::memory::Memory;

/// Rules the module of this name among those of these files, and writes the report.
pub fn sign<F: Shelf>(
    alloc: Global,
    top: &str,
    files: &[String],
    shelf: &mut F,
) -> Result<Work, Stop>
    requires { are_files (texts files.now) ≡ true }
    ensures work { OverWorld (F.files shelf.old) (λ world.
        IsWork (IsSigned top.now (texts files.now) (texts_of world.files (texts files.now)))
        result) }
    ensures unread { result ≡ Err Stop.Unread → Rose (F.faults shelf.old) (F.faults shelf.new) }
    ensures later { F.faults shelf.old ≤ F.faults shelf.new }
    ensures calm { IsCalmWork (F.files shelf.old) result (F.faults shelf.old) (F.faults shelf.new) }
{
    match read_sources(alloc, files, shelf) {
        Ok(made) => judge(alloc, top, &made),
        Err(stop) => Err(stop),
    }
}

// The report of the top, or why there is none.
fn judge(alloc: Global, top: &str, files: &[SourceFile]) -> Result<Work, Stop>
    requires { AreShort files.now }
    ensures work { IsWork (IsJudged top.now files.now (texts_in files.now)) result }
    ensures read { result ≢ Err Stop.Unread }
{
    match build(alloc, top, files) {
        Ok(Built::Designed(design)) => judge_design(alloc, top, files, &design),
        Ok(Built::Refused(line)) => refuse(line),
        Err(Memory) => Err(Stop::Memory),
    }
}

// The files, whose places are written seldom where nothing is found.
fn sources_for<'a>(
    alloc: Global,
    files: &'a [SourceFile],
    firm: bool,
) -> Result<Sources<'a>, Memory>
    requires { AreShort files.now }
    ensures { IfOk result (λ found. sources_of found ≡ files.now) }
{
    if firm {
        Sources::seldom(alloc, files)
    } else {
        Sources::new(alloc, files)
    }
}

// The report of a design.
fn judge_design(
    alloc: Global,
    top: &str,
    files: &[SourceFile],
    design: &Design,
) -> Result<Work, Stop>
    requires { AreShort files.now }
    ensures work { IsWork (IsRuled top.now files.now (flat_in design.now)) result }
    ensures read { result ≢ Err Stop.Unread }
{
    let said = Verdict::of(alloc, design)?;
    Ok(Work {
        ending: ending_of(said.clean),
        bytes: report_of(alloc, top, files, &said)?,
    })
}

// What is told of a verdict; no waivers stand.
fn report_of(
    alloc: Global,
    top: &str,
    files: &[SourceFile],
    said: &Verdict,
) -> Result<Vec<u8>, Memory>
    requires { AreShort files.now }
    ensures { IfOk result (λ bytes. bytes.items ≡ report_text top.now files.now
        (map unwaived said.now.rows.items) said.now.clean said.now.firm) }
{
    let sources = sources_for(alloc, files, said.firm)?;
    let rows = unwaived(alloc, &said.rows)?;
    report(
        alloc,
        top.as_bytes(),
        &sources,
        said.clean,
        said.firm,
        &rows,
    )
}

fn ending_of(clean: bool) -> Ending
    ensures { status_of result ≡ (if clean then 0 else 1) }
{
    if clean { Ending::Clean } else { Ending::Open }
}

// The work that is done with a refusal.
pub fn refuse(line: Vec<u8>) -> Result<Work, Stop>
    ensures work { IsWork (λ outcome. outcome ≡ refused line.items) result }
    ensures read { result ≢ Err Stop.Unread }
{
    Ok(Work {
        ending: Ending::Refused,
        bytes: line,
    })
}
