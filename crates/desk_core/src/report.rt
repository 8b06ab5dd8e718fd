// What is told of a module on a day.
ghost use Rattle.std.specs.Prelude.{◌≡◌, ◌≤◌, ◌∷◌, ◌++◌, [], length, map, IfOk, List, OnOk};
ghost use Rattle.desk_files.specs.Limits.{MAX_BYTES};
ghost use Rattle.desk_places.specs.Places.{sources_of};
ghost use Rattle.desk_tables.specs.Tables.{kept_of};
ghost use Rattle.desk_rulings.specs.Rulings.{verdict_of};
ghost use Rattle.source_file.specs.declared.SourceFile.{SourceFile};
ghost use Rattle.source_file.specs.SourceFiles.{AreShort};
ghost use Rattle.desk_core.specs.Reports.{files_named, refused_telling, ruled_telling, telling, told_in, verdict_in};

use design_db::Answer;
use design_db::desk_verdict::Verdict;
use desk_files::file_named;
use desk_places::sources::Sources;
use desk_report::report;
use desk_rows::Row;
use desk_rulings::{Ruled, left, standing};
use desk_tables::{Day, Tables};
use source_file::SourceFile;
use std::alloc::Global;
use text_ground::memory::Memory;
use text_ground::text::Text;

/// What is told of a module on a day.
#[derive(Drop)]
pub struct TopReport {
    /// The report, or the line that says why there is none.
    pub bytes: Vec<u8>,
    /// Whether the module has no design.
    pub refused: bool,
    /// How many findings of the first grade have no waiver that stands; 0 where it is refused.
    pub left: usize,
}

// Of so many files whether a finding stands in them.
fn told_files(alloc: Global, count: usize, rows: &[Row]) -> Result<Vec<bool>, Memory>
    ensures { IfOk result (λ told. length told.items ≡ count) }
{
    let mut told = vec![in alloc; false; count]?;
    for row in rows {
        let number = row.finding.spot.file as usize;
        if number < told.len() {
            told[number] = true;
        }
    }
    Ok(told)
}

// Puts a file behind others; its lines are looked for now where places of it are told.
fn push_file<'d>(sources: &mut Sources<'d>, file: &'d SourceFile, told: bool) -> Result<(), Memory>
    requires { length file.now.text ≤ MAX_BYTES }
    ensures { OnOk result (sources_of sources.new ≡ sources_of sources.old ++ file.now ∷ []) }
{
    if told {
        sources.push(file)
    } else {
        sources.push_seldom(file)
    }
}

// The files, as the places of findings are written of them: the lines of those without a finding
// aren't looked for.
fn sources_in<'d>(
    alloc: Global,
    files: &[&'d SourceFile],
    rows: &[Row],
) -> Result<Sources<'d>, Memory>
    requires { AreShort (map (λ file. file.now) files.now) }
    ensures { IfOk result (λ sources.
        sources_of sources ≡ map (λ file. file.now) files.now) }
{
    let told = told_files(alloc, files.len(), rows)?;
    let mut sources = Sources::empty(alloc);
    for (number, file) in files.iter().enumerate() {
        push_file(&mut sources, file, told[number])?;
    }
    Ok(sources)
}

// The files of these names.
pub(crate) fn files_named<'d>(
    alloc: Global,
    files: &'d [SourceFile],
    names: &[Text],
) -> Result<Vec<&'d SourceFile>, Memory>
    ensures { IfOk result (λ found.
        map (λ file. file.now) found.items ≡ files_named names.now files.now) }
{
    let mut found = Vec::new(alloc);
    for name in names {
        if let Some(file) = file_named(files, name.as_bytes()) {
            found.push(file)?;
        }
    }
    Ok(found)
}

// A verdict, as waivers and sign-offs look at it, with the files that its module uses.
pub(crate) fn ruled_of<'d>(
    used: &'d [&'d SourceFile],
    verdict: &'d Verdict,
    reached: &'d [Text],
) -> Ruled<'d>
    ensures { (files : List SourceFile)
        → map (λ file. file.now) used.now ≡ files_named reached.now files
        → verdict_of result ≡ verdict_in files verdict.now reached.now }
{
    Ruled {
        rows: &verdict.rows,
        files: used,
        reached,
    }
}

// The report of a verdict.
fn ruled_report(
    alloc: Global,
    tables: &Tables,
    ruled: &Ruled<'_>,
    verdict: &Verdict,
    top: &Text,
    today: Day,
) -> Result<TopReport, Memory>
    requires { AreShort (verdict_of ruled.now).files }
    ensures { IfOk result (λ report. (files : List SourceFile)
        → verdict_of ruled.now ≡ verdict_in files verdict.now ruled.now.reached.now
        → told_in report ≡ ruled_telling top.now today (kept_of tables.now) files verdict.now
        ruled.now.reached.now) }
{
    let rows = standing(alloc, ruled, tables, today)?;
    let sources = sources_in(alloc, ruled.files, ruled.rows)?;
    let top = top.as_bytes();
    let bytes = report(alloc, top, &sources, verdict.clean, verdict.firm, &rows)?;
    Ok(TopReport {
        bytes,
        refused: false,
        left: left(&rows),
    })
}

fn refused_report(alloc: Global, line: &[u8]) -> Result<TopReport, Memory>
    ensures { IfOk result (λ report. told_in report ≡ refused_telling line.now) }
{
    Ok(TopReport {
        bytes: Vec::from_slice(alloc, line)?,
        refused: true,
        left: 0,
    })
}

// What an answer tells of its module on a day.
pub(crate) fn report_of(
    alloc: Global,
    tables: &Tables,
    files: &[SourceFile],
    answer: &Answer,
    top: &Text,
    today: Day,
) -> Result<TopReport, Memory>
    requires { AreShort files.now }
    ensures { IfOk result (λ report. told_in report
        ≡ telling top.now today (kept_of tables.now) files.now answer.now) }
{
    match answer {
        Answer::Ruled(verdict, reached) => {
            let used = files_named(alloc, files, reached)?;
            let ruled = ruled_of(&used, verdict, reached);
            ruled_report(alloc, tables, &ruled, verdict, top, today)
        }
        Answer::Refused(line) => refused_report(alloc, line),
    }
}
