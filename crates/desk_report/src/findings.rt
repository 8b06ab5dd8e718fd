//! The report of a ruling.

ghost use Rattle.std.specs.Prelude.{◌≡◌, ◌++◌, codes, length, map, IfOk, OnOk};
ghost use Rattle.rtl_rule.specs.Rows.{row_of};
ghost use Rattle.desk_dates.specs.Dates.{date_text};
ghost use Rattle.desk_places.specs.Places.{sources_of};
ghost use Rattle.desk_rows.specs.Rows.{waived};
ghost use Rattle.desk_report.specs.Reports.{finding_line, finding_text, findings_text, head_lines, line, report_text, shown_line, stages_report, waived_count, waiver_text, yes_or_no};

use crate::demos::push_demo;
use demo_told::Told;
use desk_dates::date_digits;
use desk_places::sources::Sources;
use desk_rows::{Row, WaivedRow};
use desk_tables::{Day, WaiverId};
use itoa::Buffer;
use rtl_rule::finding::Ruling;
use std::alloc::Global;
use text_ground::memory::Memory;

/// The report of a top: its head, whether its design is clean and firm, and for each row a line with
/// the rule, what the finding is about, the place and the waiver that stands, and below it one that
/// shows it.
pub fn report(
    alloc: Global,
    top: &[u8],
    sources: &Sources<'_>,
    clean: bool,
    firm: bool,
    rows: &[WaivedRow<'_>],
) -> Result<Vec<u8>, Memory>
    ensures { IfOk result (λ text. text.items
        ≡ report_text top.now (sources_of sources.now) (map waived rows.now) clean firm) }
{
    let mut out = Vec::new(alloc);
    push_head(&mut out, top, clean, firm, rows)?;
    push_rows(alloc, &mut out, sources, rows)?;
    Ok(out)
}

/// How many waivers stand.
fn waived_count(rows: &[WaivedRow<'_>]) -> usize
    ensures { result ≡ waived_count (map waived rows.now) }
{
    rows.iter().filter(|one| one.waiver.is_some()).count()
}

/// The top, whether its design is clean and firm, how many findings there are, and how many of them
/// are waived.
fn push_head(
    out: &mut Vec<u8>,
    top: &[u8],
    clean: bool,
    firm: bool,
    rows: &[WaivedRow<'_>],
) -> Result<(), Memory>
    ensures { OnOk result (out.new.items ≡ out.old.items
        ++ head_lines top.now clean firm (length rows.now) (waived_count (map waived rows.now))) }
{
    let mut digits = Buffer::new();
    push_line(out, b"module ", top)?;
    push_line(out, b"clean ", yes_or_no(clean))?;
    push_line(out, b"firm ", yes_or_no(firm))?;
    let count = digits.format(rows.len());
    push_line(out, b"findings ", count.as_bytes())?;
    let mut digits = Buffer::new();
    let waived = digits.format(waived_count(rows));
    push_line(out, b"waived ", waived.as_bytes())
}

/// What is told of the ruling of a design that was generated with so many stages, and has so many processes.
pub fn stages_report(
    alloc: Global,
    stages: u32,
    processes: usize,
    ruling: &Ruling,
) -> Result<Vec<u8>, Memory>
    ensures { IfOk result (λ text. text.items ≡ stages_report stages processes ruling.now.clean
        (length ruling.now.findings.items)) }
{
    let mut out = Vec::new(alloc);
    let mut digits = Buffer::new();
    push_line(&mut out, b"stages ", digits.format(stages).as_bytes())?;
    push_line(&mut out, b"processes ", digits.format(processes).as_bytes())?;
    push_line(&mut out, b"clean ", yes_or_no(ruling.clean))?;
    let count = digits.format(ruling.findings.len());
    push_line(&mut out, b"findings ", count.as_bytes())?;
    Ok(out)
}

/// A line of a label and a text.
fn push_line(out: &mut Vec<u8>, label: &[u8], text: &[u8]) -> Result<(), Memory>
    ensures { OnOk result (out.new.items ≡ out.old.items ++ line (label.now ++ text.now)) }
{
    out.extend_from_slice(label)?;
    out.extend_from_slice(text)?;
    out.push(b'\n')?;
    Ok(())
}

fn yes_or_no(answer: bool) -> &'static [u8]
    ensures { result.now ≡ yes_or_no answer }
{
    if answer { b"yes" } else { b"no" }
}

/// The lines of rows.
fn push_rows(
    alloc: Global,
    out: &mut Vec<u8>,
    sources: &Sources<'_>,
    rows: &[WaivedRow<'_>],
) -> Result<(), Memory>
    ensures { OnOk result (out.new.items ≡ out.old.items
        ++ findings_text (sources_of sources.now) (map waived rows.now)) }
{
    for one in rows {
        push_finding(out, sources, one)?;
        push_shown(alloc, out, &one.row.told)?;
    }
    Ok(())
}

/// A finding's line, with the waiver that stands.
fn push_finding(out: &mut Vec<u8>, sources: &Sources<'_>, one: &WaivedRow<'_>) -> Result<(), Memory>
    ensures { OnOk result (out.new.items ≡ out.old.items
        ++ finding_line (sources_of sources.now) (waived one.now)) }
{
    push_words(out, sources, one.row)?;
    push_waiver(out, &one.waiver)?;
    out.push(b'\n')?;
    Ok(())
}

/// The rule by its code and its name, what the finding is about, and its place.
fn push_words(out: &mut Vec<u8>, sources: &Sources<'_>, row: &Row) -> Result<(), Memory>
    ensures { OnOk result (out.new.items ≡ out.old.items
        ++ finding_text (sources_of sources.now) row.now) }
{
    let rule = row.finding.rule.row();
    push_word(out, rule.code.as_bytes())?;
    push_word(out, rule.name.as_bytes())?;
    push_word(out, row.told.target.as_bytes())?;
    sources.push_place(out, row.finding.spot)
}

/// A word and a space.
fn push_word(out: &mut Vec<u8>, word: &[u8]) -> Result<(), Memory>
    ensures { OnOk result (out.new.items ≡ out.old.items ++ (word.now ++ codes " ")) }
{
    out.extend_from_slice(word)?;
    out.push(b' ')?;
    Ok(())
}

/// The number of the waiver that stands, and its last day.
fn push_waiver(out: &mut Vec<u8>, waiver: &Option<(WaiverId, Day)>) -> Result<(), Memory>
    ensures { OnOk result (out.new.items ≡ out.old.items ++ waiver_text waiver.now) }
{
    let Some((id, day)) = waiver else {
        return Ok(());
    };
    let mut digits = Buffer::new();
    out.extend_from_slice(b" waived ")?;
    out.extend_from_slice(digits.format(id.0).as_bytes())?;
    out.extend_from_slice(b" until ")?;
    out.extend_from_slice(&date_digits(*day))?;
    Ok(())
}

/// The line that shows a finding, where it shows.
fn push_shown(alloc: Global, out: &mut Vec<u8>, told: &Told) -> Result<(), Memory>
    ensures { OnOk result (out.new.items ≡ out.old.items ++ shown_line told.now.demo) }
{
    match &told.demo {
        Some((demo, path, shown)) => push_demo(alloc, demo, path.as_bytes(), shown, out),
        None => Ok(()),
    }
}
