// Requests for waivers.
ghost use Rattle.std.specs.Prelude.{◌≡◌, ◌≤◌, ◌<◌, All, length, map, option_map, IfOk};
ghost use Rattle.desk_tables.specs.Limits.{MAX_BYTES, MAX_WAIVERS};
ghost use Rattle.desk_places.specs.Places.{sources_of};
ghost use Rattle.desk_tables.specs.Tables.{kept_of};
ghost use Rattle.desk_bodies.specs.Refusals.{conflict_with};
ghost use Rattle.desk_records.specs.Outcomes.{Told, outcome};
ghost use Rattle.desk_rulings.specs.Grants.{asked_in, grant, is_asked, refusal_line, refused_at, unfound, waive_at, waive_outcome, waiver_row};
ghost use Rattle.desk_rulings.specs.Index.{site_seen};
ghost use Rattle.desk_rulings.specs.Steps.{first_refusal};
ghost use Rattle.desk_rulings.specs.Rulings.{is_for, site_of, standing_in, verdict_of};

use crate::Ruled;
use crate::index::stands;
use crate::site::{Site, digest_of, site_in};
use desk_bodies::{conflict, id_body, refused_with};
use desk_dates::date_digits;
use desk_places::sources::Sources;
use desk_records::{Decision, kept_row};
use desk_requests::{Request, WaiverAsk};
use desk_rows::Row;
use desk_tables::{Change, Day, FileRow, Name, Tables, WaiverId, WaiverRow};
use itoa::Buffer;
use rtl_rule::rule::{Rule, waivable};
use source_file::SourceFile;
use std::alloc::Global;
use text_ground::memory::Memory;
use text_ground::text::Text;
use waiver_book::{MAX_TERM, WaiveFault};

// The files, as places are written of them.
fn sources_in<'r>(alloc: Global, files: &[&'r SourceFile]) -> Result<Sources<'r>, Memory>
    requires { All (λ file. length file.now.text ≤ MAX_BYTES) files.now }
    ensures { IfOk result (λ sources. sources_of sources ≡ map (λ file. file.now) files.now) }
{
    let mut sources = Sources::empty(alloc);
    for file in files {
        sources.push(*file)?;
    }
    Ok(sources)
}

// Whether a finding is the one that is asked for.
fn is_asked(
    alloc: Global,
    sources: &Sources<'_>,
    ask: &WaiverAsk,
    one: &Row,
) -> Result<bool, Memory>
    ensures { IfOk result (λ it. it ≡ is_asked (sources_of sources.now) ask.now one.now) }
{
    let code = one.finding.rule.row().code.as_bytes();
    let target = one.told.target.as_bytes();
    if code != ask.rule.row().code.as_bytes() || target != ask.target.as_bytes() {
        return Ok(false);
    }
    let mut place = Vec::new(alloc);
    sources.push_place(&mut place, one.finding.spot)?;
    Ok(place.as_slice() == ask.place.as_bytes())
}

// The site of a finding, where its file is kept.
fn site_of<'r>(rows: &[FileRow], files: &[&'r SourceFile], one: &'r Row) -> Option<Site<'r>>
    ensures { option_map site_seen result
        ≡ site_of rows.now (map (λ file. file.now) files.now) one.now }
{
    match files.get(one.finding.spot.file as usize) {
        Some(file) => site_in(one, *file, digest_of(rows, &file.name)),
        None => None,
    }
}

// The site of the first finding that is the one that is asked for.
fn asked_site<'r>(
    alloc: Global,
    rows: &[FileRow],
    ruled: &Ruled<'r>,
    ask: &WaiverAsk,
) -> Result<Option<Site<'r>>, Memory>
    requires { All (λ file. length file.now.text ≤ MAX_BYTES) ruled.now.files.now }
    ensures { IfOk result (λ site. option_map site_seen site ≡ asked_in rows.now
        (verdict_of ruled.now).files ask.now ruled.now.rows.now) }
{
    let sources = sources_in(alloc, ruled.files)?;
    for number in 0..ruled.rows.len() {
        let one = &ruled.rows[number];
        if is_asked(alloc, &sources, ask, one)? {
            return Ok(site_of(rows, ruled.files, one));
        }
    }
    Ok(None)
}

// Why a waiver of no finding isn't granted.
fn unfound(rule: Rule) -> WaiveFault
    ensures { result ≡ unfound rule }
{
    if waivable(rule) {
        return WaiveFault::NoSuchFinding;
    }
    WaiveFault::NotWaivable(rule)
}

// Why a waiver isn't granted, whatever waivers stand.
fn first_refusal(site: &Site<'_>, ask: &WaiverAsk, today: Day, who: &Name) -> Option<WaiveFault>
    ensures { result ≡ first_refusal (site_seen site.now) ask.now today who.now }
{
    if !waivable(site.rule) {
        return Some(WaiveFault::NotWaivable(site.rule));
    }
    let days = ask.last_day.number() - today.number();
    if days < 0 {
        return Some(WaiveFault::TermPast(ask.last_day));
    }
    if days > MAX_TERM {
        return Some(WaiveFault::TermTooLong(days as u32));
    }
    if ask.owner.as_bytes() == who.as_bytes() {
        return Some(WaiveFault::OwnerIsAsker);
    }
    None
}

// Whether a waiver is of the finding at a site, in a file with the same digest.
fn is_for(row: &WaiverRow, site: &Site<'_>) -> bool
    ensures { result ≡ is_for (site_seen site.now) row.now }
{
    row.rule.as_bytes() == site.rule.row().code.as_bytes()
        && row.at == site.at
        && row.target.as_bytes() == site.target.as_bytes()
        && row.file.as_bytes() == site.file.as_bytes()
        && row.digest.as_slice() == site.digest.as_slice()
}

// The waiver that stands for a site.
fn standing_in(rows: &[WaiverRow], site: &Site<'_>, today: Day) -> Option<(WaiverId, Day)>
    ensures { result ≡ standing_in today rows.now (site_seen site.now) }
{
    let row = rows
        .iter()
        .find(|row| stands(row, today) && is_for(row, site))?;
    Some((row.id, row.last_day))
}

// Why a waiver of the finding at a site isn't granted.
fn refused_at(
    site: &Site<'_>,
    ask: &WaiverAsk,
    request: &Request,
    today: Day,
    rows: &[WaiverRow],
) -> Option<WaiveFault>
    ensures { result ≡ refused_at (site_seen site.now) ask.now request.now today rows.now }
{
    let first = first_refusal(site, ask, today, &request.user);
    if first.is_some() {
        return first;
    }
    match standing_in(rows, site, today) {
        Some((id, _)) => Some(WaiveFault::Already(id)),
        None => None,
    }
}

fn refused(alloc: Global, fault: WaiveFault) -> Result<Decision, Memory>
    ensures { IfOk result (λ made. outcome made ≡ Told (conflict_with (refusal_line fault))) }
{
    let reply = match fault {
        WaiveFault::NotWaivable(rule) => {
            refused_with(alloc, b"NotWaivable", rule.row().code.as_bytes())?
        }
        WaiveFault::NoSuchFinding => conflict(alloc, b"NoSuchFinding")?,
        WaiveFault::TermPast(day) => refused_with(alloc, b"TermPast", &date_digits(day))?,
        WaiveFault::TermTooLong(days) => {
            let mut digits = Buffer::new();
            refused_with(
                alloc,
                b"TermTooLong",
                digits.format(u64::from(days)).as_bytes(),
            )?
        }
        WaiveFault::OwnerIsAsker => conflict(alloc, b"OwnerIsAsker")?,
        WaiveFault::Already(id) => {
            let mut digits = Buffer::new();
            refused_with(alloc, b"Already", digits.format(u64::from(id.0)).as_bytes())?
        }
        WaiveFault::Memory => return Err(Memory),
    };
    Ok(Decision::Tells(reply))
}

// The next row of the waivers, where there are so many.
fn waiver_row(
    alloc: Global,
    site: &Site<'_>,
    ask: &WaiverAsk,
    request: &Request,
    rows: &[WaiverRow],
) -> Result<WaiverRow, Memory>
    requires { length rows.now < MAX_WAIVERS }
    ensures { IfOk result (λ row.
        row ≡ waiver_row (site_seen site.now) ask.now request.now rows.now) }
{
    Ok(WaiverRow {
        id: WaiverId(rows.len() as u32 + 1),
        top: Text::from_bytes(alloc, ask.top.as_bytes())?,
        rule: Text::from_bytes(alloc, site.rule.row().code.as_bytes())?,
        target: Text::from_bytes(alloc, site.target.as_bytes())?,
        file: Text::from_bytes(alloc, site.file.as_bytes())?,
        at: site.at,
        digest: site.digest,
        owner: ask.owner.copied(),
        asker: request.user.copied(),
        reason: Text::from_bytes(alloc, ask.reason.as_bytes())?,
        last_day: ask.last_day,
        ended: None,
    })
}

fn grant(alloc: Global, row: WaiverRow, request: &Request) -> Result<Decision, Memory>
    ensures { IfOk result (λ made. outcome made ≡ grant row request.now) }
{
    let body = id_body(alloc, row.id.0)?;
    let reply = kept_row(alloc, request, 201, body)?;
    Ok(Decision::Makes(Change::Grant(row, reply)))
}

// What a request for a waiver of the finding at a site comes to.
fn waive_at(
    alloc: Global,
    site: Option<Site<'_>>,
    ask: &WaiverAsk,
    request: &Request,
    today: Day,
    rows: &[WaiverRow],
) -> Result<Decision, Memory>
    requires { length rows.now < MAX_WAIVERS }
    ensures { IfOk result (λ made. outcome made
        ≡ waive_at (option_map site_seen site.entry) ask.now request.now today rows.now) }
{
    let Some(site) = site else {
        return refused(alloc, unfound(ask.rule));
    };
    match refused_at(&site, ask, request, today, rows) {
        Some(fault) => refused(alloc, fault),
        None => {
            let row = waiver_row(alloc, &site, ask, request, rows)?;
            grant(alloc, row, request)
        }
    }
}

/// What a request for a waiver comes to on a day, with what the rules say of its module: why it
/// isn't granted, or its row with the reply that is kept. The table of waivers has room.
pub fn waive(
    alloc: Global,
    ruled: &Ruled<'_>,
    tables: &Tables,
    request: &Request,
    ask: &WaiverAsk,
    today: Day,
) -> Result<Decision, Memory>
    requires short { All (λ file. length file.now.text ≤ MAX_BYTES) ruled.now.files.now }
    requires room { length (kept_of tables.now).waivers < MAX_WAIVERS }
    ensures { IfOk result (λ made. outcome made ≡ waive_outcome ask.now request.now today
        (kept_of tables.now) (verdict_of ruled.now)) }
{
    let site = asked_site(alloc, &tables.files, ruled, ask)?;
    waive_at(alloc, site, ask, request, today, &tables.waivers)
}
