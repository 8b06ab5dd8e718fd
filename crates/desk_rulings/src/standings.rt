// Which waivers stand for the findings of a module.
ghost use Rattle.std.specs.Prelude.{◌≡◌, ℤ, List, map, option_map, IfOk};
ghost use Rattle.std.specs.Option.{option_and_then};
ghost use Rattle.desk_tables.specs.Tables.{kept_of};
ghost use Rattle.desk_tables.specs.declared.rows.FileRow.{FileRow};
ghost use Rattle.desk_tables.specs.declared.rows.WaiverRow.{WaiverRow};
ghost use Rattle.desk_rows.specs.Rows.{waived};
ghost use Rattle.desk_rulings.specs.Index.{IsIndex, site_seen};
ghost use Rattle.desk_rulings.specs.Rulings.{digest_of, is_open, left_of, site_of, standing_in, standing_of, verdict_of};

use crate::Ruled;
use crate::index::{Index, index_of, site_subject};
use crate::site::{Site, digests_of, site_in};
use desk_rows::{Row, WaivedRow};
use desk_tables::{Day, Digest, Tables, WaiverId};
use rtl_rule::rule::first_grade;
use source_file::SourceFile;
use std::alloc::Global;
use text_ground::memory::Memory;

// The site of a finding, where the files have these digests.
fn site_of<'r>(
    files: &[&'r SourceFile],
    digests: &[Option<Digest>],
    one: &'r Row,
) -> Option<Site<'r>>
    ensures { (rows : List FileRow)
        → digests.now ≡ map (λ file. digest_of rows file.now.name) files.now
        → option_map site_seen result
        ≡ site_of rows (map (λ file. file.now) files.now) one.now }
{
    let number = one.finding.spot.file as usize;
    let file = *files.get(number)?;
    match digests.get(number) {
        Some(digest) => site_in(one, file, *digest),
        None => None,
    }
}

// The waiver that stands for a site.
fn standing_at(
    alloc: Global,
    index: &Index,
    site: Option<Site<'_>>,
) -> Result<Option<(WaiverId, Day)>, Memory>
    ensures { (today : ℤ) (rows : List WaiverRow) → IsIndex index.now today rows
        → IfOk result (λ found.
        found ≡ option_and_then (standing_in today rows) (option_map site_seen site.entry)) }
{
    match site {
        None => Ok(None),
        Some(site) => Ok(index.find(&site_subject(alloc, &site)?)),
    }
}

/// Each finding with the waiver that stands on a day, and its last day: the least number of one
/// that is of the finding and of its file's text as it is, isn't revoked, and whose last day isn't
/// past.
pub fn standing<'r>(
    alloc: Global,
    ruled: &Ruled<'r>,
    tables: &Tables,
    today: Day,
) -> Result<Vec<WaivedRow<'r>>, Memory>
    ensures { IfOk result (λ found.
        map waived found.items ≡ standing_of today (kept_of tables.now) (verdict_of ruled.now)) }
{
    let index = index_of(alloc, &tables.waivers, today)?;
    let digests = digests_of(alloc, &tables.files, ruled.files)?;
    let mut found = Vec::new(alloc);
    for number in 0..ruled.rows.len() {
        let row = &ruled.rows[number];
        let site = site_of(ruled.files, &digests, row);
        let waiver = standing_at(alloc, &index, site)?;
        match found.push(WaivedRow { row, waiver }) {
            Ok(()) => {}
            Err(_) => return Err(Memory),
        }
    }
    Ok(found)
}

fn is_open(one: &WaivedRow<'_>) -> bool
    ensures { result ≡ is_open (waived one.now) }
{
    first_grade(one.row.finding.rule) && one.waiver.is_none()
}

/// How many findings of the first grade have no waiver.
#[tactic(auto, using(crate::proofs::Loops::left_mapped))]
pub fn left(rows: &[WaivedRow<'_>]) -> usize
    ensures { result ≡ left_of (map waived rows.now) }
{
    rows.iter().filter(|one| is_open(one)).count()
}
