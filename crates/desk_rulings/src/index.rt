// Waivers that stand, by what they are of.
ghost use Rattle.std.specs.Prelude.{◌≡◌, ◌<◌, ◌^◌, ◌++◌, option_map, IfOk, OnOk};
ghost use Rattle.std.specs.Option.{option_and_then};
ghost use Rattle.desk_rulings.specs.Index.{IsIndex, ended, row_subject, site_seen, site_subject, subject};
ghost use Rattle.desk_rulings.specs.Rulings.{standing_in, stands};

use crate::site::Site;
use desk_tables::{Day, Digest, WaiverId, WaiverRow};
use name_map::NameMap;
use std::alloc::Global;
use text_ground::memory::Memory;
use text_ground::text::Text;

// The waivers that stand on a day, each with its last day.
pub(crate) type Index = NameMap<(WaiverId, Day)>;

// Writes a text so that its end can be told.
fn push_ended(out: &mut Vec<u8>, text: &[u8]) -> Result<(), Memory>
    ensures { OnOk result (out.new.items ≡ out.old.items ++ ended text.now) }
{
    for byte in text {
        out.push(1)?;
        out.push(*byte)?;
    }
    out.push(0)?;
    Ok(())
}

// What a waiver or a finding is of, as one text.
fn subject(
    alloc: Global,
    rule: &[u8],
    target: &Text,
    file: &Text,
    digest: &Digest,
    at: u32,
) -> Result<Text, Memory>
    ensures { IfOk result (λ text. text ≡ subject rule.now target.now file.now digest.now at) }
{
    let mut out = Vec::new(alloc);
    push_ended(&mut out, rule)?;
    push_ended(&mut out, target.as_bytes())?;
    push_ended(&mut out, file.as_bytes())?;
    push_ended(&mut out, digest)?;
    out.extend_from_slice(&at.to_le_bytes())?;
    Ok(Text::from_vec(out))
}

fn row_subject(alloc: Global, row: &WaiverRow) -> Result<Text, Memory>
    ensures same { IfOk result (λ text. text ≡ row_subject row.now) }
    ensures small { row.now.at < 2 ^ 32 }
{
    let rule = row.rule.as_bytes();
    subject(alloc, rule, &row.target, &row.file, &row.digest, row.at)
}

pub(crate) fn site_subject(alloc: Global, site: &Site<'_>) -> Result<Text, Memory>
    ensures same { IfOk result (λ text. text ≡ site_subject (site_seen site.now)) }
    ensures small { site.now.at < 2 ^ 32 }
{
    let rule = site.rule.row().code.as_bytes();
    subject(alloc, rule, site.target, site.file, &site.digest, site.at)
}

pub(crate) fn stands(row: &WaiverRow, today: Day) -> bool
    ensures { result ≡ stands today row.now }
{
    row.ended.is_none() && today.number() <= row.last_day.number()
}

// The waivers that stand on a day.
pub(crate) fn index_of(alloc: Global, rows: &[WaiverRow], today: Day) -> Result<Index, Memory>
    ensures { IfOk result (λ index. IsIndex index today rows.now) }
{
    let mut index = NameMap::new(alloc);
    for row in rows {
        if stands(row, today) {
            let subject = row_subject(alloc, row)?;
            index.enter(&subject, (row.id, row.last_day))?;
        }
    }
    Ok(index)
}
