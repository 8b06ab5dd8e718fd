// The bodies of replies on waivers.
ghost use Rattle.std.specs.Prelude.{◌≡◌, ◌++◌, codes, flat_map, IfOk, OnOk};
ghost use Rattle.desk_bodies.specs.Bodies.{array, listed, waiver_end, waiver_front, waiver_middle, waiver_text, with_day_or_null};

use crate::files::{push_count, push_digest, push_text};
use crate::signoffs::push_day;
use desk_json::push_bytes;
use desk_tables::{Day, WaiverRow};
use std::alloc::Global;
use text_ground::memory::Memory;

// Writes what leads to a day, and the day or `null`.
#[tactic(auto, unfolding(crate::specs::Bodies::with_day_or_null))]
fn push_day_or_null(out: &mut Vec<u8>, lead: &[u8], day: Option<Day>) -> Result<(), Memory>
    ensures { OnOk result (out.new.items ≡ out.old.items ++ with_day_or_null lead.now day) }
{
    match day {
        Some(day) => push_day(out, lead, day),
        None => {
            push_bytes(out, lead)?;
            push_bytes(out, b"null")
        }
    }
}

#[tactic(auto, unfolding(crate::specs::Bodies::waiver_front))]
fn push_front(out: &mut Vec<u8>, row: &WaiverRow) -> Result<(), Memory>
    ensures { OnOk result (out.new.items ≡ out.old.items ++ waiver_front row.now) }
{
    push_text(out, b"{\"asker\":", row.asker.as_bytes())?;
    push_count(out, b",\"at\":", u64::from(row.at))?;
    push_digest(out, b",\"digest\":", &row.digest)?;
    push_day_or_null(out, b",\"ended\":", row.ended)?;
    push_text(out, b",\"file\":", row.file.as_bytes())
}

#[tactic(auto, unfolding(crate::specs::Bodies::waiver_middle))]
fn push_middle(out: &mut Vec<u8>, row: &WaiverRow) -> Result<(), Memory>
    ensures { OnOk result (out.new.items ≡ out.old.items ++ waiver_middle row.now) }
{
    push_count(out, b",\"id\":", u64::from(row.id.0))?;
    push_day(out, b",\"last_day\":", row.last_day)?;
    push_text(out, b",\"owner\":", row.owner.as_bytes())?;
    push_text(out, b",\"reason\":", row.reason.as_bytes())
}

#[tactic(auto, unfolding(crate::specs::Bodies::waiver_end))]
fn push_end(out: &mut Vec<u8>, row: &WaiverRow) -> Result<(), Memory>
    ensures { OnOk result (out.new.items ≡ out.old.items ++ waiver_end row.now) }
{
    push_text(out, b",\"rule\":", row.rule.as_bytes())?;
    push_text(out, b",\"target\":", row.target.as_bytes())?;
    push_text(out, b",\"top\":", row.top.as_bytes())?;
    push_bytes(out, b"}")
}

fn push_waiver(out: &mut Vec<u8>, row: &WaiverRow) -> Result<(), Memory>
    ensures { OnOk result (out.new.items ≡ out.old.items ++ waiver_text row.now) }
{
    push_front(out, row)?;
    push_middle(out, row)?;
    push_end(out, row)
}

// Writes a waiver behind a comma.
fn push_next(out: &mut Vec<u8>, row: &WaiverRow) -> Result<(), Memory>
    ensures { OnOk result (out.new.items ≡ out.old.items ++ (codes "," ++ waiver_text row.now)) }
{
    push_bytes(out, b",")?;
    push_waiver(out, row)
}

// Writes waivers, each behind a comma.
fn push_others(out: &mut Vec<u8>, rows: &[WaiverRow]) -> Result<(), Memory>
    ensures { OnOk result (out.new.items ≡ out.old.items
        ++ flat_map (λ other. codes "," ++ waiver_text other) rows.now) }
{
    for row in rows {
        push_next(out, row)?;
    }
    Ok(())
}

// Writes waivers, with commas between.
#[tactic(auto, unfolding(crate::specs::Bodies::listed))]
fn push_listed(out: &mut Vec<u8>, rows: &[WaiverRow]) -> Result<(), Memory>
    ensures { OnOk result (out.new.items ≡ out.old.items ++ listed waiver_text rows.now) }
{
    match rows {
        [] => Ok(()),
        [first, rest @ ..] => {
            push_waiver(out, first)?;
            push_others(out, rest)
        }
    }
}

/// The list of waivers.
#[tactic(auto, unfolding(crate::specs::Bodies::array))]
pub fn waivers_body(alloc: Global, rows: &[WaiverRow]) -> Result<Vec<u8>, Memory>
    ensures { IfOk result (λ body. body.items ≡ array waiver_text rows.now) }
{
    let mut out = Vec::new(alloc);
    push_bytes(&mut out, b"[")?;
    push_listed(&mut out, rows)?;
    push_bytes(&mut out, b"]")?;
    Ok(out)
}
