// The bodies of replies on sign-offs.
ghost use Rattle.std.specs.Prelude.{◌≡◌, ◌++◌, codes, flat_map, IfOk, OnOk};
ghost use Rattle.desk_bodies.specs.Bodies.{array, granted_text, id_text, listed, signoff_end, signoff_front, signoff_text, with_day};

use crate::files::{push_count, push_count_or_null, push_digest, push_text};
use desk_dates::date_digits;
use desk_json::push_bytes;
use desk_tables::{Day, SignOffRow};
use std::alloc::Global;
use text_ground::memory::Memory;
use text_ground::text::Text;

// Writes what leads to a day, and the day.
#[tactic(auto, unfolding(crate::specs::Bodies::with_day))]
pub(crate) fn push_day(out: &mut Vec<u8>, lead: &[u8], day: Day) -> Result<(), Memory>
    ensures { OnOk result (out.new.items ≡ out.old.items ++ with_day lead.now day) }
{
    push_bytes(out, lead)?;
    push_bytes(out, b"\"")?;
    push_bytes(out, &date_digits(day))?;
    push_bytes(out, b"\"")
}

/// What is told of a waiver that was granted or revoked: its number.
#[tactic(auto, unfolding(crate::specs::Bodies::id_text))]
pub fn id_body(alloc: Global, id: u32) -> Result<Vec<u8>, Memory>
    ensures { IfOk result (λ body. body.items ≡ id_text id) }
{
    let mut out = Vec::new(alloc);
    push_count(&mut out, b"{\"id\":", u64::from(id))?;
    push_bytes(&mut out, b"}")?;
    Ok(out)
}

/// What is told of a module that was signed off: the word of the grade, and the number.
#[tactic(auto, unfolding(crate::specs::Bodies::granted_text))]
pub fn granted_body(alloc: Global, grade: &Text, id: u32) -> Result<Vec<u8>, Memory>
    ensures { IfOk result (λ body. body.items ≡ granted_text grade.now id) }
{
    let mut out = Vec::new(alloc);
    push_text(&mut out, b"{\"grade\":", grade.as_bytes())?;
    push_count(&mut out, b",\"id\":", u64::from(id))?;
    push_bytes(&mut out, b"}")?;
    Ok(out)
}

#[tactic(auto, unfolding(crate::specs::Bodies::signoff_front))]
fn push_front(out: &mut Vec<u8>, row: &SignOffRow) -> Result<(), Memory>
    ensures { OnOk result (out.new.items ≡ out.old.items ++ signoff_front row.now) }
{
    push_day(out, b"{\"day\":", row.day)?;
    push_count_or_null(out, b",\"edition\":", row.edition.map(u32::from))?;
    push_text(out, b",\"grade\":", row.grade.as_bytes())?;
    push_count(out, b",\"id\":", u64::from(row.id))
}

#[tactic(auto, unfolding(crate::specs::Bodies::signoff_end))]
fn push_end(out: &mut Vec<u8>, row: &SignOffRow) -> Result<(), Memory>
    ensures { OnOk result (out.new.items ≡ out.old.items ++ signoff_end row.now) }
{
    push_digest(out, b",\"reach\":", &row.reach)?;
    push_text(out, b",\"top\":", row.top.as_bytes())?;
    push_text(out, b",\"who\":", row.who.as_bytes())?;
    push_bytes(out, b"}")
}

fn push_signoff(out: &mut Vec<u8>, row: &SignOffRow) -> Result<(), Memory>
    ensures { OnOk result (out.new.items ≡ out.old.items ++ signoff_text row.now) }
{
    push_front(out, row)?;
    push_end(out, row)
}

// Writes a sign-off behind a comma.
fn push_next(out: &mut Vec<u8>, row: &SignOffRow) -> Result<(), Memory>
    ensures { OnOk result (out.new.items ≡ out.old.items ++ (codes "," ++ signoff_text row.now)) }
{
    push_bytes(out, b",")?;
    push_signoff(out, row)
}

// Writes sign-offs, each behind a comma.
fn push_others(out: &mut Vec<u8>, rows: &[SignOffRow]) -> Result<(), Memory>
    ensures { OnOk result (out.new.items ≡ out.old.items
        ++ flat_map (λ other. codes "," ++ signoff_text other) rows.now) }
{
    for row in rows {
        push_next(out, row)?;
    }
    Ok(())
}

// Writes sign-offs, with commas between.
#[tactic(auto, unfolding(crate::specs::Bodies::listed))]
fn push_listed(out: &mut Vec<u8>, rows: &[SignOffRow]) -> Result<(), Memory>
    ensures { OnOk result (out.new.items ≡ out.old.items ++ listed signoff_text rows.now) }
{
    match rows {
        [] => Ok(()),
        [first, rest @ ..] => {
            push_signoff(out, first)?;
            push_others(out, rest)
        }
    }
}

/// The list of sign-offs.
#[tactic(auto, unfolding(crate::specs::Bodies::array))]
pub fn signoffs_body(alloc: Global, rows: &[SignOffRow]) -> Result<Vec<u8>, Memory>
    ensures { IfOk result (λ body. body.items ≡ array signoff_text rows.now) }
{
    let mut out = Vec::new(alloc);
    push_bytes(&mut out, b"[")?;
    push_listed(&mut out, rows)?;
    push_bytes(&mut out, b"]")?;
    Ok(out)
}
