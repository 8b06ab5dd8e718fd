// Requests to revoke a waiver.
ghost use Rattle.std.specs.Prelude.{◌≡◌, find, option_copied, IfOk};
ghost use Rattle.desk_bodies.specs.Refusals.{conflict_with, value_line};
ghost use Rattle.desk_tables.specs.Changes.{has_id};
ghost use Rattle.waiver_book.specs.Waivers.{end_by};
ghost use Rattle.desk_records.specs.Machine.{revocation, revoke_outcome, revoke_refusal};
ghost use Rattle.desk_records.specs.Outcomes.{Told, outcome};

use crate::Decision;
use crate::files::kept_row;
use desk_bodies::{id_body, not_found, refused_with};
use desk_dates::date_digits;
use desk_requests::Request;
use desk_tables::{Change, Day, Name, WaiverId, WaiverRow};
use std::alloc::Global;
use text_ground::memory::Memory;
use waiver_book::RevokeFault;

// The waiver of a number.
fn waiver_of(waivers: &[WaiverRow], id: WaiverId) -> Option<&WaiverRow>
    ensures { option_copied result ≡ find (has_id id) waivers.now }
{
    waivers.iter().find(|row| row.id.0 == id.0)
}

// The day of its revocation, or its last day where that is past.
fn end_of(row: &WaiverRow, today: Day) -> Option<Day>
    ensures { result ≡ end_by today row.now.last_day row.now.ended }
{
    if row.ended.is_some() {
        return row.ended;
    }
    if row.last_day.number() < today.number() {
        return Some(row.last_day);
    }
    None
}

// Why a waiver isn't revoked by this user on this day.
fn revocation(row: Option<&WaiverRow>, who: &Name, today: Day) -> Option<RevokeFault>
    ensures { result ≡ revocation (option_copied row.entry) who.now today }
{
    let Some(row) = row else {
        return Some(RevokeFault::NoSuchWaiver);
    };
    if row.owner.as_bytes() != who.as_bytes() {
        return Some(RevokeFault::NotOwner(row.owner.copied()));
    }
    match end_of(row, today) {
        Some(day) => Some(RevokeFault::Ended(day)),
        None => None,
    }
}

fn refused(alloc: Global, word: &[u8], value: &[u8]) -> Result<Decision, Memory>
    ensures { IfOk result (λ made. outcome made
        ≡ Told (conflict_with (value_line word.now value.now))) }
{
    Ok(Decision::Tells(refused_with(alloc, word, value)?))
}

fn revoke_refusal(alloc: Global, fault: &RevokeFault) -> Result<Decision, Memory>
    ensures { IfOk result (λ made. outcome made ≡ revoke_refusal fault.now) }
{
    match fault {
        RevokeFault::NoSuchWaiver => Ok(Decision::Tells(not_found(alloc)?)),
        RevokeFault::NotOwner(owner) => refused(alloc, b"NotOwner", owner.as_bytes()),
        RevokeFault::Ended(day) => refused(alloc, b"Ended", &date_digits(*day)),
    }
}

// A request to revoke a waiver: why it isn't revoked, or that it ends today.
pub(crate) fn revoke_outcome(
    alloc: Global,
    id: WaiverId,
    request: &Request,
    today: Day,
    waivers: &[WaiverRow],
) -> Result<Decision, Memory>
    ensures { IfOk result (λ made. outcome made
        ≡ revoke_outcome (revocation (find (has_id id) waivers.now) request.now.user today)
        id request.now today) }
{
    match revocation(waiver_of(waivers, id), &request.user, today) {
        Some(fault) => revoke_refusal(alloc, &fault),
        None => {
            let body = id_body(alloc, id.0)?;
            let reply = kept_row(alloc, request, 200, body)?;
            Ok(Decision::Makes(Change::Revoke(id, today, reply)))
        }
    }
}
