// Requests for files, lists and kept replies.
ghost use Rattle.std.specs.Prelude.{◌≡◌, bytes_eq, find, option_copied, IfOk};
ghost use Rattle.desk_tables.specs.Changes.{has_name};
ghost use Rattle.desk_tables.specs.Tables.{kept_of};
ghost use Rattle.desk_records.specs.Machine.{by_tables, drop_outcome, file_answer, file_row, is_to, json_answer, kept_row, put_outcome, repeat_outcome, text_answer};
ghost use Rattle.desk_records.specs.Outcomes.{outcome};

use crate::Decision;
use crate::revoke::revoke_outcome;
use crate::settle::reply_in;
use desk_bodies::{
    conflict, edited_body, file_body, files_body, name_body, not_found, signoffs_body, waivers_body,
};
use desk_requests::{Ask, BodyKind, Reply, Request};
use desk_tables::{Change, Day, FileRow, ReplyRow, Tables};
use sha2::{Digest, Sha256};
use std::alloc::Global;
use text_ground::memory::Memory;
use text_ground::text::Text;

fn is_to(row: &ReplyRow, user: &[u8], label: &[u8]) -> bool
    ensures { result ≡ is_to user.now label.now row.now }
{
    row.user.as_bytes() == user && row.request.as_bytes() == label
}

// The reply that is kept for a user's request of this name.
pub(crate) fn kept_reply<'t>(
    replies: &'t [ReplyRow],
    user: &[u8],
    label: &[u8],
) -> Option<&'t ReplyRow>
    ensures { option_copied result ≡ find (is_to user.now label.now) replies.now }
{
    replies.iter().find(|row| is_to(row, user, label))
}

// The file of a name.
fn file_of<'t>(files: &'t [FileRow], name: &Text) -> Option<&'t FileRow>
    ensures { option_copied result ≡ find (has_name name.now) files.now }
{
    files
        .iter()
        .find(|row| row.name.as_bytes() == name.as_bytes())
}

fn is_same_digest(row: &ReplyRow, digest: &[u8]) -> bool
    ensures { result ≡ bytes_eq row.now.digest digest.now }
{
    row.digest.as_slice() == digest
}

// A request that comes again, or another one that has its name.
pub(crate) fn repeat_outcome(
    alloc: Global,
    row: &ReplyRow,
    digest: &[u8],
) -> Result<Decision, Memory>
    ensures { IfOk result (λ made. outcome made ≡ repeat_outcome row.now digest.now) }
{
    if !is_same_digest(row, digest) {
        return Ok(Decision::Tells(conflict(alloc, b"RequestIdReused")?));
    }
    Ok(Decision::Tells(reply_in(alloc, row)?))
}

/// The reply to a request with this status and this JSON, as it is kept.
pub fn kept_row(
    alloc: Global,
    request: &Request,
    status: u16,
    body: Vec<u8>,
) -> Result<ReplyRow, Memory>
    ensures { IfOk result (λ row. row ≡ kept_row request.now status body.items) }
{
    let label = Text::from_bytes(alloc, request.label())?;
    Ok(ReplyRow {
        user: request.user.copied(),
        request: label,
        digest: request.digest,
        status,
        body: Text::from_vec(body),
    })
}

// The file that a user puts.
fn file_row(alloc: Global, name: &Text, text: &Text, request: &Request) -> Result<FileRow, Memory>
    ensures { IfOk result (λ row. row ≡ file_row name.now text.now request.now.user) }
{
    let name = Text::from_bytes(alloc, name.as_bytes())?;
    let copy = Text::from_bytes(alloc, text.as_bytes())?;
    Ok(FileRow {
        name,
        text: copy,
        digest: Sha256::digest(text.as_bytes()),
        editor: request.user.copied(),
    })
}

fn put_outcome(
    alloc: Global,
    name: &Text,
    text: &Text,
    request: &Request,
) -> Result<Decision, Memory>
    ensures { IfOk result (λ made. outcome made
        ≡ put_outcome (file_row name.now text.now request.now.user) request.now) }
{
    let row = file_row(alloc, name, text, request)?;
    let body = file_body(alloc, &row)?;
    let reply = kept_row(alloc, request, 200, body)?;
    Ok(Decision::Makes(Change::PutFile(row, reply)))
}

/// It is answered with these bytes of JSON.
pub fn json_answer(body: Vec<u8>) -> Decision
    ensures { outcome result ≡ json_answer body.items }
{
    Decision::Tells(Reply {
        status: 200,
        kind: BodyKind::Json,
        body,
    })
}

fn file_answer(alloc: Global, files: &[FileRow], name: &Text) -> Result<Decision, Memory>
    ensures { IfOk result (λ made.
        outcome made ≡ file_answer (find (has_name name.now) files.now)) }
{
    match file_of(files, name) {
        None => Ok(Decision::Tells(not_found(alloc)?)),
        Some(row) => Ok(json_answer(edited_body(alloc, row)?)),
    }
}

// The text of a file, as it is.
fn text_answer(alloc: Global, files: &[FileRow], name: &Text) -> Result<Decision, Memory>
    ensures { IfOk result (λ made.
        outcome made ≡ text_answer (find (has_name name.now) files.now)) }
{
    match file_of(files, name) {
        None => Ok(Decision::Tells(not_found(alloc)?)),
        Some(row) => Ok(Decision::Tells(Reply {
            status: 200,
            kind: BodyKind::Plain,
            body: Vec::from_slice(alloc, row.text.as_bytes())?,
        })),
    }
}

fn drop_outcome(
    alloc: Global,
    files: &[FileRow],
    name: &Text,
    request: &Request,
) -> Result<Decision, Memory>
    ensures { IfOk result (λ made. outcome made
        ≡ drop_outcome (find (has_name name.now) files.now) name.now request.now) }
{
    match file_of(files, name) {
        None => Ok(Decision::Tells(not_found(alloc)?)),
        Some(_) => {
            let body = name_body(alloc, name)?;
            let reply = kept_row(alloc, request, 200, body)?;
            let name = Text::from_bytes(alloc, name.as_bytes())?;
            Ok(Decision::Makes(Change::DropFile(name, reply)))
        }
    }
}

// What a request comes to by itself, where the tables alone settle it.
pub(crate) fn by_tables(
    alloc: Global,
    request: &Request,
    today: Day,
    tables: &Tables,
) -> Result<Decision, Memory>
    ensures { IfOk result (λ made. outcome made
        ≡ by_tables request.now.ask request.now today (kept_of tables.now)) }
{
    match &request.ask {
        Ask::PutFile(name, text) => put_outcome(alloc, name, text, request),
        Ask::GetFile(name) => file_answer(alloc, &tables.files, name),
        Ask::FileText(name) => text_answer(alloc, &tables.files, name),
        Ask::Files => Ok(json_answer(files_body(alloc, &tables.files)?)),
        Ask::DropFile(name) => drop_outcome(alloc, &tables.files, name, request),
        Ask::SignOffs => Ok(json_answer(signoffs_body(alloc, &tables.signoffs)?)),
        Ask::Waivers => Ok(json_answer(waivers_body(alloc, &tables.waivers)?)),
        Ask::Revoke(id) => revoke_outcome(alloc, *id, request, today, &tables.waivers),
        Ask::Ruling(_) | Ask::Reach(_) | Ask::SignOff(_) | Ask::Waive(_) => Ok(Decision::Open),
    }
}
