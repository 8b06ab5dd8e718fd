// Changes of tables that have room for them, which take no memory.
ghost use Rattle.std.specs.Prelude.{◌≡◌, ◌<◌, ◌∷◌, ◌++◌, [], position, vec_len, vec_capacity, IfOk, OnOk};
ghost use Rattle.desk_requests.specs.Replies.{said};
ghost use Rattle.desk_records.specs.Outcomes.{kept_said};
ghost use Rattle.desk_tables.specs.Changes.{changed, has_id, has_name, reply_of, with_end, with_file, with_reply, without_file};
ghost use Rattle.desk_tables.specs.Tables.{kept_of};
ghost use Rattle.desk_records.specs.Room.{HasRoom};

use desk_requests::{BodyKind, Reply};
use desk_tables::{Change, Day, FileRow, ReplyRow, SignOffRow, Tables, WaiverId, WaiverRow};
use std::alloc::Global;
use text_ground::memory::Memory;
use text_ground::text::Text;

// Makes room for one row more of each table. The rows stay.
fn make_room(tables: &mut Tables) -> Result<(), Memory>
    ensures room { OnOk result (HasRoom tables.new) }
    ensures same { kept_of tables.new ≡ kept_of tables.old }
{
    tables.files.reserve(1)?;
    tables.waivers.reserve(1)?;
    tables.signoffs.reserve(1)?;
    tables.replies.reserve(1)?;
    Ok(())
}

// Puts a row behind all others, where there is room for it.
fn append<R: Drop>(rows: &mut Vec<R>, row: R)
    requires { vec_len rows.old < vec_capacity rows.old }
    ensures { rows.new.items ≡ rows.old.items ++ row ∷ [] }
{
    if let Err(failed) = rows.push(row) {
        drop(failed);
    }
}

fn place_of_file(files: &[FileRow], name: &Text) -> Option<usize>
    ensures { result ≡ position (has_name name.now) files.now }
{
    files
        .iter()
        .position(|row| row.name.as_bytes() == name.as_bytes())
}

fn put_file(files: &mut Vec<FileRow>, row: FileRow)
    requires { vec_len files.old < vec_capacity files.old }
    ensures { files.new.items ≡ with_file row files.old.items }
{
    match place_of_file(files, &row.name) {
        None => append(files, row),
        Some(place) => files[place] = row,
    }
}

fn drop_file(files: &mut Vec<FileRow>, name: &Text)
    ensures { files.new.items ≡ without_file name.now files.old.items }
{
    files.retain(|row| row.name.as_bytes() != name.as_bytes());
}

fn place_of_waiver(waivers: &[WaiverRow], id: WaiverId) -> Option<usize>
    ensures { result ≡ position (has_id id) waivers.now }
{
    waivers.iter().position(|row| row.id.0 == id.0)
}

fn end_waiver(waivers: &mut Vec<WaiverRow>, id: WaiverId, day: Day)
    ensures { waivers.new.items ≡ with_end id day waivers.old.items }
{
    if let Some(place) = place_of_waiver(waivers, id) {
        waivers[place].ended = Some(day);
    }
}

// The reply that a change keeps.
fn reply_of(change: &Change) -> &ReplyRow
    ensures { result.now ≡ reply_of change.now }
{
    match change {
        Change::PutFile(_, reply) => reply,
        Change::DropFile(_, reply) => reply,
        Change::Grant(_, reply) => reply,
        Change::Revoke(_, _, reply) => reply,
        Change::SignOff(_, reply) => reply,
    }
}

// The reply that is kept in this row.
pub(crate) fn reply_in(alloc: Global, row: &ReplyRow) -> Result<Reply, Memory>
    ensures { IfOk result (λ reply. said reply ≡ kept_said row.now) }
{
    Ok(Reply {
        status: row.status,
        kind: BodyKind::Json,
        body: Vec::from_slice(alloc, row.body.as_bytes())?,
    })
}

// The reply that a change keeps, and room for its rows. The rows stay.
pub(crate) fn ready(alloc: Global, tables: &mut Tables, change: &Change) -> Result<Reply, Memory>
    ensures reply { IfOk result (λ reply. said reply ≡ kept_said (reply_of change.now)) }
    ensures room { OnOk result (HasRoom tables.new) }
    ensures same { kept_of tables.new ≡ kept_of tables.old }
{
    let reply = reply_in(alloc, reply_of(change))?;
    make_room(tables)?;
    Ok(reply)
}

// Does a change whole. It takes no memory.
pub(crate) fn settle(tables: &mut Tables, change: Change)
    requires { HasRoom tables.old }
    ensures { kept_of tables.new ≡ changed change (kept_of tables.old) }
{
    match change {
        Change::PutFile(row, reply) => {
            append(&mut tables.replies, reply);
            put_file(&mut tables.files, row);
        }
        Change::DropFile(name, reply) => {
            append(&mut tables.replies, reply);
            drop_file(&mut tables.files, &name);
        }
        Change::Grant(row, reply) => {
            append(&mut tables.replies, reply);
            append(&mut tables.waivers, row);
        }
        Change::Revoke(id, day, reply) => {
            append(&mut tables.replies, reply);
            end_waiver(&mut tables.waivers, id, day);
        }
        Change::SignOff(row, reply) => {
            append(&mut tables.replies, reply);
            append(&mut tables.signoffs, row);
        }
    }
}
