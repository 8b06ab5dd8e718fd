// What a request that was accepted changes in the tables.
ghost use Rattle.std.specs.Prelude.{◌≡◌, position, OnOk, OnErr};
ghost use Rattle.desk_tables.specs.Tables.{kept_of};
ghost use Rattle.desk_tables.specs.Changes.{changed, has_id, has_name, reply_of, rows_changed, with_file, without_file, with_end};

use crate::rows::Row;
use crate::{Day, FileRow, ReplyRow, SignOffRow, Tables, WaiverId, WaiverRow};
use std::alloc::Global;
use text_ground::memory::Memory;
use text_ground::text::Text;

/// What a request that was accepted changes, each with the reply that is kept.
#[derive(Drop)]
pub enum Change {
    /// The file takes the place of one that has its name already.
    PutFile(FileRow, ReplyRow),
    /// The file of this name goes.
    DropFile(Text, ReplyRow),
    Grant(WaiverRow, ReplyRow),
    /// The waiver is revoked on this day.
    Revoke(WaiverId, Day, ReplyRow),
    SignOff(SignOffRow, ReplyRow),
}

impl Change {
    // The reply that is kept.
    fn reply(&self) -> &ReplyRow
        ensures { result.now ≡ reply_of self.now }
    {
        match self {
            Change::PutFile(_, reply) => reply,
            Change::DropFile(_, reply) => reply,
            Change::Grant(_, reply) => reply,
            Change::Revoke(_, _, reply) => reply,
            Change::SignOff(_, reply) => reply,
        }
    }
}

// The place of the file that has the name.
fn place_of_file(files: &[FileRow], name: &Text) -> Option<usize>
    ensures { result ≡ position (has_name name.now) files.now }
{
    files
        .iter()
        .position(|row| row.name.as_bytes() == name.as_bytes())
}

// The place of the waiver that has the number.
fn place_of_waiver(waivers: &[WaiverRow], id: WaiverId) -> Option<usize>
    ensures { result ≡ position (has_id id) waivers.now }
{
    waivers.iter().position(|row| row.id.0 == id.0)
}

fn put_file(files: &mut Vec<FileRow>, row: FileRow) -> Result<(), Memory>
    ensures ok { OnOk result (files.new.items ≡ with_file row files.old.items) }
    ensures err { OnErr result (files.new.items ≡ files.old.items) }
{
    match place_of_file(files, &row.name) {
        None => Ok(files.push(row)?),
        Some(place) => {
            files[place] = row;
            Ok(())
        }
    }
}

fn drop_file(files: &mut Vec<FileRow>, name: &Text)
    ensures { files.new.items ≡ without_file name.now files.old.items }
{
    files.retain(|row| row.name.as_bytes() != name.as_bytes());
}

fn end_waiver(waivers: &mut Vec<WaiverRow>, id: WaiverId, day: Day)
    ensures { waivers.new.items ≡ with_end id day waivers.old.items }
{
    if let Some(place) = place_of_waiver(waivers, id) {
        waivers[place].ended = Some(day);
    }
}

impl Tables {
    // Does what a change does to the tables besides its reply. At an error nothing changes.
    fn change_rows(&mut self, alloc: Global, change: &Change) -> Result<(), Memory>
        ensures ok { OnOk result (kept_of self.new ≡ rows_changed change.now (kept_of self.old)) }
        ensures err { OnErr result (kept_of self.new ≡ kept_of self.old) }
    {
        match change {
            Change::PutFile(row, _) => put_file(&mut self.files, row.copied(alloc)?),
            Change::DropFile(name, _) => {
                drop_file(&mut self.files, name);
                Ok(())
            }
            Change::Grant(row, _) => Ok(self.waivers.push(row.copied(alloc)?)?),
            Change::Revoke(id, day, _) => {
                end_waiver(&mut self.waivers, *id, *day);
                Ok(())
            }
            Change::SignOff(row, _) => Ok(self.signoffs.push(row.copied(alloc)?)?),
        }
    }

    // Does a change whole, or leaves the tables.
    pub(crate) fn make(&mut self, alloc: Global, change: &Change) -> Result<(), Memory>
        ensures ok { OnOk result (kept_of self.new ≡ changed change.now (kept_of self.old)) }
        ensures err { OnErr result (kept_of self.new ≡ kept_of self.old) }
    {
        let reply = change.reply().copied(alloc)?;
        self.replies.push(reply)?;
        match self.change_rows(alloc, change) {
            Ok(()) => Ok(()),
            Err(fault) => {
                self.replies.pop();
                Err(fault)
            }
        }
    }
}
