// The rules of the tables, and the first row that breaks one.
ghost use Rattle.std.specs.Prelude.{◌≡◌, ◌≤◌, ◌+◌, ◌==◌, ◌||◌, not, nat_le, nat_lt, length, [], Some, None, IfOk};
ghost use Rattle.desk_tables.specs.Rules.{broken_meta, broken_row, file_breaks, first_broken, is_sound_file, is_sound_reply, is_sound_signoff, is_sound_waiver, reply_breaks, signoff_breaks, waiver_breaks};
ghost use Rattle.desk_tables.specs.Tables.{kept_of};

mod seen;
mod sound;

use crate::versions::is_version;
use crate::{FileRow, MetaRow, ReplyRow, SignOffRow, Table, Tables, WaiverRow};
use seen::{Seen, reply_key};
use sound::{is_sound_file, is_sound_reply, is_sound_signoff, is_sound_waiver};
use std::alloc::Global;
use text_ground::memory::Memory;

/// How many bytes the name of a file may have.
pub const MAX_FILE_NAME_BYTES: usize = 64;

/// How many files the desk may have.
pub const MAX_FILES: usize = 256;

/// How many bytes the texts of all files may have together.
pub const MAX_ALL_BYTES: usize = 16_777_216;

/// How many waivers the desk may have.
pub const MAX_WAIVERS: usize = 10_000;

/// How many sign-offs the desk may have.
pub const MAX_SIGN_OFFS: usize = 10_000;

/// How many replies the desk may keep.
pub const MAX_REPLIES: usize = 50_000;

fn broken_meta(rows: &[MetaRow]) -> Option<usize>
    ensures { result ≡ broken_meta rows.now }
{
    match rows {
        [] => Some(1),
        [first, rest @ ..] => {
            if !is_version(first.version) {
                Some(1)
            } else if !rest.is_empty() {
                Some(2)
            } else {
                None
            }
        }
    }
}

// Whether a row breaks a rule, behind so many files with so many bytes, one of which may have taken its name.
fn is_bad_file(place: usize, taken: bool, bytes: usize, row: &FileRow) -> bool
    requires { bytes ≤ MAX_ALL_BYTES }
    ensures { result ≡ (not (is_sound_file row.now) || nat_le MAX_FILES place || taken
        || nat_lt MAX_ALL_BYTES (bytes + length row.now.text)) }
{
    !is_sound_file(row)
        || place >= MAX_FILES
        || taken
        || bytes + row.text.as_bytes().len() > MAX_ALL_BYTES
}

fn broken_file(alloc: Global, rows: &[FileRow]) -> Result<Option<usize>, Memory>
    ensures { IfOk result (λ place. place ≡ first_broken file_breaks [] rows.now) }
{
    let mut names = Seen::new(alloc);
    let mut bytes = 0;
    for (index, row) in rows.iter().enumerate() {
        let taken = names.has(&row.name);
        if is_bad_file(index, taken, bytes, row) {
            return Ok(Some(index + 1));
        }
        bytes += row.text.as_bytes().len();
        names.add(&row.name)?;
    }
    Ok(None)
}

// Whether a row breaks a rule, behind so many waivers.
fn is_bad_waiver(place: usize, row: &WaiverRow) -> bool
    ensures { result ≡ (not (is_sound_waiver row.now) || nat_le MAX_WAIVERS place
        || not (row.now.id.0 == place + 1)) }
{
    !is_sound_waiver(row) || place >= MAX_WAIVERS || row.id.0 as usize != place + 1
}

fn broken_waiver(rows: &[WaiverRow]) -> Option<usize>
    ensures { result ≡ first_broken waiver_breaks [] rows.now }
{
    for (index, row) in rows.iter().enumerate() {
        if is_bad_waiver(index, row) {
            return Some(index + 1);
        }
    }
    None
}

// Whether a row of tables of this version breaks a rule, behind so many sign-offs.
fn is_bad_signoff(version: u32, place: usize, row: &SignOffRow) -> bool
    ensures { result ≡ (not (is_sound_signoff version row.now) || nat_le MAX_SIGN_OFFS place
        || not (row.now.id == place + 1)) }
{
    !is_sound_signoff(version, row) || place >= MAX_SIGN_OFFS || row.id as usize != place + 1
}

fn broken_signoff(version: u32, rows: &[SignOffRow]) -> Option<usize>
    ensures { result ≡ first_broken (signoff_breaks version) [] rows.now }
{
    for (index, row) in rows.iter().enumerate() {
        if is_bad_signoff(version, index, row) {
            return Some(index + 1);
        }
    }
    None
}

// Whether a row breaks a rule, behind so many replies, one of which may be to the same request.
fn is_bad_reply(place: usize, taken: bool, row: &ReplyRow) -> bool
    ensures { result ≡ (not (is_sound_reply row.now) || nat_le MAX_REPLIES place || taken) }
{
    !is_sound_reply(row) || place >= MAX_REPLIES || taken
}

fn broken_reply(alloc: Global, rows: &[ReplyRow]) -> Result<Option<usize>, Memory>
    ensures { IfOk result (λ place. place ≡ first_broken reply_breaks [] rows.now) }
{
    let mut requests = Seen::new(alloc);
    for (index, row) in rows.iter().enumerate() {
        let key = reply_key(alloc, row)?;
        let taken = requests.has(&key);
        if is_bad_reply(index, taken, row) {
            return Ok(Some(index + 1));
        }
        requests.add(&key)?;
    }
    Ok(None)
}

/// The first table that breaks a rule, and the number, from 1, of its first row that does.
pub fn bad_row(alloc: Global, tables: &Tables) -> Result<Option<(Table, usize)>, Memory>
    ensures { IfOk result (λ found. found ≡ broken_row (kept_of tables.now)) }
{
    if let Some(row) = broken_meta(&tables.meta) {
        return Ok(Some((Table::Meta, row)));
    }
    if let Some(row) = broken_file(alloc, &tables.files)? {
        return Ok(Some((Table::Files, row)));
    }
    if let Some(row) = broken_waiver(&tables.waivers) {
        return Ok(Some((Table::Waivers, row)));
    }
    if let Some(row) = broken_signoff(tables.version(), &tables.signoffs) {
        return Ok(Some((Table::SignOffs, row)));
    }
    if let Some(row) = broken_reply(alloc, &tables.replies)? {
        return Ok(Some((Table::Replies, row)));
    }
    Ok(None)
}
