// Limits of the tables.
ghost use Rattle.std.specs.Prelude.{◌≡◌, ◌≤◌, ◌+◌, ◌^◌, ◌-◌, if◌then◌else◌, min, nat_lt, not, length, IfOk};
ghost use Rattle.desk_tables.specs.Changes.{has_name, without_file};
ghost use Rattle.desk_tables.specs.Rules.{all_bytes};
ghost use Rattle.desk_tables.specs.Tables.{kept_of};
ghost use Rattle.desk_records.specs.Machine.{fills_files, fills_signoffs, fills_waivers, full_refusal, full_table, table_name};
ghost use Rattle.desk_records.specs.Outcomes.{outcome};

use crate::Decision;
use desk_bodies::refused_with;
use desk_requests::Ask;
use desk_tables::{
    FileRow, MAX_ALL_BYTES, MAX_FILES, MAX_REPLIES, MAX_SIGN_OFFS, MAX_WAIVERS, Table, Tables,
};
use std::alloc::Global;
use text_ground::memory::Memory;
use text_ground::text::Text;

// A file and its bytes, where it has another name.
fn counted(row: &FileRow, name: &Text) -> (usize, u64)
    ensures count { result.0 ≡ (if not (has_name name.now row.now) then 1 else 0) }
    ensures bytes { result.1
        ≡ (if not (has_name name.now row.now) then length row.now.text else 0) }
    ensures few { result.0 ≤ 1 }
{
    if row.name.as_bytes() == name.as_bytes() {
        return (0, 0);
    }
    (1, row.text.as_bytes().len() as u64)
}

// How many files have another name, and how many bytes their texts have together.
#[tactic(auto, using(std::proofs::lemmas::List::take_all))]
fn others_of(files: &[FileRow], name: &Text) -> (usize, u64)
    ensures count { result.0 ≡ length (without_file name.now files.now) }
    ensures bytes { result.1 ≡ min (all_bytes (without_file name.now files.now)) (2 ^ 64 - 1) }
{
    let mut count = 0;
    let mut bytes: u64 = 0;
    for row in files {
        let (one, size) = counted(row, name);
        count += one;
        bytes = bytes.saturating_add(size);
    }
    (count, bytes)
}

// Whether a text with others that have so many bytes has too many.
fn is_over(bytes: u64, text: &Text) -> bool
    ensures { result ≡ nat_lt MAX_ALL_BYTES (min (bytes + length text.now) (2 ^ 64 - 1)) }
{
    bytes.saturating_add(text.as_bytes().len() as u64) > MAX_ALL_BYTES as u64
}

#[tactic(auto, using(crate::proofs::Others::over_same))]
fn fills_files(ask: &Ask, files: &[FileRow]) -> bool
    ensures { result ≡ fills_files ask.now files.now }
{
    match ask {
        Ask::PutFile(name, text) => {
            let (count, bytes) = others_of(files, name);
            count >= MAX_FILES || is_over(bytes, text)
        }
        _ => false,
    }
}

fn fills_waivers(ask: &Ask, count: usize) -> bool
    ensures { result ≡ fills_waivers ask.now count }
{
    match ask {
        Ask::Waive(_) => count >= MAX_WAIVERS,
        _ => false,
    }
}

fn fills_signoffs(ask: &Ask, count: usize) -> bool
    ensures { result ≡ fills_signoffs ask.now count }
{
    match ask {
        Ask::SignOff(_) => count >= MAX_SIGN_OFFS,
        _ => false,
    }
}

/// The first table that would pass its limit, were the request accepted and its reply kept.
pub fn full_table(ask: &Ask, tables: &Tables) -> Option<Table>
    ensures { result ≡ full_table ask.now (kept_of tables.now) }
{
    if fills_files(ask, &tables.files) {
        return Some(Table::Files);
    }
    if fills_waivers(ask, tables.waivers.len()) {
        return Some(Table::Waivers);
    }
    if fills_signoffs(ask, tables.signoffs.len()) {
        return Some(Table::SignOffs);
    }
    if tables.replies.len() >= MAX_REPLIES {
        return Some(Table::Replies);
    }
    None
}

fn table_name(table: Table) -> &'static [u8]
    ensures { result.now ≡ table_name table }
{
    match table {
        Table::Meta => b"meta",
        Table::Files => b"files",
        Table::Waivers => b"waivers",
        Table::SignOffs => b"signoffs",
        Table::Replies => b"replies",
    }
}

/// The refusal for want of room in a table.
pub fn full_refusal(alloc: Global, table: Table) -> Result<Decision, Memory>
    ensures { IfOk result (λ made. outcome made ≡ full_refusal table) }
{
    Ok(Decision::Tells(refused_with(alloc, b"Full", table_name(table))?))
}
