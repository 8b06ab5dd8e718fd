// The list of files.
ghost use Rattle.std.specs.Prelude.{◌≡◌, ◌++◌, codes, flat_map, map, not, position, IfOk, OnOk};
ghost use Rattle.std.specs.List.{position_or_len};
ghost use Rattle.desk_bodies.specs.Bodies.{array, files_text, listed, listed_file_text};
ghost use Rattle.desk_bodies.specs.Orders.{by_name, is_before, placed};

use crate::files::{push_count, push_digest, push_text};
use desk_json::push_bytes;
use desk_tables::FileRow;
use std::alloc::Global;
use text_ground::memory::Memory;

fn is_before(row: &FileRow, other: &FileRow) -> bool
    ensures { result ≡ is_before row.now other.now }
{
    row.name.as_bytes().cmp(other.name.as_bytes()).is_lt()
}

// The first place of a file whose name isn't less.
fn first_place(found: &[&FileRow], row: &FileRow) -> Option<usize>
    ensures { result ≡ position (λ other. not (is_before other.now row.now)) found.now }
{
    found.iter().position(|other| !is_before(other, row))
}

// The same, or how many they are.
fn place_of(found: &[&FileRow], row: &FileRow) -> usize
    ensures { result
        ≡ position_or_len (λ other. not (is_before other.now row.now)) found.now }
{
    match first_place(found, row) {
        Some(at) => at,
        None => found.len(),
    }
}

// Puts a file among others, by its name.
fn place<'t>(found: &mut Vec<&'t FileRow>, row: &'t FileRow) -> Result<(), Memory>
    ensures { OnOk result (map (λ other. other.now) found.new.items
        ≡ placed row.now (map (λ other. other.now) found.old.items)) }
{
    let at = place_of(found, row);
    found.insert(at, row)?;
    Ok(())
}

// The files in the order of their names.
fn by_name(alloc: Global, rows: &[FileRow]) -> Result<Vec<&FileRow>, Memory>
    ensures { IfOk result (λ found. map (λ row. row.now) found.items ≡ by_name rows.now) }
{
    let mut found = Vec::new(alloc);
    for number in (0..rows.len()).rev() {
        place(&mut found, &rows[number])?;
    }
    Ok(found)
}

#[tactic(auto, unfolding(crate::specs::Bodies::listed_file_text))]
fn push_file(out: &mut Vec<u8>, row: &FileRow) -> Result<(), Memory>
    ensures { OnOk result (out.new.items ≡ out.old.items ++ listed_file_text row.now) }
{
    push_count(out, b"{\"bytes\":", row.text.as_bytes().len() as u64)?;
    push_text(out, b",\"editor\":", row.editor.as_bytes())?;
    push_text(out, b",\"file\":", row.name.as_bytes())?;
    push_digest(out, b",\"sha256\":", &row.digest)?;
    push_bytes(out, b"}")
}

// Writes a file behind a comma.
fn push_next(out: &mut Vec<u8>, row: &FileRow) -> Result<(), Memory>
    ensures { OnOk result (out.new.items ≡ out.old.items
        ++ (codes "," ++ listed_file_text row.now)) }
{
    push_bytes(out, b",")?;
    push_file(out, row)
}

// Writes files, each behind a comma.
fn push_others(out: &mut Vec<u8>, rows: &[&FileRow]) -> Result<(), Memory>
    ensures { OnOk result (out.new.items ≡ out.old.items
        ++ flat_map (λ other. codes "," ++ listed_file_text other)
        (map (λ row. row.now) rows.now)) }
{
    for row in rows {
        push_next(out, row)?;
    }
    Ok(())
}

// Writes files, with commas between.
#[tactic(auto, unfolding(crate::specs::Bodies::listed))]
fn push_listed(out: &mut Vec<u8>, rows: &[&FileRow]) -> Result<(), Memory>
    ensures { OnOk result (out.new.items ≡ out.old.items
        ++ listed listed_file_text (map (λ row. row.now) rows.now)) }
{
    match rows {
        [] => Ok(()),
        [first, rest @ ..] => {
            push_file(out, first)?;
            push_others(out, rest)
        }
    }
}

/// The list of files, in the order of the bytes of their names.
#[tactic(auto, unfolding(crate::specs::Bodies::array))]
pub fn files_body(alloc: Global, rows: &[FileRow]) -> Result<Vec<u8>, Memory>
    ensures { IfOk result (λ body. body.items ≡ files_text rows.now) }
{
    let found = by_name(alloc, rows)?;
    let mut out = Vec::new(alloc);
    push_bytes(&mut out, b"[")?;
    push_listed(&mut out, &found)?;
    push_bytes(&mut out, b"]")?;
    Ok(out)
}
