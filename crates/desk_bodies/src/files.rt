// The bodies of replies on files.
ghost use Rattle.std.specs.Prelude.{◌≡◌, ◌++◌, codes, IfOk, OnOk};
ghost use Rattle.desk_bodies.specs.Bodies.{edited_text, file_text, name_text, with_digest, with_number, with_number_or_null, with_text};

use desk_json::{push_bytes, push_hex, push_number, push_quoted};
use desk_tables::{Digest, FileRow};
use std::alloc::Global;
use text_ground::memory::Memory;
use text_ground::text::Text;

// Writes what leads to a text, and the text.
#[tactic(auto, unfolding(crate::specs::Bodies::with_text))]
pub(crate) fn push_text(out: &mut Vec<u8>, lead: &[u8], text: &[u8]) -> Result<(), Memory>
    ensures { OnOk result (out.new.items ≡ out.old.items ++ with_text lead.now text.now) }
{
    push_bytes(out, lead)?;
    push_quoted(out, text)
}

// Writes what leads to a number, and the number.
#[tactic(auto, unfolding(crate::specs::Bodies::with_number))]
pub(crate) fn push_count(out: &mut Vec<u8>, lead: &[u8], number: u64) -> Result<(), Memory>
    ensures { OnOk result (out.new.items ≡ out.old.items ++ with_number lead.now number) }
{
    push_bytes(out, lead)?;
    push_number(out, number)
}

// Writes what leads to a number, and the number or `null`.
#[tactic(auto, unfolding(crate::specs::Bodies::with_number_or_null))]
pub(crate) fn push_count_or_null(
    out: &mut Vec<u8>,
    lead: &[u8],
    number: Option<u32>,
) -> Result<(), Memory>
    ensures { OnOk result (out.new.items ≡ out.old.items
        ++ with_number_or_null lead.now number) }
{
    match number {
        Some(number) => push_count(out, lead, u64::from(number)),
        None => {
            push_bytes(out, lead)?;
            push_bytes(out, b"null")
        }
    }
}

// Writes what leads to a digest, and the digest.
#[tactic(auto, unfolding(crate::specs::Bodies::with_digest))]
pub(crate) fn push_digest(out: &mut Vec<u8>, lead: &[u8], digest: &Digest) -> Result<(), Memory>
    ensures { OnOk result (out.new.items ≡ out.old.items ++ with_digest lead.now digest.now) }
{
    push_bytes(out, lead)?;
    push_bytes(out, b"\"")?;
    push_hex(out, digest)?;
    push_bytes(out, b"\"")
}

/// What is told of a file that was put.
#[tactic(auto, unfolding(crate::specs::Bodies::file_text))]
pub fn file_body(alloc: Global, row: &FileRow) -> Result<Vec<u8>, Memory>
    ensures { IfOk result (λ body. body.items ≡ file_text row.now) }
{
    let mut out = Vec::new(alloc);
    push_count(&mut out, b"{\"bytes\":", row.text.as_bytes().len() as u64)?;
    push_digest(&mut out, b",\"digest\":", &row.digest)?;
    push_text(&mut out, b",\"name\":", row.name.as_bytes())?;
    push_bytes(&mut out, b"}")?;
    Ok(out)
}

/// What is told of a file, with who last put it.
#[tactic(auto, unfolding(crate::specs::Bodies::edited_text))]
pub fn edited_body(alloc: Global, row: &FileRow) -> Result<Vec<u8>, Memory>
    ensures { IfOk result (λ body. body.items ≡ edited_text row.now) }
{
    let mut out = Vec::new(alloc);
    push_count(&mut out, b"{\"bytes\":", row.text.as_bytes().len() as u64)?;
    push_digest(&mut out, b",\"digest\":", &row.digest)?;
    push_text(&mut out, b",\"editor\":", row.editor.as_bytes())?;
    push_text(&mut out, b",\"name\":", row.name.as_bytes())?;
    push_bytes(&mut out, b"}")?;
    Ok(out)
}

/// What is told of a file that was dropped.
#[tactic(auto, unfolding(crate::specs::Bodies::name_text))]
pub fn name_body(alloc: Global, name: &Text) -> Result<Vec<u8>, Memory>
    ensures { IfOk result (λ body. body.items ≡ name_text name.now) }
{
    let mut out = Vec::new(alloc);
    push_text(&mut out, b"{\"name\":", name.as_bytes())?;
    push_bytes(&mut out, b"}")?;
    Ok(out)
}
