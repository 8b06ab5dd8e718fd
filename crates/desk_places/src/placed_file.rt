// A file that was read, and where its lines begin.

ghost use Rattle.std.specs.Prelude.{◌≡◌, ◌≤◌, ◌++◌, codes, decimal, length, OnOk};
ghost use Rattle.std.specs.Option.{ForSome};

use crate::lines::{LineTable, Position};
use itoa::Buffer;
use source_file::SourceFile;
use std::alloc::Global;
use text_ground::memory::Memory;

/// A file that was read, with the lines of its text where many places of it are written.
#[derive(Drop)]
pub(crate) struct PlacedFile<'a> {
    file: &'a SourceFile,
    lines: Option<LineTable<'a>>,
    ghost short: { length file.now.text ≤ 1048576 },
    ghost same: { ForSome lines (λ table. table.text.now ≡ file.now.text) },
}

impl<'a> PlacedFile<'a> {
    ghost use Rattle.std.specs.Prelude.{◌≡◌, ◌≤◌, ◌++◌, IfOk, length, OnOk};
    ghost use Rattle.desk_places.specs.Places.{column_of, file_of, line_of, place_text};

    pub(crate) fn new(alloc: Global, file: &'a SourceFile) -> Result<PlacedFile<'a>, Memory>
        requires { length file.now.text ≤ 1048576 }
        ensures { IfOk result (λ placed. file_of placed ≡ file.now) }
    {
        Ok(PlacedFile {
            file,
            lines: Some(LineTable::new(alloc, file.text.as_bytes())?),
        })
    }

    /// A file whose lines are gone through anew for each place.
    pub(crate) fn seldom(file: &'a SourceFile) -> PlacedFile<'a>
        requires { length file.now.text ≤ 1048576 }
        ensures { file_of result ≡ file.now }
    {
        PlacedFile { file, lines: None }
    }

    /// The line and column of a place.
    fn position(&self, alloc: Global, at: u32) -> Result<Position, Memory>
        ensures line { IfOk result (λ found. found.line ≡ line_of self.now.file.now.text at) }
        ensures column { IfOk result (λ found. found.column ≡ column_of self.now.file.now.text at) }
    {
        match &self.lines {
            Some(table) => Ok(table.position(at)),
            None => Ok(LineTable::new(alloc, self.file.text.as_bytes())?.position(at)),
        }
    }

    /// Writes a place of the file behind other text.
    pub(crate) fn push_place(&self, alloc: Global, out: &mut Vec<u8>, at: u32) -> Result<(), Memory>
        ensures { OnOk result (out.new.items
            ≡ out.old.items ++ place_text self.now.file.now.name self.now.file.now.text at) }
    {
        let position = self.position(alloc, at)?;
        out.extend_from_slice(self.file.name.as_bytes())?;
        push_number(out, position.line)?;
        push_number(out, position.column)
    }
}

/// Writes a number behind a colon.
fn push_number(out: &mut Vec<u8>, number: u64) -> Result<(), Memory>
    ensures { OnOk result (out.new.items ≡ out.old.items ++ (codes ":" ++ decimal number)) }
{
    let mut digits = Buffer::new();
    out.push(b':')?;
    out.extend_from_slice(digits.format(number).as_bytes())?;
    Ok(())
}
