//! Lines and columns of a text.

ghost use Rattle.std.specs.Prelude.{◌≡◌, ◌+◌, ◌<◌, ◌≤◌, IfOk, length, slice_index_or};
ghost use Rattle.desk_places.specs.Lines.{line_starts};

use std::alloc::Global;
use text_ground::memory::Memory;

/// A place as an engineer reads it, both numbers from 1.
#[derive(Clone, Copy, PartialEq, Eq, Debug)]
pub struct Position {
    pub line: u64,
    pub column: u64,
}

/// A text and where its lines begin: made in one pass, so that a place is found in a few looks.
#[derive(Drop)]
pub struct LineTable<'a> {
    text: &'a [u8],
    starts: Vec<u32>,
    ghost short: { length text.now ≤ 1048576 },
    ghost begun: { starts.items ≡ line_starts text.now },
}

impl<'a> LineTable<'a> {
    ghost use Rattle.desk_places.specs.Places.{column_of, line_of, text_of};

    /// The table of a text of at most 1 MiB.
    pub fn new(alloc: Global, text: &'a [u8]) -> Result<LineTable<'a>, Memory>
        requires { length text.now ≤ 1048576 }
        ensures { IfOk result (λ table. text_of table ≡ text.now) }
    {
        Ok(LineTable {
            text,
            starts: line_starts(alloc, text)?,
        })
    }

    /// The line and column of a place; a place behind the text is its end.
    pub fn position(&self, at: u32) -> Position
        ensures line { result.line ≡ line_of (text_of self.now) at }
        ensures column { result.column ≡ column_of (text_of self.now) at }
    {
        let at = (at as usize).min(self.text.len()) as u32;
        let line = line_at(&self.starts, at);
        let column = at - self.starts[line];
        Position {
            line: line as u64 + 1,
            column: u64::from(column) + 1,
        }
    }
}

/// Where the lines of a text begin: at 0, and behind each line feed.
fn line_starts(alloc: Global, text: &[u8]) -> Result<Vec<u32>, Memory>
    requires { length text.now ≤ 1048576 }
    ensures { IfOk result (λ starts. starts.items ≡ line_starts text.now) }
{
    let mut starts = vec![in alloc; 0]?;
    for (at, byte) in text.iter().enumerate() {
        if *byte == b'\n' {
            starts.push(at as u32 + 1)?;
        }
    }
    Ok(starts)
}

/// The number of the line, from 0, that a place stands in: the last of these that begins no later.
fn line_at(starts: &[u32], at: u32) -> usize
    requires some { 0 < length starts.now }
    requires first { slice_index_or starts.now 0 0 ≤ at }
    ensures within { result < length starts.now }
    ensures begun { slice_index_or starts.now result 0 ≤ at }
    ensures last { result + 1 < length starts.now → at < slice_index_or starts.now (result + 1) 0 }
{
    let mut low = 0;
    let mut high = starts.len();
    while high - low > 1 {
        let middle = low + (high - low) / 2;
        if starts[middle] <= at {
            low = middle;
        } else {
            high = middle;
        }
    }
    low
}
