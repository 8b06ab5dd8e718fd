// Copies of rows.
ghost use Rattle.std.specs.Prelude.{◌≡◌, IfOk};

use crate::{FileRow, MetaRow, ReplyRow, SignOffRow, WaiverRow};
use std::alloc::Global;
use text_ground::memory::Memory;
use text_ground::text::Text;

// A row of a table.
pub(crate) trait Row: Drop {
    // The same row.
    fn copied(&self, alloc: Global) -> Result<Self, Memory>
        ensures { IfOk result (λ row. row ≡ self.now) };
}

fn copied_text(alloc: Global, text: &Text) -> Result<Text, Memory>
    ensures { IfOk result (λ copy. copy ≡ text.now) }
{
    Ok(Text::from_bytes(alloc, text.as_bytes())?)
}

impl Row for MetaRow {
    fn copied(&self, _alloc: Global) -> Result<Self, Memory> {
        Ok(*self)
    }
}

impl Row for FileRow {
    fn copied(&self, alloc: Global) -> Result<Self, Memory> {
        Ok(FileRow {
            name: copied_text(alloc, &self.name)?,
            text: copied_text(alloc, &self.text)?,
            digest: self.digest,
            editor: self.editor.copied(),
        })
    }
}

impl Row for WaiverRow {
    fn copied(&self, alloc: Global) -> Result<Self, Memory> {
        Ok(WaiverRow {
            id: self.id,
            top: copied_text(alloc, &self.top)?,
            rule: copied_text(alloc, &self.rule)?,
            target: copied_text(alloc, &self.target)?,
            file: copied_text(alloc, &self.file)?,
            at: self.at,
            digest: self.digest,
            owner: self.owner.copied(),
            asker: self.asker.copied(),
            reason: copied_text(alloc, &self.reason)?,
            last_day: self.last_day,
            ended: self.ended,
        })
    }
}

impl Row for SignOffRow {
    fn copied(&self, alloc: Global) -> Result<Self, Memory> {
        Ok(SignOffRow {
            id: self.id,
            top: copied_text(alloc, &self.top)?,
            who: self.who.copied(),
            day: self.day,
            grade: copied_text(alloc, &self.grade)?,
            reach: self.reach,
            edition: self.edition,
        })
    }
}

impl Row for ReplyRow {
    fn copied(&self, alloc: Global) -> Result<Self, Memory> {
        Ok(ReplyRow {
            user: self.user.copied(),
            request: copied_text(alloc, &self.request)?,
            digest: self.digest,
            status: self.status,
            body: copied_text(alloc, &self.body)?,
        })
    }
}

// The same rows.
#[tactic(auto, using(std::proofs::lemmas::List::take_more, std::proofs::lemmas::List::take_all))]
pub(crate) fn copied_rows<R: Row>(alloc: Global, rows: &[R]) -> Result<Vec<R>, Memory>
    ensures { IfOk result (λ copies. copies.items ≡ rows.now) }
{
    let mut copies = Vec::new(alloc);
    for row in rows {
        copies.push(row.copied(alloc)?)?;
    }
    Ok(copies)
}
