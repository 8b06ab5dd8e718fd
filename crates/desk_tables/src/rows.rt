// The tables, and the rows that they are made of.
ghost use Rattle.std.specs.Prelude.{◌≡◌, IfOk};
ghost use Rattle.desk_tables.specs.Grades.{grade_word};
ghost use Rattle.desk_tables.specs.Tables.{kept_of, new_tables};

mod copies;

use crate::versions::VERSION;
use crate::{Day, Name};
pub(crate) use copies::{Row, copied_rows};
use std::alloc::Global;
use text_ground::memory::Memory;
use text_ground::text::Text;

/// A SHA-256.
pub type Digest = [u8; 32];

/// The number of a waiver, from 1.
#[derive(Clone, Copy, PartialEq, Eq, Debug)]
pub struct WaiverId(pub u32);

/// A table, in the order in which they are checked.
#[derive(Clone, Copy, PartialEq, Eq, Debug)]
pub enum Table {
    Meta,
    Files,
    Waivers,
    SignOffs,
    Replies,
}

/// What a sign-off says of its module.
#[derive(Clone, Copy, PartialEq, Eq, Debug)]
pub enum Grade {
    /// No rule of the first grade has a finding.
    Clean,
    /// Each finding of a rule of the first grade has a waiver.
    Waived,
}

impl Grade {
    /// Its word in rows and replies.
    pub fn word(self) -> &'static [u8]
        ensures { result.now ≡ grade_word self }
    {
        match self {
            Grade::Clean => b"clean",
            Grade::Waived => b"waived",
        }
    }
}

/// The row that names the form of the tables.
#[derive(Clone, Copy, Debug)]
pub struct MetaRow {
    pub version: u32,
}

/// A file, and who last put it.
#[derive(Drop)]
pub struct FileRow {
    pub name: Text,
    /// Its bytes.
    pub text: Text,
    pub digest: Digest,
    pub editor: Name,
}

/// A waiver that was granted.
#[derive(Drop)]
pub struct WaiverRow {
    pub id: WaiverId,
    /// The module for which it was asked.
    pub top: Text,
    /// The code of the rule.
    pub rule: Text,
    /// The path of the finding's signal, or of its instance.
    pub target: Text,
    /// The name of the file, and the place in it in bytes from 0.
    pub file: Text,
    pub at: u32,
    /// The digest of the file.
    pub digest: Digest,
    /// Who answers for it.
    pub owner: Name,
    /// Who asked for it.
    pub asker: Name,
    pub reason: Text,
    pub last_day: Day,
    /// The day of its revocation.
    pub ended: Option<Day>,
}

/// A sign-off of a module.
#[derive(Drop)]
pub struct SignOffRow {
    pub id: u32,
    pub top: Text,
    pub who: Name,
    pub day: Day,
    /// The word of its grade.
    pub grade: Text,
    /// The digest of the files that the module reaches.
    pub reach: Digest,
    /// The edition of the desk under which it was made; None in tables of version 1.
    pub edition: Option<u8>,
}

/// The reply to a request that was accepted.
#[derive(Drop)]
pub struct ReplyRow {
    pub user: Name,
    /// What the user calls the request.
    pub request: Text,
    /// The digest of the request.
    pub digest: Digest,
    pub status: u16,
    /// Its bytes.
    pub body: Text,
}

/// All that the desk keeps.
#[derive(Drop)]
pub struct Tables {
    pub meta: Vec<MetaRow>,
    pub files: Vec<FileRow>,
    pub waivers: Vec<WaiverRow>,
    pub signoffs: Vec<SignOffRow>,
    pub replies: Vec<ReplyRow>,
}

impl Tables {
    /// The tables of a new desk: of version 2, and with no other row.
    pub fn new(alloc: Global) -> Result<Tables, Memory>
        ensures { IfOk result (λ tables. kept_of tables ≡ new_tables) }
    {
        let mut meta = Vec::new(alloc);
        meta.push(MetaRow { version: VERSION })?;
        Ok(Tables {
            meta,
            files: Vec::new(alloc),
            waivers: Vec::new(alloc),
            signoffs: Vec::new(alloc),
            replies: Vec::new(alloc),
        })
    }

    // The same tables.
    pub(crate) fn copied(&self, alloc: Global) -> Result<Tables, Memory>
        ensures { IfOk result (λ tables. kept_of tables ≡ kept_of self.now) }
    {
        Ok(Tables {
            meta: copied_rows(alloc, &self.meta)?,
            files: copied_rows(alloc, &self.files)?,
            waivers: copied_rows(alloc, &self.waivers)?,
            signoffs: copied_rows(alloc, &self.signoffs)?,
            replies: copied_rows(alloc, &self.replies)?,
        })
    }
}
