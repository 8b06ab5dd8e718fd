// The versions of the tables, and how those of the first become those of the second.
ghost use Rattle.std.specs.Prelude.{◌≡◌, ◌==◌, map};
ghost use Rattle.desk_tables.specs.Editions.{FIRST_VERSION, is_edition, is_version, version_of};
ghost use Rattle.desk_tables.specs.Migrations.{current, migrated, with_first_edition, with_version};
ghost use Rattle.desk_tables.specs.Tables.{kept_of};

use crate::{MetaRow, SignOffRow, Tables};

// The version of tables whose sign-offs don't say an edition.
const FIRST_VERSION: u32 = 1;

// The version of the tables that the desk works with.
pub(crate) const VERSION: u32 = 2;

// The edition of all that was signed off in tables of the first version.
const FIRST_EDITION: u8 = 1;

/// The edition under which the desk signs.
pub const EDITION: u8 = 2;

pub(crate) fn is_version(version: u32) -> bool
    ensures { result ≡ is_version version }
{
    version == FIRST_VERSION || version == VERSION
}

// Whether in tables of this version a sign-off may say this of its edition.
pub(crate) fn is_edition(version: u32, edition: Option<u8>) -> bool
    ensures { result ≡ is_edition version edition }
{
    match edition {
        None => version == FIRST_VERSION,
        Some(edition) => version == VERSION && (edition == FIRST_EDITION || edition == EDITION),
    }
}

fn version_of(rows: &[MetaRow]) -> u32
    ensures { result ≡ version_of rows.now }
{
    match rows {
        [] => 0,
        [first, ..] => first.version,
    }
}

fn set_versions(rows: &mut [MetaRow])
    ensures { rows.new ≡ map with_version rows.old }
{
    for row in rows.iter_mut() {
        row.version = VERSION;
    }
}

fn set_editions(rows: &mut [SignOffRow])
    ensures { rows.new ≡ map with_first_edition rows.old }
{
    for row in rows.iter_mut() {
        row.edition = Some(FIRST_EDITION);
    }
}

impl Tables {
    // The version that the first row of meta names; 0 where there is no row.
    pub(crate) fn version(&self) -> u32
        ensures { result ≡ version_of (kept_of self.now).meta }
    {
        version_of(&self.meta)
    }

    /// Whether they are of version 1.
    pub fn are_old(&self) -> bool
        ensures { result ≡ (version_of (kept_of self.now).meta == FIRST_VERSION) }
    {
        self.version() == FIRST_VERSION
    }

    // Makes tables of version 1 those of version 2.
    pub(crate) fn migrate(&mut self)
        ensures { kept_of self.new ≡ migrated (kept_of self.old) }
    {
        set_versions(&mut self.meta);
        set_editions(&mut self.signoffs);
    }

    /// Makes tables of version 1 those of version 2, and leaves any others.
    pub fn make_current(&mut self)
        ensures { kept_of self.new ≡ current (kept_of self.old) }
    {
        if self.are_old() {
            self.migrate();
        }
    }
}
