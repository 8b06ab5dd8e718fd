// Where findings are.
ghost use Rattle.std.specs.Prelude.{◌≡◌, find, map, option_copied, option_map, IfOk};
ghost use Rattle.desk_tables.specs.Changes.{has_name};
ghost use Rattle.desk_rulings.specs.Index.{site_seen};
ghost use Rattle.desk_rulings.specs.Rulings.{digest_of, key_in};

use desk_rows::Row;
use desk_tables::{Digest, FileRow};
use rtl_rule::rule::Rule;
use source_file::SourceFile;
use std::alloc::Global;
use text_ground::memory::Memory;
use text_ground::text::Text;

// What names a finding across edits, and the digest of its file.
#[derive(Drop)]
pub(crate) struct Site<'r> {
    pub rule: Rule,
    pub target: &'r Text,
    pub file: &'r Text,
    pub at: u32,
    pub digest: Digest,
}

// The file of a name.
pub(crate) fn file_of<'t>(files: &'t [FileRow], name: &Text) -> Option<&'t FileRow>
    ensures { option_copied result ≡ find (has_name name.now) files.now }
{
    files
        .iter()
        .find(|row| row.name.as_bytes() == name.as_bytes())
}

// The digest of the file of a name.
pub(crate) fn digest_of(files: &[FileRow], name: &Text) -> Option<Digest>
    ensures { result ≡ digest_of files.now name.now }
{
    match file_of(files, name) {
        Some(row) => Some(row.digest),
        None => None,
    }
}

// The digest of each of these files.
pub(crate) fn digests_of(
    alloc: Global,
    rows: &[FileRow],
    files: &[&SourceFile],
) -> Result<Vec<Option<Digest>>, Memory>
    ensures { IfOk result (λ digests.
        digests.items ≡ map (λ file. digest_of rows.now file.now.name) files.now) }
{
    let mut digests = Vec::new(alloc);
    for file in files {
        digests.push(digest_of(rows, &file.name))?;
    }
    Ok(digests)
}

// The site of a finding in a file that has a digest.
pub(crate) fn site_in<'r>(
    one: &'r Row,
    file: &'r SourceFile,
    digest: Option<Digest>,
) -> Option<Site<'r>>
    ensures { option_map site_seen result ≡ option_map (λ it. record {
      key = key_in one.now file.now;
      digest = it;
    }) digest }
{
    match digest {
        None => None,
        Some(digest) => Some(Site {
            rule: one.finding.rule,
            target: &one.told.target,
            file: &file.name,
            at: one.finding.spot.at,
            digest,
        }),
    }
}
