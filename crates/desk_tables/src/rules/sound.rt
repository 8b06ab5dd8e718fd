// The rules that look at one row alone.
ghost use Rattle.std.specs.Prelude.{◌≡◌, bytes_eq};
ghost use Rattle.sha2.specs.Sha256.{sha256};
ghost use Rattle.std.specs.List.{list_all};
ghost use Rattle.std.specs.Str.{is_utf8};
ghost use Rattle.desk_tables.specs.Grades.{is_grade_word};
ghost use Rattle.desk_tables.specs.Rules.{is_file_letter, is_file_name, is_sound_file, is_sound_reply, is_sound_signoff, is_sound_waiver};

use super::MAX_FILE_NAME_BYTES;
use crate::versions::is_edition;
use crate::{FileRow, Grade, ReplyRow, SignOffRow, WaiverRow};
use rtl_rule::rule::rule_of;
use sha2::{Digest, Sha256};
use text_ground::text::{MAX_BYTES, Text};

fn is_file_letter(letter: u8) -> bool
    ensures { result ≡ is_file_letter letter }
{
    letter.is_ascii_alphanumeric() || letter == b'_' || letter == b'.' || letter == b'-'
}

fn are_file_letters(name: &[u8]) -> bool
    ensures { result ≡ list_all is_file_letter name.now }
{
    name.iter().all(|letter| is_file_letter(*letter))
}

fn is_file_name(name: &[u8]) -> bool
    ensures { result ≡ is_file_name name.now }
{
    !name.is_empty() && name.len() <= MAX_FILE_NAME_BYTES && are_file_letters(name)
}

fn is_utf8(text: &Text) -> bool
    ensures { result ≡ is_utf8 text.now }
{
    match str::from_utf8(text.as_bytes()) {
        Ok(_) => true,
        Err(_) => false,
    }
}

// Whether a digest is that of a text.
fn is_digest_of(digest: &[u8], text: &[u8]) -> bool
    ensures { result ≡ bytes_eq digest.now (sha256 text.now) }
{
    let wanted = Sha256::digest(text);
    digest == wanted.as_slice()
}

pub(crate) fn is_sound_file(row: &FileRow) -> bool
    ensures { result ≡ is_sound_file row.now }
{
    is_file_name(row.name.as_bytes())
        && row.text.as_bytes().len() <= MAX_BYTES
        && is_digest_of(&row.digest, row.text.as_bytes())
}

pub(crate) fn is_sound_waiver(row: &WaiverRow) -> bool
    ensures { result ≡ is_sound_waiver row.now }
{
    is_utf8(&row.top)
        && is_utf8(&row.target)
        && is_file_name(row.file.as_bytes())
        && is_utf8(&row.reason)
        && rule_of(row.rule.as_bytes()).is_some()
        && row.owner.as_bytes() != row.asker.as_bytes()
}

fn is_grade_word(word: &[u8]) -> bool
    ensures { result ≡ is_grade_word word.now }
{
    word == Grade::Clean.word() || word == Grade::Waived.word()
}

pub(crate) fn is_sound_signoff(version: u32, row: &SignOffRow) -> bool
    ensures { result ≡ is_sound_signoff version row.now }
{
    is_utf8(&row.top) && is_grade_word(row.grade.as_bytes()) && is_edition(version, row.edition)
}

pub(crate) fn is_sound_reply(row: &ReplyRow) -> bool
    ensures { result ≡ is_sound_reply row.now }
{
    is_utf8(&row.request) && (row.status == 200 || row.status == 201)
}
