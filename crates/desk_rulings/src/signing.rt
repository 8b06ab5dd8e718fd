// Requests for sign-offs.
ghost use Rattle.std.specs.Prelude.{◌≡◌, ◌<◌, ◌∷◌, ◌++◌, [], find, flat_map, length, option_copied, IfOk, OnOk};
ghost use Rattle.rtl_rule.specs.Rows.{has_first_grade};
ghost use Rattle.desk_tables.specs.Changes.{has_name};
ghost use Rattle.desk_rulings.specs.Steps.{edited_one};
ghost use Rattle.desk_tables.specs.Tables.{kept_of};
ghost use Rattle.desk_tables.specs.Limits.{MAX_SIGN_OFFS};
ghost use Rattle.desk_records.specs.Outcomes.{outcome};
ghost use Rattle.desk_rulings.specs.Rulings.{verdict_of};
ghost use Rattle.desk_rulings.specs.SignOffs.{accepted, edited_by, findings_of, findings_stand, grade_of, reach_line, reach_of, rows_of, signoff_outcome, signoff_row, unless_edited};

use crate::Ruled;
use crate::site::file_of;
use crate::standings::{left, standing};
use desk_bodies::{granted_body, refused_with};
use desk_json::{push_bytes, push_hex};
use desk_records::{Decision, kept_row};
use desk_requests::Request;
use desk_rows::Row;
use desk_tables::{Change, Day, Digest, EDITION, FileRow, Grade, Name, SignOffRow, Tables};
use itoa::Buffer;
use rtl_rule::rule::first_grade;
use sha2::{Digest as _, Sha256};
use std::alloc::Global;
use text_ground::memory::Memory;
use text_ground::text::Text;

// The file of a name, where this user put it last.
fn edited_at<'t>(files: &'t [FileRow], name: &Text, who: &Name) -> Option<&'t FileRow>
    ensures { option_copied result ≡ edited_one who.now (find (has_name name.now) files.now) }
{
    match file_of(files, name) {
        None => None,
        Some(row) => {
            if row.editor.as_bytes() == who.as_bytes() {
                Some(row)
            } else {
                None
            }
        }
    }
}

// The first of the files of these names that a user put last.
fn edited_by<'t>(files: &'t [FileRow], reached: &[Text], who: &Name) -> Option<&'t FileRow>
    ensures { option_copied result ≡ edited_by who.now (rows_of files.now reached.now) }
{
    for name in reached {
        let found = edited_at(files, name, who);
        if found.is_some() {
            return found;
        }
    }
    None
}

// Writes the line of a file.
fn push_line(out: &mut Vec<u8>, row: &FileRow) -> Result<(), Memory>
    ensures { OnOk result (out.new.items ≡ out.old.items ++ reach_line row.now) }
{
    push_bytes(out, row.name.as_bytes())?;
    push_bytes(out, b" ")?;
    push_hex(out, &row.digest)?;
    push_bytes(out, b"\n")
}

// Writes the line of the file of a name, where there is one.
fn push_file(out: &mut Vec<u8>, files: &[FileRow], name: &Text) -> Result<(), Memory>
    ensures { OnOk result (out.new.items ≡ out.old.items
        ++ flat_map reach_line (rows_of files.now (name.now ∷ []))) }
{
    match file_of(files, name) {
        Some(row) => push_line(out, row),
        None => Ok(()),
    }
}

// The digest of the files of these names.
pub(crate) fn reach_of(alloc: Global, files: &[FileRow], reached: &[Text]) -> Result<Digest, Memory>
    ensures { IfOk result (λ reach. reach ≡ reach_of (rows_of files.now reached.now)) }
{
    let mut lines = Vec::new(alloc);
    for name in reached {
        push_file(&mut lines, files, name)?;
    }
    Ok(Sha256::digest(&lines))
}

// Whether one of their findings is of the first grade.
fn has_first_grade(rows: &[Row]) -> bool
    ensures { result ≡ has_first_grade (findings_of rows.now) }
{
    rows.iter().any(|one| first_grade(one.finding.rule))
}

fn grade_of(rows: &[Row]) -> Grade
    ensures { result ≡ grade_of rows.now }
{
    if has_first_grade(rows) {
        return Grade::Waived;
    }
    Grade::Clean
}

fn findings_stand(alloc: Global, left: usize) -> Result<Decision, Memory>
    ensures { IfOk result (λ made. outcome made ≡ findings_stand left) }
{
    let mut digits = Buffer::new();
    let count = digits.format(left as u64).as_bytes();
    Ok(Decision::Tells(refused_with(alloc, b"FindingsStand", count)?))
}

// The next row of the sign-offs.
fn signoff_row(
    alloc: Global,
    ruled: &Ruled<'_>,
    tables: &Tables,
    request: &Request,
    top: &Text,
    today: Day,
) -> Result<SignOffRow, Memory>
    requires { length (kept_of tables.now).signoffs < MAX_SIGN_OFFS }
    ensures { IfOk result (λ row. row ≡ signoff_row top.now request.now today
        (kept_of tables.now) (verdict_of ruled.now)) }
{
    Ok(SignOffRow {
        id: tables.signoffs.len() as u32 + 1,
        top: Text::from_bytes(alloc, top.as_bytes())?,
        who: request.user.copied(),
        day: today,
        grade: Text::from_bytes(alloc, grade_of(ruled.rows).word())?,
        reach: reach_of(alloc, &tables.files, ruled.reached)?,
        edition: Some(EDITION),
    })
}

fn accepted(alloc: Global, row: SignOffRow, request: &Request) -> Result<Decision, Memory>
    ensures { IfOk result (λ made. outcome made ≡ accepted row request.now) }
{
    let body = granted_body(alloc, &row.grade, row.id)?;
    let reply = kept_row(alloc, request, 201, body)?;
    Ok(Decision::Makes(Change::SignOff(row, reply)))
}

// What a request for a sign-off comes to where no finding stands.
fn unless_edited(
    alloc: Global,
    ruled: &Ruled<'_>,
    tables: &Tables,
    request: &Request,
    top: &Text,
    today: Day,
) -> Result<Decision, Memory>
    requires { length (kept_of tables.now).signoffs < MAX_SIGN_OFFS }
    ensures { IfOk result (λ made. outcome made ≡ unless_edited
        (edited_by request.now.user (rows_of (kept_of tables.now).files ruled.now.reached.now))
        (accepted (signoff_row top.now request.now today (kept_of tables.now)
        (verdict_of ruled.now)) request.now)) }
{
    match edited_by(&tables.files, ruled.reached, &request.user) {
        Some(row) => {
            let name = row.name.as_bytes();
            Ok(Decision::Tells(refused_with(alloc, b"SignerEdited", name)?))
        }
        None => {
            let row = signoff_row(alloc, ruled, tables, request, top, today)?;
            accepted(alloc, row, request)
        }
    }
}

/// What a request for a sign-off of a module comes to on a day, with what the rules say of it: that
/// findings stand, that who signs put a file last that the module reaches, or its row with the
/// reply that is kept. The table of sign-offs has room.
pub fn sign_off(
    alloc: Global,
    ruled: &Ruled<'_>,
    tables: &Tables,
    request: &Request,
    top: &Text,
    today: Day,
) -> Result<Decision, Memory>
    requires { length (kept_of tables.now).signoffs < MAX_SIGN_OFFS }
    ensures { IfOk result (λ made. outcome made ≡ signoff_outcome top.now request.now today
        (kept_of tables.now) (verdict_of ruled.now)) }
{
    let found = standing(alloc, ruled, tables, today)?;
    let left = left(&found);
    if left > 0 {
        return findings_stand(alloc, left);
    }
    unless_edited(alloc, ruled, tables, request, top, today)
}
