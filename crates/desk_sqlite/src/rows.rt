// The rows of the tables, as queries give them.
ghost use Rattle.std.specs.Prelude.{List, IfOk};
ghost use Rattle.sqlite_value.specs.declared.value.Value.{Value};
ghost use Rattle.desk_sqlite.specs.Columns.{Holds, HoldAll, file_columns, meta_columns, reply_columns, signoff_columns, waiver_columns};

use crate::values::{
    blob_at, day_at, digest_at, edition_at, end_at, name_at, number_at, status_at, text_at,
};
use desk_tables::{FileRow, MetaRow, ReplyRow, SignOffRow, Tables, WaiverId, WaiverRow};
use sqlite::{Alter, Connection, Error, Row};
use std::alloc::Global;

// All rows of a table, in their order.
const META: &str = "SELECT version FROM meta ORDER BY rowid";

const FILES: &str = "SELECT name, text, digest, editor FROM files ORDER BY rowid";

const WAIVERS: &str =
    "SELECT id, top, rule, target, file, at, digest, owner, asker, reason, last_day, ended \
     FROM waivers ORDER BY rowid";

const SIGNOFFS: &str =
    "SELECT id, top, who, day, grade, reach, edition FROM signoffs ORDER BY rowid";

// The same of a table that has no column for editions.
const SIGNOFFS_1: &str =
    "SELECT id, top, who, day, grade, reach, NULL FROM signoffs ORDER BY rowid";

const REPLIES: &str = "SELECT user, request, digest, status, body FROM replies ORDER BY rowid";

// A row of a table.
trait Stored: Drop {
    // Its columns.
    ghost columns: { Self → List Value };

    // What a row of the query's answer holds; an error where the type of a column can't hold its value.
    fn read(alloc: Global, row: &Row) -> Result<Self, Error>
        ensures { IfOk result (λ it. Holds row.now (columns it)) };
}

impl Stored for MetaRow {
    ghost columns = { meta_columns };

    fn read(_alloc: Global, row: &Row) -> Result<Self, Error> {
        Ok(MetaRow {
            version: number_at(row, 0)?,
        })
    }
}

impl Stored for FileRow {
    ghost columns = { file_columns };

    fn read(alloc: Global, row: &Row) -> Result<Self, Error> {
        Ok(FileRow {
            name: text_at(alloc, row, 0)?,
            text: blob_at(alloc, row, 1)?,
            digest: digest_at(row, 2)?,
            editor: name_at(row, 3)?,
        })
    }
}

impl Stored for WaiverRow {
    ghost columns = { waiver_columns };

    fn read(alloc: Global, row: &Row) -> Result<Self, Error> {
        Ok(WaiverRow {
            id: WaiverId(number_at(row, 0)?),
            top: text_at(alloc, row, 1)?,
            rule: text_at(alloc, row, 2)?,
            target: text_at(alloc, row, 3)?,
            file: text_at(alloc, row, 4)?,
            at: number_at(row, 5)?,
            digest: digest_at(row, 6)?,
            owner: name_at(row, 7)?,
            asker: name_at(row, 8)?,
            reason: text_at(alloc, row, 9)?,
            last_day: day_at(row, 10)?,
            ended: end_at(row, 11)?,
        })
    }
}

impl Stored for SignOffRow {
    ghost columns = { signoff_columns };

    fn read(alloc: Global, row: &Row) -> Result<Self, Error> {
        Ok(SignOffRow {
            id: number_at(row, 0)?,
            top: text_at(alloc, row, 1)?,
            who: name_at(row, 2)?,
            day: day_at(row, 3)?,
            grade: text_at(alloc, row, 4)?,
            reach: digest_at(row, 5)?,
            edition: edition_at(row, 6)?,
        })
    }
}

impl Stored for ReplyRow {
    ghost columns = { reply_columns };

    fn read(alloc: Global, row: &Row) -> Result<Self, Error> {
        Ok(ReplyRow {
            user: name_at(row, 0)?,
            request: text_at(alloc, row, 1)?,
            digest: digest_at(row, 2)?,
            status: status_at(row, 3)?,
            body: blob_at(alloc, row, 4)?,
        })
    }
}

// What these rows of an answer hold.
#[tactic(auto, using(crate::proofs::HoldMore::hold_more, std::proofs::lemmas::List::take_more, std::proofs::lemmas::List::take_all))]
fn read_all<R: Stored>(alloc: Global, answer: &[Row]) -> Result<Vec<R>, Error>
    ensures { IfOk result (λ rows. HoldAll R.columns answer.now rows.items) }
{
    let mut rows = Vec::new(alloc);
    for row in answer {
        rows.push(R::read(alloc, row)?)?;
    }
    Ok(rows)
}

// The rows that a query shows.
fn table_rows<S: Alter, R: Stored>(
    alloc: Global,
    conn: &mut Connection<S>,
    query: &str,
) -> Result<Vec<R>, Error> {
    let answer = conn.query_all(query, &[])?;
    read_all(alloc, &answer)
}

// Whether the sign-offs have a column for their editions.
fn has_editions<S: Alter>(conn: &mut Connection<S>) -> Result<bool, Error> {
    match conn.prepare("SELECT edition FROM signoffs") {
        Ok(_) => Ok(true),
        Err(Error::SqlInputError(_)) => Ok(false),
        Err(error) => Err(error),
    }
}

// The sign-offs. The column for their editions is read wherever it is there, also under a version
// that has none: tables with both break a rule.
fn read_signoffs<S: Alter>(
    alloc: Global,
    conn: &mut Connection<S>,
) -> Result<Vec<SignOffRow>, Error> {
    if has_editions(conn)? {
        table_rows(alloc, conn, SIGNOFFS)
    } else {
        table_rows(alloc, conn, SIGNOFFS_1)
    }
}

// All tables.
pub(crate) fn read_tables<S: Alter>(
    alloc: Global,
    conn: &mut Connection<S>,
) -> Result<Tables, Error> {
    Ok(Tables {
        meta: table_rows(alloc, conn, META)?,
        files: table_rows(alloc, conn, FILES)?,
        waivers: table_rows(alloc, conn, WAIVERS)?,
        signoffs: read_signoffs(alloc, conn)?,
        replies: table_rows(alloc, conn, REPLIES)?,
    })
}
