// The tables of the database.

use sqlite::{Alter, Connection, Error, ErrorCode};

// All tables but that of the sign-offs. The rows of a table stand in the order of their rowids.
const TABLES: &str = "CREATE TABLE meta (version INTEGER NOT NULL) STRICT;
CREATE TABLE files (
    name TEXT NOT NULL UNIQUE,
    text BLOB NOT NULL,
    digest BLOB NOT NULL,
    editor TEXT NOT NULL
) STRICT;
CREATE TABLE waivers (
    id INTEGER NOT NULL UNIQUE,
    top TEXT NOT NULL,
    rule TEXT NOT NULL,
    target TEXT NOT NULL,
    file TEXT NOT NULL,
    at INTEGER NOT NULL,
    digest BLOB NOT NULL,
    owner TEXT NOT NULL,
    asker TEXT NOT NULL,
    reason TEXT NOT NULL,
    last_day INTEGER NOT NULL,
    ended INTEGER
) STRICT;
CREATE TABLE replies (
    user TEXT NOT NULL,
    request TEXT NOT NULL,
    digest BLOB NOT NULL,
    status INTEGER NOT NULL,
    body BLOB NOT NULL,
    UNIQUE (user, request)
) STRICT;
INSERT INTO meta (version) VALUES (2);";

// The table of the sign-offs.
const SIGNOFFS: &str = "CREATE TABLE signoffs (
    id INTEGER NOT NULL UNIQUE,
    top TEXT NOT NULL,
    who TEXT NOT NULL,
    day INTEGER NOT NULL,
    grade TEXT NOT NULL,
    reach BLOB NOT NULL,
    edition INTEGER NOT NULL
) STRICT;";

// Takes the sign-offs of version 1, in their order, out of the way of the table with editions.
const SET_ASIDE: &str = "CREATE TABLE signoffs_1 (
    id INTEGER NOT NULL,
    top TEXT NOT NULL,
    who TEXT NOT NULL,
    day INTEGER NOT NULL,
    grade TEXT NOT NULL,
    reach BLOB NOT NULL
) STRICT;
INSERT INTO signoffs_1 (id, top, who, day, grade, reach)
    SELECT id, top, who, day, grade, reach FROM signoffs ORDER BY rowid;
DROP TABLE signoffs;";

// Puts them back, in their order, with edition 1.
const PUT_BACK: &str = "INSERT INTO signoffs (id, top, who, day, grade, reach, edition)
    SELECT id, top, who, day, grade, reach, 1 FROM signoffs_1 ORDER BY rowid;
DROP TABLE signoffs_1;
UPDATE meta SET version = 2;";

// Whether nothing stands in the database.
fn is_empty<S: Alter>(conn: &mut Connection<S>) -> Result<bool, Error> {
    let count: i64 = conn
        .query_row("SELECT count(*) FROM sqlite_schema", &[])?
        .get(0)?;
    Ok(count == 0)
}

// Makes the tables of a new desk in one transaction, or nothing.
fn make_tables<S: Alter>(conn: &mut Connection<S>) -> Result<(), Error> {
    if !conn.is_autocommit() {
        return Err(Error::SqliteFailure(ErrorCode::TransactionState));
    }
    let mut tx = conn.transaction();
    tx.execute_batch(TABLES)?;
    tx.execute_batch(SIGNOFFS)?;
    tx.commit()
}

// Makes tables of version 1 those of version 2 in one transaction, or leaves them.
pub(crate) fn migrate_tables<S: Alter>(conn: &mut Connection<S>) -> Result<(), Error> {
    if !conn.is_autocommit() {
        return Err(Error::SqliteFailure(ErrorCode::TransactionState));
    }
    let mut tx = conn.transaction();
    tx.execute_batch(SET_ASIDE)?;
    tx.execute_batch(SIGNOFFS)?;
    tx.execute_batch(PUT_BACK)?;
    tx.commit()
}

// Makes an empty database that of a new desk, and leaves any other.
pub(crate) fn prepare<S: Alter>(conn: &mut Connection<S>) -> Result<(), Error> {
    if is_empty(conn)? {
        make_tables(conn)
    } else {
        Ok(())
    }
}
