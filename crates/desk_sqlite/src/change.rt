// What a change does to the database.

use crate::values::{
    blob_value, day_value, digest_value, edition_value, end_value, name_value, number_value,
    text_value,
};
use desk_tables::{Change, Day, FileRow, ReplyRow, SignOffRow, WaiverId, WaiverRow};
use sqlite::{Alter, Connection, Error, ErrorCode, Transaction};
use text_ground::text::Text;

// A file that is replaced keeps its rowid, and so its place.
fn put_file<S: Alter>(tx: &mut Transaction<'_, S>, file: &FileRow) -> Result<(), Error> {
    tx.execute(
        "INSERT INTO files (name, text, digest, editor) VALUES (?1, ?2, ?3, ?4) \
         ON CONFLICT (name) DO UPDATE SET \
         text = excluded.text, digest = excluded.digest, editor = excluded.editor",
        &[
            text_value(&file.name),
            blob_value(&file.text),
            digest_value(&file.digest),
            name_value(&file.editor),
        ],
    )?;
    Ok(())
}

fn drop_file<S: Alter>(tx: &mut Transaction<'_, S>, name: &Text) -> Result<(), Error> {
    tx.execute("DELETE FROM files WHERE name = ?1", &[text_value(name)])?;
    Ok(())
}

fn add_waiver<S: Alter>(tx: &mut Transaction<'_, S>, waiver: &WaiverRow) -> Result<(), Error> {
    tx.execute(
        "INSERT INTO waivers (id, top, rule, target, file, at, digest, owner, asker, reason, \
         last_day, ended) VALUES (?1, ?2, ?3, ?4, ?5, ?6, ?7, ?8, ?9, ?10, ?11, ?12)",
        &[
            number_value(waiver.id.0),
            text_value(&waiver.top),
            text_value(&waiver.rule),
            text_value(&waiver.target),
            text_value(&waiver.file),
            number_value(waiver.at),
            digest_value(&waiver.digest),
            name_value(&waiver.owner),
            name_value(&waiver.asker),
            text_value(&waiver.reason),
            day_value(waiver.last_day),
            end_value(waiver.ended),
        ],
    )?;
    Ok(())
}

fn end_waiver<S: Alter>(tx: &mut Transaction<'_, S>, id: WaiverId, day: Day) -> Result<(), Error> {
    tx.execute(
        "UPDATE waivers SET ended = ?2 WHERE id = ?1",
        &[number_value(id.0), day_value(day)],
    )?;
    Ok(())
}

fn add_signoff<S: Alter>(tx: &mut Transaction<'_, S>, signoff: &SignOffRow) -> Result<(), Error> {
    tx.execute(
        "INSERT INTO signoffs (id, top, who, day, grade, reach, edition) \
         VALUES (?1, ?2, ?3, ?4, ?5, ?6, ?7)",
        &[
            number_value(signoff.id),
            text_value(&signoff.top),
            name_value(&signoff.who),
            day_value(signoff.day),
            text_value(&signoff.grade),
            digest_value(&signoff.reach),
            edition_value(signoff.edition),
        ],
    )?;
    Ok(())
}

fn add_reply<S: Alter>(tx: &mut Transaction<'_, S>, reply: &ReplyRow) -> Result<(), Error> {
    tx.execute(
        "INSERT INTO replies (user, request, digest, status, body) VALUES (?1, ?2, ?3, ?4, ?5)",
        &[
            name_value(&reply.user),
            text_value(&reply.request),
            digest_value(&reply.digest),
            number_value(u32::from(reply.status)),
            blob_value(&reply.body),
        ],
    )?;
    Ok(())
}

// Changes the row of a change, and answers its reply.
fn change_row<'c, S: Alter>(
    tx: &mut Transaction<'_, S>,
    change: &'c Change,
) -> Result<&'c ReplyRow, Error> {
    match change {
        Change::PutFile(file, reply) => {
            put_file(tx, file)?;
            Ok(reply)
        }
        Change::DropFile(name, reply) => {
            drop_file(tx, name)?;
            Ok(reply)
        }
        Change::Grant(waiver, reply) => {
            add_waiver(tx, waiver)?;
            Ok(reply)
        }
        Change::Revoke(id, day, reply) => {
            end_waiver(tx, *id, *day)?;
            Ok(reply)
        }
        Change::SignOff(signoff, reply) => {
            add_signoff(tx, signoff)?;
            Ok(reply)
        }
    }
}

// Does a change whole in one transaction, or leaves the tables.
pub(crate) fn change_tables<S: Alter>(
    conn: &mut Connection<S>,
    change: &Change,
) -> Result<(), Error> {
    if !conn.is_autocommit() {
        return Err(Error::SqliteFailure(ErrorCode::TransactionState));
    }
    let mut tx = conn.transaction();
    let reply = change_row(&mut tx, change)?;
    add_reply(&mut tx, reply)?;
    tx.commit()
}
