//! The rows of tables.

use crate::calls::say;
use crate::stop::Stop;
use desk_tables::{Day, Digest, FileRow, Name, ReplyRow, SignOffRow, Tables, WaiverRow};
use std::alloc::Global;
use tests_reader::push_quoted;
use text_ground::text::Text;

/// How many rows the tables have, in the order of the tables.
pub fn counts(alloc: Global, tables: &Tables) -> Result<String, Stop> {
    Ok(format!(in alloc;
        "{} {} {} {} {}",
        tables.meta.len(),
        tables.files.len(),
        tables.waivers.len(),
        tables.signoffs.len(),
        tables.replies.len()
    )?)
}

fn put_text(alloc: Global, text: &Text, out: &mut Vec<u8>) -> Result<(), Stop> {
    say(out, " ")?;
    Ok(push_quoted(alloc, text.as_bytes(), out)?)
}

fn put_name(name: &Name, out: &mut Vec<u8>) -> Result<(), Stop> {
    say(out, " ")?;
    Ok(out.extend_from_slice(name.as_bytes())?)
}

fn put_digest(alloc: Global, digest: &Digest, out: &mut Vec<u8>) -> Result<(), Stop> {
    say(out, " ")?;
    for byte in digest {
        say(out, &format!(in alloc; "{byte:02x}")?)?;
    }
    Ok(())
}

fn put_end(alloc: Global, ended: Option<Day>, out: &mut Vec<u8>) -> Result<(), Stop> {
    match ended {
        Some(day) => say(out, &format!(in alloc; " ended {}", day.number())?),
        None => Ok(()),
    }
}

fn put_edition(alloc: Global, edition: Option<u8>, out: &mut Vec<u8>) -> Result<(), Stop> {
    match edition {
        Some(edition) => say(out, &format!(in alloc; " edition {edition}")?),
        None => Ok(()),
    }
}

fn put_file(alloc: Global, row: &FileRow, out: &mut Vec<u8>) -> Result<(), Stop> {
    say(out, "\nfile")?;
    put_text(alloc, &row.name, out)?;
    put_text(alloc, &row.text, out)?;
    put_digest(alloc, &row.digest, out)?;
    put_name(&row.editor, out)
}

fn put_waiver(alloc: Global, row: &WaiverRow, out: &mut Vec<u8>) -> Result<(), Stop> {
    say(out, &format!(in alloc; "\nwaiver {}", row.id.0)?)?;
    put_text(alloc, &row.top, out)?;
    put_text(alloc, &row.rule, out)?;
    put_text(alloc, &row.target, out)?;
    put_text(alloc, &row.file, out)?;
    say(out, &format!(in alloc; " {}", row.at)?)?;
    put_digest(alloc, &row.digest, out)?;
    put_name(&row.owner, out)?;
    put_name(&row.asker, out)?;
    put_text(alloc, &row.reason, out)?;
    say(out, &format!(in alloc; " {}", row.last_day.number())?)?;
    put_end(alloc, row.ended, out)
}

fn put_signoff(alloc: Global, row: &SignOffRow, out: &mut Vec<u8>) -> Result<(), Stop> {
    say(out, &format!(in alloc; "\nsign-off {}", row.id)?)?;
    put_text(alloc, &row.top, out)?;
    put_name(&row.who, out)?;
    say(out, &format!(in alloc; " {}", row.day.number())?)?;
    put_text(alloc, &row.grade, out)?;
    put_digest(alloc, &row.reach, out)?;
    put_edition(alloc, row.edition, out)
}

fn put_reply(alloc: Global, row: &ReplyRow, out: &mut Vec<u8>) -> Result<(), Stop> {
    say(out, "\nreply")?;
    put_name(&row.user, out)?;
    put_text(alloc, &row.request, out)?;
    put_digest(alloc, &row.digest, out)?;
    say(out, &format!(in alloc; " {}", row.status)?)?;
    put_text(alloc, &row.body, out)
}

/// How many rows the tables have, and all that they hold, one row a line.
pub fn put_rows(alloc: Global, tables: &Tables, out: &mut Vec<u8>) -> Result<(), Stop> {
    say(out, &counts(alloc, tables)?)?;
    for row in &tables.meta {
        say(out, &format!(in alloc; "\nversion {}", row.version)?)?;
    }
    for row in &tables.files {
        put_file(alloc, row, out)?;
    }
    for row in &tables.waivers {
        put_waiver(alloc, row, out)?;
    }
    for row in &tables.signoffs {
        put_signoff(alloc, row, out)?;
    }
    for row in &tables.replies {
        put_reply(alloc, row, out)?;
    }
    Ok(())
}
