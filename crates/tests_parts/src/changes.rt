//! Changes of the tables, as lines have them. Each digest is told from others by its first byte: 1
//! for a file, 2 for the file of a waiver, 3 for what a sign-off reaches, and 9 for a request. All
//! requests are those of `jo`, and sign-offs are of the desk's edition.

use crate::stop::Stop;
use desk_tables::{
    Change, Day, Digest, EDITION, FileRow, Name, ReplyRow, SignOffRow, WaiverId, WaiverRow,
};
use std::alloc::Global;
use tests_reader::unescaped;
use text_ground::text::Text;

fn digest(first: u8) -> Digest {
    let mut digest = [0; 32];
    digest[0] = first;
    digest
}

fn text(alloc: Global, word: &str) -> Result<Text, Stop> {
    Ok(Text::from_vec(unescaped(alloc, word.as_bytes())?))
}

fn name(word: &str) -> Result<Name, Stop> {
    match Name::new(word.as_bytes()) {
        Some(name) => Ok(name),
        None => Err(Stop::NoCall),
    }
}

fn number(word: &str) -> Result<u32, Stop> {
    match word.parse::<u32>() {
        Ok(number) => Ok(number),
        Err(_) => Err(Stop::NoCall),
    }
}

fn day(word: &str) -> Result<Day, Stop> {
    let Ok(number) = word.parse::<i32>() else {
        return Err(Stop::NoCall);
    };
    match Day::new(number) {
        Some(day) => Ok(day),
        None => Err(Stop::NoCall),
    }
}

fn reply(alloc: Global, request: &str) -> Result<ReplyRow, Stop> {
    Ok(ReplyRow {
        user: name("jo")?,
        request: text(alloc, request)?,
        digest: digest(9),
        status: 201,
        body: Text::from_bytes(alloc, b"{\"id\":1}")?,
    })
}

fn file(alloc: Global, file: &str, bytes: &str) -> Result<FileRow, Stop> {
    Ok(FileRow {
        name: text(alloc, file)?,
        text: text(alloc, bytes)?,
        digest: digest(1),
        editor: name("jo")?,
    })
}

fn waiver(alloc: Global, words: &[String]) -> Result<WaiverRow, Stop> {
    let [
        id,
        top,
        rule,
        target,
        file,
        at,
        owner,
        asker,
        reason,
        last_day,
    ] = words
    else {
        return Err(Stop::NoCall);
    };
    Ok(WaiverRow {
        id: WaiverId(number(id)?),
        top: text(alloc, top)?,
        rule: text(alloc, rule)?,
        target: text(alloc, target)?,
        file: text(alloc, file)?,
        at: number(at)?,
        digest: digest(2),
        owner: name(owner)?,
        asker: name(asker)?,
        reason: text(alloc, reason)?,
        last_day: day(last_day)?,
        ended: None,
    })
}

fn signoff(alloc: Global, words: &[String]) -> Result<SignOffRow, Stop> {
    let [id, top, who, on, word] = words else {
        return Err(Stop::NoCall);
    };
    Ok(SignOffRow {
        id: number(id)?,
        top: text(alloc, top)?,
        who: name(who)?,
        day: day(on)?,
        grade: text(alloc, word)?,
        reach: digest(3),
        edition: Some(EDITION),
    })
}

fn changed(alloc: Global, kind: &str, words: &[String], kept: ReplyRow) -> Result<Change, Stop> {
    match (kind, words) {
        ("put", [name, bytes]) => Ok(Change::PutFile(file(alloc, name, bytes)?, kept)),
        ("drop", [name]) => Ok(Change::DropFile(text(alloc, name)?, kept)),
        ("grant", _) => Ok(Change::Grant(waiver(alloc, words)?, kept)),
        ("revoke", [id, on]) => Ok(Change::Revoke(WaiverId(number(id)?), day(on)?, kept)),
        ("sign", _) => Ok(Change::SignOff(signoff(alloc, words)?, kept)),
        _ => Err(Stop::NoCall),
    }
}

/// The change that is `KIND REQUEST WORD..`.
pub fn change(alloc: Global, words: &[String]) -> Result<Change, Stop> {
    let [kind, request, words @ ..] = words else {
        return Err(Stop::NoCall);
    };
    changed(alloc, kind, words, reply(alloc, request)?)
}
