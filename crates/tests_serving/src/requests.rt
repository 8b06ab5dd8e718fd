//! What a row has outside the call: files, clients with what they send, days, and what fails.

use crate::outside::{Outside, outside_over};
use crate::stop::Stop;
use desk_links::MemoryLink;
use desk_tables::{Day, FileRow, Name};
use sha2::{Digest, Sha256};
use std::alloc::Global;
use tests_reader::{File, Row};
use text_ground::text::Text;

/// 2024-01-01, which the clock gives where no request says otherwise.
const TODAY: i32 = 19_723;

/// How often.
const MOST_DAYS: u32 = 2_000;

/// A request by its words, and its bytes.
#[derive(Drop)]
pub struct Asked {
    pub line: String,
    pub day: Day,
    pub bytes: Vec<u8>,
}

fn name(word: &str) -> Result<Name, Stop> {
    match Name::new(word.as_bytes()) {
        Some(name) => Ok(name),
        None => Err(Stop::NoFile),
    }
}

pub fn day(number: i32) -> Result<Day, Stop> {
    match Day::new(number) {
        Some(day) => Ok(day),
        None => Err(Stop::NoRequest),
    }
}

fn kept_file(alloc: Global, named: &str, text: &[u8]) -> Result<FileRow, Stop> {
    Ok(FileRow {
        name: Text::from_bytes(alloc, named.as_bytes())?,
        text: Text::from_bytes(alloc, text)?,
        digest: Sha256::digest(text),
        editor: name("ann")?,
    })
}

/// The rows of the table of files.
fn kept_files(alloc: Global, files: &[File]) -> Result<Vec<FileRow>, Stop> {
    let mut rows = Vec::new(alloc);
    for file in files {
        if let Some(named) = file.name.strip_prefix("kept ") {
            rows.push(kept_file(alloc, named, &file.text)?)?;
        }
    }
    Ok(rows)
}

pub fn words_of(alloc: Global, line: &str) -> Result<Vec<String>, Stop> {
    let mut words = Vec::new(alloc);
    for word in line.split(" ") {
        words.push(String::from_str(alloc, word)?)?;
    }
    Ok(words)
}

/// The head of a request, up to the length of its body.
fn head(alloc: Global, words: &[String]) -> Result<String, Stop> {
    let [_, user, label, method, target, ..] = words else {
        return Err(Stop::NoRequest);
    };
    let mut text = format!(in alloc; "{method} {target} HTTP/1.1\r\nDesk-User: {user}\r\n")?;
    if label.as_str() != "-" {
        text.push_str(&format!(in alloc; "Desk-Request: {label}\r\n")?)?;
    }
    Ok(text)
}

/// The text of the file that the last word names, where there is one.
fn body<'r>(row: &'r Row, words: &[String]) -> Result<&'r [u8], Stop> {
    let Some(name) = words.get(5) else {
        return Ok(b"");
    };
    match row.text(name) {
        Some(text) => Ok(text),
        None => Err(Stop::NoFile),
    }
}

fn day_of(words: &[String]) -> Result<Day, Stop> {
    match words.first().map(|word| word.parse::<i32>()) {
        Some(Ok(number)) => day(number),
        _ => Err(Stop::NoRequest),
    }
}

/// The request of a line.
pub fn request_of(alloc: Global, row: &Row, line: &str) -> Result<Asked, Stop> {
    let words = words_of(alloc, line)?;
    let body = body(row, &words)?;
    let mut text = head(alloc, &words)?;
    text.push_str(&format!(in alloc; "Content-Length: {}\r\n\r\n", body.len())?)?;
    let mut bytes = text.into_bytes();
    bytes.extend_from_slice(body)?;
    Ok(Asked {
        line: String::from_str(alloc, line)?,
        day: day_of(&words)?,
        bytes,
    })
}

/// All requests of a row.
pub fn all_asked(alloc: Global, row: &Row) -> Result<Vec<Asked>, Stop> {
    let mut all = Vec::new(alloc);
    let lines = row.text("requests").unwrap_or(b"");
    let Ok(lines) = str::from_utf8(lines) else {
        return Err(Stop::NoRequest);
    };
    for line in lines.lines() {
        all.push(request_of(alloc, row, line)?)?;
    }
    Ok(all)
}

/// The days of the requests, or many of one day.
fn days_of(alloc: Global, all: &[Asked]) -> Result<Vec<Day>, Stop> {
    let mut days = Vec::new(alloc);
    for one in all {
        days.push(one.day)?;
    }
    if days.is_empty() {
        let today = day(TODAY)?;
        for _ in 0..MOST_DAYS {
            days.push(today)?;
        }
    }
    Ok(days)
}

/// Has calls of a link fail, or has them move few bytes, as a fault says for it or for all of them.
fn plan_link(fault: &[String], number: usize, link: &mut MemoryLink) -> Result<(), Stop> {
    let [kind, which, what, count] = fault else {
        return Ok(());
    };
    let (Ok(which), Ok(count)) = (which.parse::<u32>(), count.parse::<u32>()) else {
        return Err(Stop::NoFault);
    };
    if kind.as_str() != "link" || (which != 0 && which as usize != number) {
        return Ok(());
    }
    match what.as_str() {
        "read" => Ok(link.fail_read(u64::from(count))?),
        "write" => Ok(link.fail_write(u64::from(count))?),
        "most" => {
            link.move_at_most(count as usize);
            Ok(())
        }
        _ => Err(Stop::NoFault),
    }
}

/// A link that sends these bytes, with its number among the row's clients.
fn link_of(alloc: Global, row: &Row, number: usize, input: &[u8]) -> Result<MemoryLink, Stop> {
    let mut link = MemoryLink::new(alloc, Vec::from_slice(alloc, input)?)?;
    for fault in &row.faults {
        plan_link(&words_of(alloc, fault)?, number, &mut link)?;
    }
    Ok(link)
}

fn connect(alloc: Global, row: &Row, outside: &mut Outside, input: &[u8]) -> Result<(), Stop> {
    let number = outside.links().saturating_add(1);
    outside.connect(link_of(alloc, row, number, input)?)
}

/// Has a call of what is outside fail.
pub fn fail(outside: &mut Outside, what: &str, call: u64) -> Result<(), Stop> {
    match what {
        "read" => Ok(outside.shelf.fail_at(call)?),
        "write" => Ok(outside.sink.fail_at(call)?),
        "keeper" => Ok(outside.keeper.fail_at(call)?),
        "clock" => Ok(outside.clock.fail_at(call)?),
        "door" => Ok(outside.door.fail_at(call)?),
        _ => Err(Stop::NoFault),
    }
}

fn plan(outside: &mut Outside, fault: &[String]) -> Result<(), Stop> {
    let [what, count] = fault else {
        return Ok(());
    };
    let Ok(count) = count.parse::<u32>() else {
        return Ok(());
    };
    if what.as_str() == "piece" {
        outside.sink.take_at_most(count as usize);
        return Ok(());
    }
    fail(outside, what, u64::from(count))
}

/// What a row has outside the call but for its clients, where the clock gives the days of some
/// requests.
pub fn outside_with(alloc: Global, row: &Row, all: &[Asked]) -> Result<Box<Outside>, Stop> {
    let files = kept_files(alloc, &row.files)?;
    let mut outside = outside_over(alloc, files, days_of(alloc, all)?)?;
    for file in &row.files {
        outside.shelf.add(&file.name, &file.text)?;
    }
    for fault in &row.faults {
        plan(&mut outside, &words_of(alloc, fault)?)?;
    }
    Ok(outside)
}

/// What a row has outside the call, with its clients, of which those with requests come last.
pub fn outside_of(alloc: Global, row: &Row, all: &[Asked]) -> Result<Box<Outside>, Stop> {
    let mut outside = outside_with(alloc, row, all)?;
    for file in &row.files {
        if file.name.as_str() == "link" {
            connect(alloc, row, &mut outside, &file.text)?;
        }
    }
    for one in all {
        connect(alloc, row, &mut outside, &one.bytes)?;
    }
    Ok(outside)
}
