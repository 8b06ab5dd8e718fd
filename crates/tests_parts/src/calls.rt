//! Calls as lines of words.

use crate::stop::Stop;
use std::alloc::Global;

/// The words of a line.
pub fn words_of(alloc: Global, line: &str) -> Result<Vec<String>, Stop> {
    let mut words = Vec::new(alloc);
    for word in line.split(" ") {
        words.push(String::from_str(alloc, word)?)?;
    }
    Ok(words)
}

/// A text of bytes.
pub fn text_of(bytes: &[u8]) -> Result<&str, Stop> {
    match str::from_utf8(bytes) {
        Ok(text) => Ok(text),
        Err(_) => Err(Stop::NoCall),
    }
}

/// Writes a text behind others.
pub fn say(out: &mut Vec<u8>, text: &str) -> Result<(), Stop> {
    Ok(out.extend_from_slice(text.as_bytes())?)
}
