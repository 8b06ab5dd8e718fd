//! Words that stand behind one another, with a blank between them.

use std::alloc::AllocError;

/// Writes bytes as a word.
pub fn put(word: &[u8], out: &mut Vec<u8>) -> Result<(), AllocError> {
    if !out.is_empty() {
        out.push(b' ')?;
    }
    out.extend_from_slice(word)?;
    Ok(())
}

/// Writes a text as a word.
pub fn say(out: &mut Vec<u8>, word: &str) -> Result<(), AllocError> {
    put(word.as_bytes(), out)
}
