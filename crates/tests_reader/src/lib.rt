//! Rows of an input, for the programs of rows, and how what they answer is written.
//!
//! A row is a title behind `== `, words behind `$ ` or `> `, faults behind `! `, and files: a name
//! behind `@ `, each line behind `|`, one that ends in a carriage return and a line feed behind
//! `^`, and a last line without its line feed behind `\`. `*N LINE` stands for N lines, `%N TEXT`
//! for N times a text without a line feed, and `& HEX HEX` for bytes. Lines that begin with `#` and
//! empty lines say nothing.
#![tactic(auto)]

use std::alloc::{AllocError, Global};
use std::io;
use std::io::ErrorKind;

/// How many lines are shown at each end of a text that is too long.
const SHOWN_LINES: usize = 4;

/// What a row that can't be read ends with.
pub fn malformed() -> io::Error {
    io::Error::from(ErrorKind::InvalidData)
}

/// A file that a row has.
#[derive(Drop)]
pub struct File {
    pub name: String,
    pub text: Vec<u8>,
}

/// What a row wants.
#[derive(Drop)]
pub struct Row {
    alloc: Global,
    pub title: String,
    /// Whether the words stand behind `> `.
    pub is_look: bool,
    pub words: Vec<String>,
    pub faults: Vec<String>,
    pub files: Vec<File>,
}

impl Row {
    pub fn new(alloc: Global, title: &str) -> io::Result<Self> {
        Ok(Row {
            alloc,
            title: String::from_str(alloc, title)?,
            is_look: false,
            words: Vec::new(alloc),
            faults: Vec::new(alloc),
            files: Vec::new(alloc),
        })
    }

    /// The text of the file with a name.
    pub fn text(&self, name: &str) -> Option<&[u8]> {
        for file in &self.files {
            if file.name.as_str() == name {
                return Some(&file.text);
            }
        }
        None
    }

    /// Reads the row's next line.
    pub fn read(&mut self, line: &str) -> io::Result<()> {
        if let Some(text) = line.strip_prefix("|") {
            self.add(1, text, "\n")
        } else if let Some(text) = line.strip_prefix("^") {
            self.add(1, text, "\r\n")
        } else if let Some(text) = line.strip_prefix("\\") {
            self.add(1, text, "")
        } else if let Some(more) = line.strip_prefix("*") {
            self.repeat(more, "\n")
        } else if let Some(more) = line.strip_prefix("%") {
            self.repeat(more, "")
        } else if let Some(digits) = line.strip_prefix("& ") {
            self.add_bytes(digits)
        } else {
            self.read_other(line)
        }
    }

    fn read_other(&mut self, line: &str) -> io::Result<()> {
        if let Some(name) = line.strip_prefix("@ ") {
            self.begin_file(name)
        } else if let Some(words) = line.strip_prefix("$") {
            self.read_words(words)
        } else if let Some(words) = line.strip_prefix(">") {
            self.is_look = true;
            self.read_words(words)
        } else if let Some(fault) = line.strip_prefix("! ") {
            Ok(self.faults.push(String::from_str(self.alloc, fault)?)?)
        } else {
            Ok(())
        }
    }

    fn begin_file(&mut self, name: &str) -> io::Result<()> {
        let file = File {
            name: String::from_str(self.alloc, name)?,
            text: Vec::new(self.alloc),
        };
        Ok(self.files.push(file)?)
    }

    fn read_words(&mut self, words: &str) -> io::Result<()> {
        for word in words.split(" ").skip(1) {
            self.words.push(String::from_str(self.alloc, word)?)?;
        }
        Ok(())
    }

    /// Adds a text some times to the last file, each with an end behind it.
    fn add(&mut self, times: u32, text: &str, end: &str) -> io::Result<()> {
        let Some(file) = self.files.last_mut() else {
            return Err(malformed());
        };
        for _ in 0..times {
            file.text.extend_from_slice(text.as_bytes())?;
            file.text.extend_from_slice(end.as_bytes())?;
        }
        Ok(())
    }

    fn repeat(&mut self, more: &str, end: &str) -> io::Result<()> {
        let (count, text) = more.split_once(" ").ok_or(malformed())?;
        let times = count.parse::<u32>().map_err(|_| malformed())?;
        self.add(times, text, end)
    }

    fn add_bytes(&mut self, digits: &str) -> io::Result<()> {
        let Some(file) = self.files.last_mut() else {
            return Err(malformed());
        };
        for byte in digits.split(" ") {
            let byte = u8::from_str_radix(byte, 16).map_err(|_| malformed())?;
            file.text.push(byte)?;
        }
        Ok(())
    }
}

/// Writes a line behind `|`, one that ends in a carriage return behind `^`, and one without its
/// line feed behind `\`.
fn show_line(rt: &impl Print, line: &str) -> io::Result<()> {
    if let Some(line) = line.strip_suffix("\r\n") {
        println!(rt; "^{line}")
    } else if let Some(line) = line.strip_suffix("\n") {
        println!(rt; "|{line}")
    } else {
        println!(rt; "\\{line}")
    }
}

/// Writes each line as a row has it; of more than so many lines the first and the last.
pub fn show(rt: &impl Print, text: &[u8], most: usize) -> io::Result<()> {
    let text = str::from_utf8(text).map_err(|_| malformed())?;
    let count = text.split_inclusive("\n").count();
    for (at, line) in text.split_inclusive("\n").enumerate() {
        if count <= most || at < SHOWN_LINES || count.saturating_sub(at) <= SHOWN_LINES {
            show_line(rt, line)?;
        } else if at == SHOWN_LINES {
            println!(rt; "..")?;
        }
    }
    Ok(())
}

/// Adds the byte that a letter behind a backslash stands for, and what follows it.
fn push_escape(text: &[u8], out: &mut Vec<u8>) -> io::Result<()> {
    let (letter, rest) = text.split_first().ok_or(malformed())?;
    let byte = match *letter {
        b'n' => b'\n',
        b'r' => b'\r',
        b't' => b'\t',
        b'"' => b'"',
        b'x' => return push_byte(rest, out),
        _ => return Err(malformed()),
    };
    out.push(byte)?;
    Ok(out.extend_from_slice(rest)?)
}

/// Adds the byte of two digits, and what follows them.
fn push_byte(text: &[u8], out: &mut Vec<u8>) -> io::Result<()> {
    let (digits, rest) = text.split_at_checked(2).ok_or(malformed())?;
    let digits = str::from_utf8(digits).map_err(|_| malformed())?;
    out.push(u8::from_str_radix(digits, 16).map_err(|_| malformed())?)?;
    Ok(out.extend_from_slice(rest)?)
}

/// The bytes of a text in which `\n`, `\r`, `\t`, `\"`, `\\` and `\xHH` stand for one byte each.
pub fn unescaped(alloc: Global, text: &[u8]) -> io::Result<Vec<u8>> {
    let mut out = Vec::new(alloc);
    let mut is_escaped = false;
    for part in text.split(|b| *b == b'\\') {
        if is_escaped && part.is_empty() {
            out.push(b'\\')?;
        } else if is_escaped {
            push_escape(part, &mut out)?;
        } else {
            out.extend_from_slice(part)?;
        }
        is_escaped = !is_escaped || !part.is_empty();
    }
    Ok(out)
}

/// Writes bytes between quotes, so that `unescaped` reads what stands between them.
pub fn push_quoted(alloc: Global, bytes: &[u8], out: &mut Vec<u8>) -> Result<(), AllocError> {
    out.push(b'"')?;
    for byte in bytes {
        match *byte {
            b'\n' => out.extend_from_slice(b"\\n")?,
            b'\r' => out.extend_from_slice(b"\\r")?,
            b'\t' => out.extend_from_slice(b"\\t")?,
            b'"' => out.extend_from_slice(b"\\\"")?,
            b'\\' => out.extend_from_slice(b"\\\\")?,
            b' '..=b'~' => out.push(*byte)?,
            other => {
                let escape = format!(in alloc; "\\x{other:02x}")?;
                out.extend_from_slice(escape.as_bytes())?;
            }
        }
    }
    out.push(b'"')?;
    Ok(())
}
