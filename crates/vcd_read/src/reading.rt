//! A text, read as a dump.

ghost use Rattle.std.specs.Prelude.{◌≡◌, ◌≤◌, IfErr, IfOk, Ok, length};
ghost use Rattle.vcd_read.specs.Reading.{closed, continued, dump_of, ended, finished, may_end, read, run, start, state_of, taken};
ghost use Rattle.vcd_read.specs.Told.{IsTold};
ghost use Rattle.vcd_read.specs.Words.{words};

use crate::body::Body;
use crate::dump::Dump;
use crate::fault::VcdFault;
use crate::header::Header;
use crate::part::{Declaring, Keyword, Part, Recording, keyword_of};
use crate::word::next_word;
use std::alloc::Global;

/// What is read so far.
#[derive(Drop)]
struct Reader {
    header: Header,
    body: Body,
    part: Part,
}

/// What follows behind `$end`.
fn ended(part: Part, at: u32) -> Result<Part, VcdFault>
    ensures { result ≡ ended part at }
{
    match part {
        Part::Declaring(Declaring::Passed) => Ok(Part::Declaring(Declaring::Command)),
        Part::Declaring(Declaring::Closed) => Ok(Part::Declaring(Declaring::Command)),
        Part::Declaring(Declaring::Last) => Ok(Part::Recording(Recording::Change)),
        Part::Recording(Recording::Comment) => Ok(Part::Recording(Recording::Change)),
        Part::Recording(Recording::Change) => Ok(Part::Recording(Recording::Change)),
        _ => Err(VcdFault::Malformed(at)),
    }
}

/// Whether a text may end here: behind its declarations, where a change might follow.
fn may_end(part: Part) -> bool
    ensures { result ≡ may_end part }
{
    match part {
        Part::Recording(Recording::Change) => true,
        _ => false,
    }
}

impl Reader {
    fn new(alloc: Global) -> Reader
        ensures { state_of result ≡ start }
    {
        Reader {
            header: Header::new(alloc),
            body: Body::new(alloc),
            part: Part::Declaring(Declaring::Command),
        }
    }

    /// One word more, which isn't `$end`.
    fn continue_with(&mut self, at: u32, word: &[u8]) -> Result<(), VcdFault>
        requires { length word.now ≤ 1048576 }
        ensures read { IfOk result (λ _. continued (state_of self.old) at word.now
            ≡ Ok (state_of self.new)) }
        ensures fault { IfErr result
            (λ fault. IsTold fault (continued (state_of self.old) at word.now)) }
    {
        match self.part {
            Part::Declaring(part) => {
                let next = self.header.take(part, at, word)?;
                self.part = Part::Declaring(next);
            }
            Part::Recording(part) => {
                let next = self.body.take(&self.header.codes, part, at, word)?;
                self.part = Part::Recording(next);
            }
        }
        Ok(())
    }

    /// `$end`.
    fn end(&mut self, at: u32) -> Result<(), VcdFault>
        ensures read { IfOk result (λ _. closed (state_of self.old) at ≡ Ok (state_of self.new)) }
        ensures fault { IfErr result (λ fault. IsTold fault (closed (state_of self.old) at)) }
    {
        self.part = ended(self.part, at)?;
        Ok(())
    }

    /// One word more.
    fn take(&mut self, at: u32, word: &[u8]) -> Result<(), VcdFault>
        requires { length word.now ≤ 1048576 }
        ensures read { IfOk result (λ _. taken (state_of self.old) at word.now
            ≡ Ok (state_of self.new)) }
        ensures fault { IfErr result
            (λ fault. IsTold fault (taken (state_of self.old) at word.now)) }
    {
        if word == b"$end".as_slice() {
            self.end(at)
        } else {
            self.continue_with(at, word)
        }
    }

    /// What is read, where the text ends here.
    fn finish(self, end: u32) -> Result<Dump, VcdFault>
        ensures read { IfOk result (λ made. finished (state_of self) end ≡ Ok (dump_of made)) }
        ensures fault { IfErr result (λ fault. IsTold fault (finished (state_of self) end)) }
    {
        let Reader { header, body, part } = self;
        if !may_end(part) {
            return Err(VcdFault::Malformed(end));
        }
        Ok(Dump {
            entries: header.entries,
            bits: body.bits,
            changes: body.changes,
            frames: body.frames,
        })
    }
}

/// The words of a text.
fn read_words(alloc: Global, text: &[u8]) -> Result<Reader, VcdFault>
    requires { length text.now ≤ 1048576 }
    ensures read { IfOk result (λ made. run start (words 0 text.now) ≡ Ok (state_of made)) }
    ensures fault { IfErr result (λ fault. IsTold fault (run start (words 0 text.now))) }
{
    let mut reader = Reader::new(alloc);
    let mut at = 0;
    let mut rest = text;
    while let Some(found) = next_word(at, rest) {
        reader.take(found.at, found.word)?;
        at = found.end;
        rest = found.rest;
    }
    Ok(reader)
}

/// Reads a value change dump in the four-state form: what it declares, and what changes when.
///
/// Numbers are decimal, within 64 bits. Real variables, and those wider than 128 bits, aren't kept: changes of their codes
/// belong to no variable, and what is written behind `r` isn't looked at.
///
/// Of all places the least decides that no word, or no end of the text, can stand at, and that a variable or a time stands
/// at that is one too many.
pub fn read(alloc: Global, text: &[u8]) -> Result<Dump, VcdFault>
    requires { length text.now ≤ 1048576 }
    ensures read { IfOk result (λ made. read text.now ≡ Ok (dump_of made)) }
    ensures fault { IfErr result (λ fault. IsTold fault (read text.now)) }
{
    let reader = read_words(alloc, text)?;
    reader.finish(text.len() as u32)
}
