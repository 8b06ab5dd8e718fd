//! The changes of a dump.

ghost use Rattle.std.specs.Prelude.{◌≡◌, ◌≤◌, IfErr, IfOk, Ok, length};
ghost use Rattle.vcd_read.specs.Changes.{begun, bit_of, body_of, coded, nothing, opened, real, recorded, recorded_as, scalar, taken, timed, vector, written};
ghost use Rattle.vcd_read.specs.Codes.{codes_of};
ghost use Rattle.vcd_read.specs.Keywords.{keyword_of};
ghost use Rattle.vcd_read.specs.Told.{IsTold};

use crate::codes::Codes;
use crate::dump::{Change, Frame};
use crate::fault::VcdFault;
use crate::number::number_of;
use crate::part::{Keyword, Recording, keyword_of};
use rtl_bits::Bit;
use std::alloc::Global;

/// The most words that are times.
const MOST_TIMES: u32 = 100_000;

/// What is recorded so far.
#[derive(Drop)]
pub(crate) struct Body {
    pub(crate) bits: Vec<Bit>,
    pub(crate) changes: Vec<Change>,
    pub(crate) frames: Vec<Frame>,
    /// How many words are times.
    times: u32,
    /// The last time, or 0.
    last: u64,
}

/// The bit that a byte writes.
fn bit_of(byte: u8) -> Option<Bit>
    ensures { result ≡ bit_of byte }
{
    if byte == b'0' {
        Some(Bit::Zero)
    } else if byte == b'1' {
        Some(Bit::One)
    } else if byte == b'x' || byte == b'X' {
        Some(Bit::X)
    } else if byte == b'z' || byte == b'Z' {
        Some(Bit::Z)
    } else {
        None
    }
}

/// A real number, before its code.
fn real(at: u32, text: &[u8]) -> Result<Recording, VcdFault>
    ensures { result ≡ real at text.now }
{
    if text.is_empty() {
        Err(VcdFault::Malformed(at))
    } else {
        Ok(Recording::RealCode)
    }
}

impl Body {
    pub(crate) fn new(alloc: Global) -> Body
        ensures { body_of result ≡ nothing }
    {
        Body {
            bits: Vec::new(alloc),
            changes: Vec::new(alloc),
            frames: Vec::new(alloc),
            times: 0,
            last: 0,
        }
    }

    /// What follows is recorded at this time.
    fn begin(&mut self, at: u32, time: Option<u64>) -> Result<Recording, VcdFault>
        ensures read { IfOk result (λ part. begun (body_of self.old) at time
            ≡ Ok (part, body_of self.new)) }
        ensures fault { IfErr result (λ fault. IsTold fault (begun (body_of self.old) at time)) }
    {
        let Some(time) = time else {
            return Err(VcdFault::Malformed(at));
        };
        if time < self.last {
            return Err(VcdFault::Malformed(at));
        }
        if self.frames.is_empty() || self.last < time {
            let before = self.changes.len();
            self.frames.push(Frame { time, before })?;
        }
        self.last = time;
        Ok(Recording::Change)
    }

    /// A time is written.
    fn time(&mut self, at: u32, digits: &[u8]) -> Result<Recording, VcdFault>
        ensures read { IfOk result (λ part. timed (body_of self.old) at digits.now
            ≡ Ok (part, body_of self.new)) }
        ensures fault { IfErr result
            (λ fault. IsTold fault (timed (body_of self.old) at digits.now)) }
    {
        if self.times >= MOST_TIMES {
            return Err(VcdFault::TooLarge(at));
        }
        self.times += 1;
        self.begin(at, number_of(digits))
    }

    /// A bit, and the code of what it is written to.
    fn scalar(
        &mut self,
        codes: &Codes,
        at: u32,
        first: u8,
        text: &[u8],
    ) -> Result<Recording, VcdFault>
        ensures read { IfOk result
            (λ part. scalar (codes_of codes.now) (body_of self.old) at (bit_of first) text.now
            ≡ Ok (part, body_of self.new)) }
        ensures fault { IfErr result
            (λ fault. IsTold fault (scalar (codes_of codes.now) (body_of self.old) at (bit_of first) text.now)) }
    {
        let Some(bit) = bit_of(first) else {
            return Err(VcdFault::Malformed(at));
        };
        let Some(code) = codes.find(text) else {
            return Err(VcdFault::Malformed(at));
        };
        self.bits.push(bit)?;
        self.changes.push(Change {
            code: code.number,
            bits: 1,
        })?;
        Ok(Recording::Change)
    }

    /// Adds the bits of digits.
    fn write(&mut self, at: u32, digits: &[u8]) -> Result<(), VcdFault>
        ensures read { IfOk result (λ _. written (body_of self.old) at digits.now
            ≡ Ok (body_of self.new)) }
        ensures fault { IfErr result
            (λ fault. IsTold fault (written (body_of self.old) at digits.now)) }
    {
        let mut rest = digits;
        while let Some((digit, others)) = rest.split_first() {
            let Some(bit) = bit_of(*digit) else {
                return Err(VcdFault::Malformed(at));
            };
            self.bits.push(bit)?;
            rest = others;
        }
        Ok(())
    }

    /// The bits of a vector, before its code.
    fn vector(&mut self, at: u32, digits: &[u8]) -> Result<Recording, VcdFault>
        requires { length digits.now ≤ 1048576 }
        ensures read { IfOk result (λ part. vector (body_of self.old) at digits.now
            ≡ Ok (part, body_of self.new)) }
        ensures fault { IfErr result
            (λ fault. IsTold fault (vector (body_of self.old) at digits.now)) }
    {
        if digits.is_empty() {
            return Err(VcdFault::Malformed(at));
        }
        self.write(at, digits)?;
        Ok(Recording::VectorCode(at, digits.len() as u32))
    }

    /// The code that a vector of so many bits, which stands at this place, is written to.
    fn coded(
        &mut self,
        codes: &Codes,
        before: u32,
        bits: u32,
        at: u32,
        word: &[u8],
    ) -> Result<Recording, VcdFault>
        ensures read { IfOk result
            (λ part. coded (body_of self.old) before bits at (codes_of codes.now word.now)
            ≡ Ok (part, body_of self.new)) }
        ensures fault { IfErr result
            (λ fault. IsTold fault (coded (body_of self.old) before bits at (codes_of codes.now word.now))) }
    {
        let Some(code) = codes.find(word) else {
            return Err(VcdFault::Malformed(at));
        };
        if code.width != 0 && bits > u32::from(code.width) {
            return Err(VcdFault::Malformed(before));
        }
        self.changes.push(Change {
            code: code.number,
            bits,
        })?;
        Ok(Recording::Change)
    }

    /// A word that begins with this byte, where a change may stand.
    fn first(
        &mut self,
        codes: &Codes,
        at: u32,
        first: u8,
        text: &[u8],
    ) -> Result<Recording, VcdFault>
        requires { length text.now ≤ 1048576 }
        ensures read { IfOk result (λ part. opened (codes_of codes.now) (body_of self.old) at first text.now
            ≡ Ok (part, body_of self.new)) }
        ensures fault { IfErr result
            (λ fault. IsTold fault (opened (codes_of codes.now) (body_of self.old) at first text.now)) }
    {
        if first == b'#' {
            self.time(at, text)
        } else if first == b'b' || first == b'B' {
            self.vector(at, text)
        } else if first == b'r' || first == b'R' {
            real(at, text)
        } else {
            self.scalar(codes, at, first, text)
        }
    }

    /// A word where a change may stand.
    fn record(&mut self, codes: &Codes, at: u32, word: &[u8]) -> Result<Recording, VcdFault>
        requires { length word.now ≤ 1048576 }
        ensures read { IfOk result (λ part. recorded (codes_of codes.now) (body_of self.old) at word.now
            ≡ Ok (part, body_of self.new)) }
        ensures fault { IfErr result
            (λ fault. IsTold fault (recorded (codes_of codes.now) (body_of self.old) at word.now)) }
    {
        match word.split_first() {
            None => Err(VcdFault::Malformed(at)),
            Some((first, text)) => self.first(codes, at, *first, text),
        }
    }

    /// A word where a change may stand, which asks for this.
    fn begin_word(&mut self, codes: &Codes, at: u32, word: &[u8]) -> Result<Recording, VcdFault>
        requires { length word.now ≤ 1048576 }
        ensures read { IfOk result
            (λ part. recorded_as (codes_of codes.now) (body_of self.old) at word.now (keyword_of word.now)
            ≡ Ok (part, body_of self.new)) }
        ensures fault { IfErr result
            (λ fault. IsTold fault (recorded_as (codes_of codes.now) (body_of self.old) at word.now (keyword_of word.now))) }
    {
        match keyword_of(word) {
            Keyword::Dump => Ok(Recording::Change),
            Keyword::Comment => Ok(Recording::Comment),
            Keyword::No => self.record(codes, at, word),
            Keyword::Scope
            | Keyword::Upscope
            | Keyword::Var
            | Keyword::EndDefinitions
            | Keyword::End
            | Keyword::Other => Err(VcdFault::Malformed(at)),
        }
    }

    /// One word more of the changes, which isn't `$end`.
    pub(crate) fn take(
        &mut self,
        codes: &Codes,
        part: Recording,
        at: u32,
        word: &[u8],
    ) -> Result<Recording, VcdFault>
        requires { length word.now ≤ 1048576 }
        ensures read { IfOk result (λ next. taken (codes_of codes.now) part at word.now (body_of self.old)
            ≡ Ok (next, body_of self.new)) }
        ensures fault { IfErr result
            (λ fault. IsTold fault (taken (codes_of codes.now) part at word.now (body_of self.old))) }
    {
        match part {
            Recording::Change => self.begin_word(codes, at, word),
            Recording::Comment => Ok(Recording::Comment),
            Recording::VectorCode(before, bits) => self.coded(codes, before, bits, at, word),
            Recording::RealCode => match codes.find(word) {
                None => Err(VcdFault::Malformed(at)),
                Some(_) => Ok(Recording::Change),
            },
        }
    }
}
