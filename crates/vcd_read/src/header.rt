//! The declarations of a dump.

ghost use Rattle.std.specs.Prelude.{◌≡◌, ◌≤◌, IfErr, IfOk, Ok, length};
ghost use Rattle.vcd_read.specs.Declarations.{begun, declared, header_of, name_of, nothing, place_of, scoped, sized, typed, upscoped, variable_begun, variable_coded, variable_named};
ghost use Rattle.vcd_read.specs.Keywords.{keyword_of};
ghost use Rattle.vcd_read.specs.Told.{IsTold};

use crate::codes::Codes;
use crate::dump::{Entry, Variable};
use crate::fault::VcdFault;
use crate::number::number_of;
use crate::part::{Declaring, Keyword, keyword_of};
use std::alloc::Global;
use text_ground::text::Text;

/// The most variables of a dump.
const MOST_VARIABLES: u32 = 20_000;

/// The widest variable that is kept.
const WIDEST: u64 = 128;

/// What is declared so far.
#[derive(Drop)]
pub(crate) struct Header {
    alloc: Global,
    pub(crate) codes: Codes,
    pub(crate) entries: Vec<Entry>,
    /// The places of the scopes that haven't ended.
    scopes: Vec<u32>,
    /// How many variables there are, with those that are skipped.
    variables: u32,
}

/// The first place at which a byte stands, or the length of the text.
fn place_of(mark: u8, text: &[u8]) -> usize
    ensures exact { result ≡ place_of mark text.now }
    ensures within { result ≤ length text.now }
{
    let mut at = 0;
    while at < text.len() && text[at] != mark {
        at += 1;
    }
    at
}

/// A variable's name without its range.
fn name_of(word: &[u8]) -> &[u8]
    ensures { result.now ≡ name_of word.now }
{
    &word[..place_of(b'[', word)]
}

/// What comes behind a variable's type.
fn typed(word: &[u8]) -> Declaring
    ensures { result ≡ typed word.now }
{
    Declaring::VariableWidth(word == b"real".as_slice() || word == b"realtime".as_slice())
}

/// What comes behind a variable's width.
fn sized(real: bool, at: u32, word: &[u8]) -> Result<Declaring, VcdFault>
    ensures { result ≡ sized real at word.now }
{
    match number_of(word) {
        None => Err(VcdFault::Malformed(at)),
        Some(width) => {
            if width == 0 {
                Err(VcdFault::Malformed(at))
            } else if real || width > WIDEST {
                Ok(Declaring::VariableCode(0))
            } else {
                Ok(Declaring::VariableCode(width as u8))
            }
        }
    }
}

impl Header {
    pub(crate) fn new(alloc: Global) -> Header
        ensures { header_of result ≡ nothing }
    {
        Header {
            alloc,
            codes: Codes::new(alloc),
            entries: Vec::new(alloc),
            scopes: Vec::new(alloc),
            variables: 0,
        }
    }

    /// The innermost scope ends.
    fn upscope(&mut self, at: u32) -> Result<Declaring, VcdFault>
        ensures read { IfOk result (λ part. upscoped (header_of self.old) at
            ≡ Ok (part, header_of self.new)) }
        ensures fault { IfErr result (λ fault. IsTold fault (upscoped (header_of self.old) at)) }
    {
        if self.scopes.pop().is_none() {
            return Err(VcdFault::Malformed(at));
        }
        self.entries.push(Entry::Upscope)?;
        Ok(Declaring::Closed)
    }

    /// A variable begins.
    fn begin_variable(&mut self, at: u32) -> Result<Declaring, VcdFault>
        ensures read { IfOk result (λ part. variable_begun (header_of self.old) at
            ≡ Ok (part, header_of self.new)) }
        ensures fault { IfErr result
            (λ fault. IsTold fault (variable_begun (header_of self.old) at)) }
    {
        if self.variables >= MOST_VARIABLES {
            return Err(VcdFault::TooLarge(at));
        }
        self.variables += 1;
        Ok(Declaring::VariableType)
    }

    /// A command begins.
    fn begin(&mut self, at: u32, word: &[u8]) -> Result<Declaring, VcdFault>
        ensures read { IfOk result (λ part. begun (header_of self.old) at (keyword_of word.now)
            ≡ Ok (part, header_of self.new)) }
        ensures fault { IfErr result
            (λ fault. IsTold fault (begun (header_of self.old) at (keyword_of word.now))) }
    {
        match keyword_of(word) {
            Keyword::Scope => Ok(Declaring::ScopeKind),
            Keyword::Upscope => self.upscope(at),
            Keyword::Var => self.begin_variable(at),
            Keyword::EndDefinitions => Ok(Declaring::Last),
            Keyword::Comment | Keyword::Dump | Keyword::Other => Ok(Declaring::Passed),
            Keyword::End | Keyword::No => Err(VcdFault::Malformed(at)),
        }
    }

    /// A scope has this name.
    fn scope(&mut self, at: u32, word: &[u8]) -> Result<Declaring, VcdFault>
        ensures read { IfOk result (λ part. scoped (header_of self.old) word.now
            ≡ Ok (part, header_of self.new)) }
        ensures fault { IfErr result
            (λ fault. IsTold fault (scoped (header_of self.old) word.now)) }
    {
        let name = Text::from_bytes(self.alloc, word)?;
        self.entries.push(Entry::Scope(name))?;
        self.scopes.push(at)?;
        Ok(Declaring::Closed)
    }

    /// A variable has this code.
    fn code(&mut self, width: u8, word: &[u8]) -> Result<Declaring, VcdFault>
        ensures read { IfOk result (λ part. variable_coded (header_of self.old) width word.now
            ≡ Ok (part, header_of self.new)) }
        ensures fault { IfErr result
            (λ fault. IsTold fault (variable_coded (header_of self.old) width word.now)) }
    {
        let code = self.codes.note(word, self.variables, width)?;
        Ok(Declaring::VariableName(width, code))
    }

    /// A variable has this name.
    fn name(&mut self, width: u8, code: u32, word: &[u8]) -> Result<Declaring, VcdFault>
        ensures read { IfOk result (λ part. variable_named (header_of self.old) width code word.now
            ≡ Ok (part, header_of self.new)) }
        ensures fault { IfErr result
            (λ fault. IsTold fault (variable_named (header_of self.old) width code word.now)) }
    {
        if width > 0 {
            let name = Text::from_bytes(self.alloc, name_of(word))?;
            self.entries
                .push(Entry::Variable(Variable { name, width, code }))?;
        }
        Ok(Declaring::Passed)
    }

    /// One word more of the declarations, which isn't `$end`.
    pub(crate) fn take(
        &mut self,
        part: Declaring,
        at: u32,
        word: &[u8],
    ) -> Result<Declaring, VcdFault>
        ensures read { IfOk result (λ next. declared part at word.now (header_of self.old)
            ≡ Ok (next, header_of self.new)) }
        ensures fault { IfErr result
            (λ fault. IsTold fault (declared part at word.now (header_of self.old))) }
    {
        match part {
            Declaring::Command => self.begin(at, word),
            Declaring::Passed => Ok(Declaring::Passed),
            Declaring::Closed | Declaring::Last => Err(VcdFault::Malformed(at)),
            Declaring::ScopeKind => Ok(Declaring::ScopeName),
            Declaring::ScopeName => self.scope(at, word),
            Declaring::VariableType => Ok(typed(word)),
            Declaring::VariableWidth(real) => sized(real, at, word),
            Declaring::VariableCode(width) => self.code(width, word),
            Declaring::VariableName(width, code) => self.name(width, code, word),
        }
    }
}
