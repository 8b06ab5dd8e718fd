// Macros are replaced by their bodies.

ghost use Rattle.std.specs.Prelude.{◌≡◌, ◌≤◌, ◌<◌, OnOk, Option, length, map};
ghost use Rattle.rtl_prep.specs.Stops.{Tells};
ghost use Rattle.rtl_prep.specs.Macros as spec;
ghost use Rattle.rtl_prep.specs.Tables as table;
ghost use Rattle.rtl_prep.specs.Tables.{held, gained, seen_macro};

use crate::directive::{directive_of, name_of, refused};
use crate::fault::PrepFault;
use crate::macros::{Macro, Macros};
use rtl_tree::token::{MAX_TOKENS, Tok, Token};
use std::alloc::Global;
use std::collections::LinkedList;

/// How many replacements of macros there may be in a file.
pub const MAX_REPLACEMENTS: usize = 200_000;

/// A replacement that is being read.
#[derive(Clone, Copy)]
pub struct Frame<'a> {
    pub name: &'a [u8],
    /// What is left of its body.
    pub rest: &'a [Token],
}

/// The macros of a text, and what is kept of it. After an `Err` it is of no use.
#[derive(Drop)]
pub struct Replacer<'a> {
    pub alloc: Global,
    pub text: &'a [u8],
    pub macros: Macros<'a>,
    pub kept: Vec<Token>,
    /// How many replacements there were.
    pub used: usize,
}

impl<'a> Replacer<'a> {
    #[tactic(auto, unfolding(crate::specs::Macros::keep))]
    pub fn keep(&mut self, token: Token) -> Result<(), PrepFault>
        ensures text { self.new.text.now ≡ self.old.text.now }
        ensures macros { table.table self.new.macros ≡ table.table self.old.macros }
        ensures step { Tells (λ _. gained self.new) (spec.keep (gained self.old) token) result }
    {
        if self.kept.len() < MAX_TOKENS {
            self.kept.push(token)?;
            Ok(())
        } else {
            Err(PrepFault::TooManyTokens(token.at))
        }
    }

    /// The macro whose replacement begins at the use of a name.
    #[tactic(auto, unfolding(crate::specs::Macros::begun))]
    fn begun(&self, name: &[u8], at: u32) -> Result<Macro<'a>, PrepFault>
        ensures step { Tells seen_macro
            (spec.begun (table.table self.now.macros) name.now at (gained self.now)) result }
        ensures room { OnOk result (self.now.used < MAX_REPLACEMENTS) }
    {
        if directive_of(name).is_some() {
            return Err(refused(self.alloc, name, at));
        }
        let Some(found) = self.macros.get(name) else {
            return Err(refused(self.alloc, name, at));
        };
        if found.busy {
            return Err(looped(self.alloc, name, at));
        }
        if self.used >= MAX_REPLACEMENTS {
            return Err(PrepFault::TooManyTokens(at));
        }
        Ok(found)
    }

    #[tactic(auto, unfolding(crate::specs::Tables::begins))]
    fn begin(
        &mut self,
        frames: &mut LinkedList<Frame<'a>>,
        name: &'a [u8],
        at: u32,
    ) -> Result<(), PrepFault>
        ensures text { self.new.text.now ≡ self.old.text.now }
        ensures step { Tells (λ _. held self.new frames.new)
            (table.begins (held self.old frames.old) name.now at) result }
    {
        let found = self.begun(name, at)?;
        self.macros.mark(name, true);
        frames.push_front(Frame {
            name,
            rest: found.body,
        })?;
        self.used += 1;
        Ok(())
    }

    /// The next token of the innermost replacement, or its end.
    #[tactic(auto, unfolding(crate::specs::Tables::goes_on))]
    fn go_on(
        &mut self,
        frames: &mut LinkedList<Frame<'a>>,
        frame: Frame<'a>,
        at: u32,
    ) -> Result<(), PrepFault>
        ensures text { self.new.text.now ≡ self.old.text.now }
        ensures step { Tells (λ _. held self.new frames.new)
            (table.goes_on self.old.text.now at frame.entry.rest.now frame.entry.name.now
            (held self.old frames.old)) result }
    {
        let [token, rest @ ..] = frame.rest else {
            self.macros.mark(frame.name, false);
            return Ok(());
        };
        frames.push_front(Frame {
            name: frame.name,
            rest,
        })?;
        if is_directive(token.kind) {
            self.begin(frames, name_of(self.text, *token), at)
        } else {
            self.keep(Token {
                kind: token.kind,
                from: token.from,
                to: token.to,
                at,
            })
        }
    }

    /// The use of a name: its macro's body takes its stead.
    pub fn replace(&mut self, name: &'a [u8], at: u32) -> Result<(), PrepFault>
        ensures text { self.new.text.now ≡ self.old.text.now }
        ensures macros { OnOk result (table.table self.new.macros ≡ table.table self.old.macros) }
        ensures step { Tells (λ _. gained self.new)
            (spec.used MAX_REPLACEMENTS self.old.text.now
            (table.table self.old.macros) at name.now (gained self.old)) result }
    {
        let mut frames = LinkedList::new(self.alloc);
        self.begin(&mut frames, name, at)?;
        while let Some(frame) = frames.pop_front() {
            self.go_on(&mut frames, frame, at)?;
        }
        Ok(())
    }
}

pub(crate) fn is_directive(kind: Tok) -> bool
    ensures { result ≡ spec.is_directive kind }
{
    match kind {
        Tok::Directive => true,
        _ => false,
    }
}

/// A macro that is used within its own replacement.
fn looped(alloc: Global, name: &[u8], at: u32) -> PrepFault
    ensures { Tells (λ u. u) (table.looping name.now at) (table.failed result) }
{
    match Vec::from_slice(alloc, name) {
        Ok(name) => PrepFault::MacroLoop(name, at),
        Err(_) => PrepFault::Memory,
    }
}
