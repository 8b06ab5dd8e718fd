// Comments that tell nothing.

ghost use Rattle.std.specs.Prelude.{◌≡◌, ◌++◌, Ok, OnOk};
ghost use Rattle.std.specs.List.{list_any};
ghost use Rattle.rtl_prep.specs.Stops.{Tells};
ghost use Rattle.rtl_prep.specs.Comments as spec;

use crate::fault::PrepFault;
use crate::word::{is_mark, is_word};
use rtl_tree::token::{Pragma, Tok, Token};
use std::alloc::Global;
use text_ground::dropped::{DropKind, Dropped};

/// What the last token is, pragmas aside.
#[derive(Clone, Copy, PartialEq, Eq, Debug)]
pub enum Last {
    /// `case`, `casez` or `casex`.
    CaseWord,
    /// The `)` that closes the head of a case.
    HeadEnd,
    Other,
}

/// Where the tokens are read, and the comments so far behind the regions.
#[derive(Drop)]
pub struct Notes {
    pub last: Last,
    /// Of each `(` that is open, the innermost last, whether it opens the head of a case.
    pub heads: Vec<bool>,
    pub dropped: Vec<Dropped>,
}

fn is_pragma(kind: Tok) -> bool
    ensures { result ≡ spec.is_pragma kind }
{
    matches!(kind, Tok::Pragma(_))
}

fn is_case(text: &[u8], token: Token) -> bool
    ensures { result ≡ spec.is_case text.now token }
{
    is_word(b"case", text, token)
        || is_word(b"casez", text, token)
        || is_word(b"casex", text, token)
}

fn opens_head(last: Last) -> bool
    ensures { result ≡ spec.opens_head last }
{
    matches!(last, Last::CaseWord)
}

/// What a `)` is.
fn behind_close(head: bool) -> Last
    ensures { result ≡ spec.behind_close head }
{
    if head { Last::HeadEnd } else { Last::Other }
}

fn tells_nothing(last: Last, kind: Tok) -> bool
    ensures { result ≡ spec.tells_nothing last kind }
{
    match kind {
        Tok::Pragma(Pragma::Loose) => true,
        Tok::Pragma(Pragma::Case { .. }) => !matches!(last, Last::HeadEnd),
        _ => false,
    }
}

impl Notes {
    /// Goes past a `(`.
    #[tactic(auto, using(crate::proofs::Noted::opened_more))]
    fn open(&mut self) -> Result<(), PrepFault>
        ensures step { Tells (λ _. spec.seen self.new) (Ok (spec.opened (spec.seen self.old))) result }
        ensures same { self.new.dropped ≡ self.old.dropped }
    {
        self.heads.push(opens_head(self.last))?;
        self.last = Last::Other;
        Ok(())
    }

    /// Goes past a `)`.
    #[tactic(auto, using(crate::proofs::Noted::closed_some, crate::proofs::Noted::closed_none))]
    fn close(&mut self)
        ensures step { spec.seen self.new ≡ spec.closed_from (spec.seen self.old).heads }
        ensures same { self.new.dropped ≡ self.old.dropped }
    {
        self.last = match self.heads.pop() {
            Some(head) => behind_close(head),
            None => Last::Other,
        };
    }

    /// Goes past a token that is no pragma.
    fn pass(&mut self, text: &[u8], token: Token) -> Result<(), PrepFault>
        ensures step { Tells (λ _. spec.seen self.new)
            (Ok (spec.past text.now (spec.seen self.old) token)) result }
        ensures same { self.new.dropped ≡ self.old.dropped }
    {
        if is_mark(b"(", text, token) {
            return self.open();
        }
        if is_mark(b")", text, token) {
            self.close();
        } else {
            self.last = if is_case(text, token) {
                Last::CaseWord
            } else {
                Last::Other
            };
        }
        Ok(())
    }

    /// Takes a token's place where it is a comment that tells nothing, and goes past it.
    fn take(&mut self, text: &[u8], token: Token) -> Result<(), PrepFault>
        ensures step { Tells (λ _. spec.seen self.new)
            (Ok (spec.behind text.now (spec.seen self.old) token)) result }
        ensures told { OnOk result (self.new.dropped.items
            ≡ self.old.dropped.items ++ spec.comment_of self.old.last token) }
    {
        if tells_nothing(self.last, token.kind) {
            self.dropped.push(Dropped {
                kind: DropKind::Comment,
                at: token.at,
            })?;
        }
        if is_pragma(token.kind) {
            return Ok(());
        }
        self.pass(text, token)
    }
}

fn has_pragmas(tokens: &[Token]) -> bool
    ensures { result ≡ list_any (λ t. spec.is_pragma t.kind) tokens.now }
{
    tokens.iter().any(|token| is_pragma(token.kind))
}

/// These regions, and then the comments among the tokens that tell nothing. Where no pragma stands, it takes no memory.
pub fn comments(
    alloc: Global,
    text: &[u8],
    dropped: Vec<Dropped>,
    tokens: &[Token],
) -> Result<Vec<Dropped>, PrepFault>
    ensures { Tells (λ v. v.items) (Ok (dropped.items ++ spec.comments text.now tokens.now)) result }
{
    if has_pragmas(tokens) {
        return comments_from(alloc, text, dropped, tokens);
    }
    Ok(dropped)
}

fn comments_from(
    alloc: Global,
    text: &[u8],
    dropped: Vec<Dropped>,
    tokens: &[Token],
) -> Result<Vec<Dropped>, PrepFault>
    ensures { Tells (λ v. v.items) (Ok (dropped.items ++ spec.comments text.now tokens.now)) result }
{
    let mut notes = Notes {
        last: Last::Other,
        heads: Vec::new(alloc),
        dropped,
    };
    for token in tokens {
        notes.take(text, *token)?;
    }
    Ok(notes.dropped)
}
