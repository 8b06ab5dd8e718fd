// `initial` constructs.

ghost use Rattle.std.specs.Prelude.{◌≡◌, ◌+◌, ◌<◌, ◌≤◌, OnOk};
ghost use Rattle.std.specs.List.{list_any};
ghost use Rattle.rtl_prep.specs.Stops.{Tells};
ghost use Rattle.rtl_prep.specs.Initials as spec;

use crate::fault::PrepFault;
use crate::word::{is_mark, is_word};
use rtl_tree::token::Token;
use std::alloc::Global;
use text_ground::dropped::{DropKind, Dropped};

/// Where a place is, with the place of the `initial`.
#[derive(Clone, Copy, PartialEq, Eq, Debug)]
pub enum Within {
    Outside,
    /// Behind the word.
    Opened(u32),
    /// Before so many words `end` that match.
    Block(u32, usize),
    /// Before the next `;`.
    Statement(u32),
}

impl Within {
    /// The place of the construct that is open.
    fn open_at(self) -> Option<u32>
        ensures { result ≡ spec.open_at self }
    {
        match self {
            Within::Outside => None,
            Within::Opened(at) | Within::Block(at, _) | Within::Statement(at) => Some(at),
        }
    }
}

/// What stands outside the constructs, and where all regions begin.
#[derive(Drop)]
pub struct Shed {
    pub within: Within,
    pub kept: Vec<Token>,
    pub dropped: Vec<Dropped>,
}

/// Behind a token that the next `;` ends.
fn statement(text: &[u8], at: u32, token: Token) -> Within
    ensures flat { spec.depth_of result ≡ 0 }
    ensures value { result ≡ spec.statement text.now at token }
{
    if is_mark(b";", text, token) {
        Within::Outside
    } else {
        Within::Statement(at)
    }
}

/// Behind a token of a block.
fn block(text: &[u8], at: u32, depth: usize, token: Token) -> Within
    requires { depth < usize.MAX }
    ensures value { result ≡ spec.block text.now at depth token }
    ensures deep { spec.depth_of result ≤ depth + 1 }
{
    if is_word(b"begin", text, token) {
        Within::Block(at, depth + 1)
    } else if !is_word(b"end", text, token) {
        Within::Block(at, depth)
    } else if depth <= 1 {
        Within::Outside
    } else {
        Within::Block(at, depth - 1)
    }
}

impl Shed {
    #[tactic(auto, unfolding(crate::specs::Initials::shed))]
    fn take(&mut self, text: &[u8], token: Token) -> Result<(), PrepFault>
        requires { spec.depth_of self.old.within < usize.MAX }
        ensures deep { OnOk result (spec.depth_of self.new.within
            ≤ spec.depth_of self.old.within + 1) }
        ensures step { Tells (λ _. spec.seen self.new)
            (spec.shed text.now (spec.seen self.old) token) result }
    {
        self.within = match self.within {
            Within::Outside => {
                if is_initial(text, token) {
                    self.dropped.push(Dropped {
                        kind: DropKind::Initial,
                        at: token.at,
                    })?;
                    Within::Opened(token.at)
                } else {
                    self.kept.push(token)?;
                    Within::Outside
                }
            }
            Within::Opened(at) => {
                if is_word(b"begin", text, token) {
                    Within::Block(at, 1)
                } else {
                    statement(text, at, token)
                }
            }
            Within::Block(at, depth) => block(text, at, depth, token),
            Within::Statement(at) => statement(text, at, token),
        };
        Ok(())
    }
}

fn is_initial(text: &[u8], token: Token) -> bool
    ensures { result ≡ spec.is_initial text.now token }
{
    is_word(b"initial", text, token)
}

fn has_initials(text: &[u8], tokens: &[Token]) -> bool
    ensures { result ≡ list_any (spec.is_initial text.now) tokens.now }
{
    tokens.iter().any(|token| is_initial(text, *token))
}

/// The tokens outside the `initial` constructs, with these regions and then theirs. Where there is none, it takes no memory.
pub fn initials(
    alloc: Global,
    text: &[u8],
    dropped: Vec<Dropped>,
    tokens: Vec<Token>,
) -> Result<Shed, PrepFault>
    ensures { Tells spec.seen (spec.initials text.now dropped.items tokens.items) result }
{
    if has_initials(text, tokens.as_slice()) {
        return shed_from(alloc, text, dropped, tokens.as_slice());
    }
    Ok(Shed {
        within: Within::Outside,
        kept: tokens,
        dropped,
    })
}

fn shed_from(
    alloc: Global,
    text: &[u8],
    dropped: Vec<Dropped>,
    tokens: &[Token],
) -> Result<Shed, PrepFault>
    ensures { Tells spec.seen (spec.initials text.now dropped.items tokens.now) result }
{
    let mut shed = Shed {
        within: Within::Outside,
        kept: Vec::new(alloc),
        dropped,
    };
    for token in tokens {
        shed.take(text, *token)?;
    }
    match shed.within.open_at() {
        None => Ok(shed),
        Some(at) => Err(PrepFault::Unbalanced(at)),
    }
}
