// The directives of a text as they are read.

ghost use Rattle.std.specs.Prelude.{◌≡◌};
ghost use Rattle.rtl_prep.specs.Tables as table;
ghost use Rattle.rtl_prep.specs.Passes.{seen_one};
ghost use Rattle.rtl_prep.specs.Conditions as spec;

use crate::directive::{Chain, Group, Known, directive_of, name_of};
use crate::reader::{Reader, keeps};
use crate::replace::is_directive;
use crate::word::slice;
use rtl_tree::token::Token;
use std::collections::LinkedList;

/// A directive that is read.
#[derive(Clone, Copy)]
pub struct Notice<'a> {
    pub known: Known,
    pub at: u32,
    /// The word behind it, which is its name where it takes one.
    pub name: &'a [u8],
    /// It is a condition that is tested, or another directive in text that is kept.
    pub acts: bool,
}

impl Known {
    /// It begins a chain.
    pub fn is_opening(self) -> bool
        ensures { result ≡ spec.is_opening self }
    {
        matches!(self, Known::Ifdef | Known::Ifndef)
    }

    pub fn is_ending(self) -> bool
        ensures { result ≡ spec.is_ending self }
    {
        matches!(self, Known::Endif)
    }

    pub fn is_condition(self) -> bool
        ensures { result ≡ spec.is_condition self }
    {
        matches!(self, Known::Ifdef | Known::Ifndef | Known::Elsif)
    }

    /// It gives or takes a name's macro.
    pub fn is_naming(self) -> bool
        ensures { result ≡ spec.is_naming self }
    {
        matches!(self, Known::Define | Known::Undef)
    }
}

fn word_behind<'t>(text: &'t [u8], rest: &[Token]) -> &'t [u8]
    ensures { result.now ≡ spec.word_behind text.now rest.now }
{
    match rest {
        [next, ..] => slice(text, *next),
        [] => &[],
    }
}

/// Whether no group of the innermost chain is kept so far.
fn waits(chains: &LinkedList<Chain>) -> bool
    ensures { result ≡ spec.waits chains.now }
{
    match chains.front() {
        Some(chain) => match chain.group {
            Group::Before => true,
            _ => false,
        },
        None => false,
    }
}

fn acts(known: Known, chains: &LinkedList<Chain>) -> bool
    ensures { result ≡ spec.acts known chains.now }
{
    match known {
        Known::Elsif => waits(chains),
        _ => keeps(chains),
    }
}

/// The directive that the next token is, unless it was read with a directive before it.
pub fn notice_at<'t, 'a>(
    text: &'t [u8],
    reader: &Reader<'a>,
    token: Token,
    rest: &[Token],
) -> Option<Notice<'t>>
    ensures { seen_one result
        ≡ spec.notice_at text.now rest.now (table.seen reader.now) token }
{
    if reader.passed > 0 || !is_directive(token.kind) {
        return None;
    }
    match directive_of(name_of(text, token)) {
        Some(known) => Some(Notice {
            known,
            at: token.at,
            name: word_behind(text, rest),
            acts: acts(known, &reader.chains),
        }),
        None => None,
    }
}
