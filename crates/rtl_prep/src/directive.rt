// What directives are, and the lines that they stand on.

ghost use Rattle.std.specs.Prelude.{◌≡◌, ◌≤◌, length, map};
ghost use Rattle.std.specs.List.{prefix_len};
ghost use Rattle.rtl_tree.specs.Lexemes.{is_in_line};
ghost use Rattle.rtl_prep.specs.Stops.{Tells};
ghost use Rattle.rtl_prep.specs.Directives as spec;

use crate::fault::PrepFault;
use crate::word::{front, skip, slice};
use rtl_tree::token::{Tok, Token};
use std::alloc::Global;

/// The directives that are read.
#[derive(Clone, Copy, PartialEq, Eq, Debug)]
pub enum Known {
    Define,
    Undef,
    Ifdef,
    Ifndef,
    Elsif,
    Else,
    Endif,
    /// Dropped to the line's end.
    Ignored,
}

/// How a group of a chain stands to the one that is kept.
#[derive(Clone, Copy, PartialEq, Eq, Debug)]
pub enum Group {
    Before,
    Kept,
    After,
}

/// A chain of conditional text that is open.
#[derive(Clone, Copy, PartialEq, Eq, Debug)]
pub struct Chain {
    /// The place of its first directive.
    pub at: u32,
    pub group: Group,
    /// Its `else` was there.
    pub last: bool,
}

/// The name of a directive, without its backquote.
pub fn name_of<'a>(text: &'a [u8], token: Token) -> &'a [u8]
    ensures { result.now ≡ spec.name_of text.now token }
{
    skip(slice(text, token), 1)
}

fn is_ignored(name: &[u8]) -> bool
    ensures { result ≡ spec.is_ignored name.now }
{
    name == b"timescale".as_slice()
        || name == b"default_nettype".as_slice()
        || name == b"resetall".as_slice()
        || name == b"celldefine".as_slice()
        || name == b"endcelldefine".as_slice()
}

/// The directive that a name is; any other is a macro's.
pub(crate) fn directive_of(name: &[u8]) -> Option<Known>
    ensures { result ≡ spec.directive_of name.now }
{
    if name == b"define".as_slice() {
        Some(Known::Define)
    } else if name == b"undef".as_slice() {
        Some(Known::Undef)
    } else if name == b"ifdef".as_slice() {
        Some(Known::Ifdef)
    } else if name == b"ifndef".as_slice() {
        Some(Known::Ifndef)
    } else if name == b"elsif".as_slice() {
        Some(Known::Elsif)
    } else if name == b"else".as_slice() {
        Some(Known::Else)
    } else if name == b"endif".as_slice() {
        Some(Known::Endif)
    } else if is_ignored(name) {
        Some(Known::Ignored)
    } else {
        None
    }
}

fn between<'a>(text: &'a [u8], a: Token, b: Token) -> &'a [u8]
    ensures { result.now ≡ spec.between text.now a b }
{
    front(
        skip(text, a.from as usize),
        b.from.saturating_sub(a.from) as usize,
    )
}

/// How many bytes stand before the line's end.
fn first_line(text: &[u8]) -> usize
    ensures { result ≡ prefix_len is_in_line text.now }
{
    text.iter().take_while(|b| **b != b'\n').count()
}

/// Whether no line ends between the beginnings of two tokens.
fn same_line(text: &[u8], a: Token, b: Token) -> bool
    ensures { result ≡ spec.same_line text.now a b }
{
    let gap = between(text, a, b);
    first_line(gap) == gap.len()
}

/// How many of the tokens after one begin on its line.
pub fn line_len(text: &[u8], token: Token, rest: &[Token]) -> usize
    ensures value { result ≡ spec.line_len text.now token rest.now }
    ensures within { result ≤ length rest.now }
{
    let mut last = token;
    for (count, next) in rest.iter().enumerate() {
        if !same_line(text, last, *next) {
            return count;
        }
        last = *next;
    }
    rest.len()
}

/// A directive that can't be done.
pub fn refused(alloc: Global, name: &[u8], at: u32) -> PrepFault
    ensures { Tells (λ u. u) (spec.refusal name.now at) (spec.failed result) }
{
    match Vec::from_slice(alloc, name) {
        Ok(name) => PrepFault::Directive(name, at),
        Err(_) => PrepFault::Memory,
    }
}

fn is_name(kind: Tok) -> bool
    ensures { result ≡ spec.is_name kind }
{
    match kind {
        Tok::Word => true,
        _ => false,
    }
}

/// The name that a directive takes from its line.
pub fn named(alloc: Global, text: &[u8], token: Token, rest: &[Token]) -> Result<Token, PrepFault>
    ensures { Tells (λ t. t) (spec.named text.now token rest.now) result }
{
    if let [next, ..] = rest {
        if is_name(next.kind) && same_line(text, token, *next) {
            return Ok(*next);
        }
    }
    Err(refused(alloc, name_of(text, token), token.at))
}

/// A macro's name may not be `SYNTHESIS`.
pub fn free(alloc: Global, text: &[u8], token: Token, name: Token) -> Result<(), PrepFault>
    ensures { Tells (λ u. u) (spec.free text.now token name) result }
{
    if slice(text, name) == b"SYNTHESIS".as_slice() {
        return Err(refused(alloc, b"SYNTHESIS", token.at));
    }
    Ok(())
}
