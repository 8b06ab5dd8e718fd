// What stands at the front of a text.

ghost use Rattle.std.specs.Prelude.{◌≡◌, ◌≤◌, length, IfSome};
ghost use Rattle.rtl_text.specs.Fronts as spec;

use crate::form::form;
use crate::literal::literal;
use crate::pragma::pragma;
use crate::run::{blanks, first, is_ascii, is_blank, line_len, skip, take};
use rtl_tree::token::{Form, MAX_WORD, Pragma, Tok};

/// What stands at the front of a text. Sizes are in bytes.
pub enum Front {
    /// A blank or a comment.
    Gap(usize),
    /// A comment that tells synthesis something.
    Note(Pragma, usize),
    /// `(*` that is two marks.
    Star,
    /// A token.
    One(Tok, usize),
    NotAscii,
    BadNumber,
    BadCharacter,
    /// A word with more bytes than a word may have.
    LongWord,
    OpenComment,
}

fn noted(size: usize, told: Option<Pragma>) -> Front
    ensures { result ≡ spec.noted size told }
{
    match told {
        Some(p) => Front::Note(p, size),
        None => Front::Gap(size),
    }
}

#[tactic(auto, unfolding(crate::specs::Fronts::line_at))]
/// A line comment, from behind its `//` on.
fn line(text: &[u8]) -> Front
    ensures { result ≡ spec.line_at text.now }
{
    let size = line_len(text);
    noted(2 + size, pragma(take(text, size)))
}

/// How many bytes stand before the first `*/`.
fn end(text: &[u8]) -> Option<usize>
    ensures value { result ≡ spec.end_at text.now }
    ensures within { IfSome result (λ n. n ≤ length text.now) }
{
    for (i, b) in text.iter().enumerate() {
        if *b == b'*' && first(skip(text, i + 1)) == b'/' {
            return Some(i);
        }
    }
    None
}

#[tactic(auto, unfolding(crate::specs::Fronts::block_at))]
/// A block comment, from behind its `/*` on.
fn block(text: &[u8]) -> Front
    ensures { result ≡ spec.block_at text.now }
{
    match end(text) {
        Some(size) => noted(4 + size, pragma(take(text, size))),
        None => Front::OpenComment,
    }
}

/// A word, where it isn't too long.
fn worded(kind: Tok, size: usize) -> Front
    ensures { result ≡ spec.worded kind size }
{
    if size <= MAX_WORD {
        Front::One(kind, size)
    } else {
        Front::LongWord
    }
}

#[tactic(auto, unfolding(crate::specs::Fronts::judged))]
/// The token of this form and size.
fn judged(text: &[u8], form: Form, size: usize) -> Front
    ensures { result ≡ spec.judged text.now form size }
{
    match form {
        Form::Name => worded(Tok::Word, size),
        Form::Numeral => match literal(take(text, size)) {
            Some(value) => Front::One(Tok::Number(value), size),
            None => Front::BadNumber,
        },
        Form::Quoted => Front::One(Tok::Str, size),
        Form::Sign => Front::One(Tok::Mark, size),
        Form::Ticked => worded(Tok::Directive, size),
    }
}

#[tactic(auto, unfolding(crate::specs::Fronts::token_at))]
fn token(text: &[u8]) -> Front
    ensures { result ≡ spec.token_at text.now }
{
    match form(text) {
        Some((kind, size)) => judged(text, kind, size),
        None => {
            if is_ascii(first(text)) {
                Front::BadCharacter
            } else {
                Front::NotAscii
            }
        }
    }
}

#[tactic(auto, unfolding(crate::specs::Fronts::star_at))]
/// Whether `(*`, blanks and `)` come.
fn is_star(text: &[u8]) -> bool
    ensures { result ≡ spec.star_at text.now }
{
    if first(text) != b'(' || first(skip(text, 1)) != b'*' {
        return false;
    }
    let rest = skip(text, 2);
    first(skip(rest, blanks(rest))) == b')'
}

#[tactic(auto, unfolding(crate::specs::Fronts::front))]
/// What stands at the front of a text that isn't empty.
pub fn front_of(text: &[u8]) -> Front
    ensures { result ≡ spec.front text.now }
{
    let b = first(text);
    if is_blank(b) {
        return Front::Gap(1);
    }
    let next = first(skip(text, 1));
    if b == b'/' && next == b'/' {
        line(skip(text, 2))
    } else if b == b'/' && next == b'*' {
        block(skip(text, 2))
    } else if is_star(text) {
        Front::Star
    } else {
        token(text)
    }
}
