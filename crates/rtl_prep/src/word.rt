// The text of a token.

ghost use Rattle.std.specs.Prelude.{◌≡◌, take, drop, codes};
ghost use Rattle.rtl_tree.specs.Symbols as spec;
ghost use Rattle.rtl_prep.specs.Initials as words;

use rtl_tree::token::{Tok, Token};

pub fn skip(text: &[u8], size: usize) -> &[u8]
    ensures { result.now ≡ drop size text.now }
{
    if size < text.len() {
        &text[size..]
    } else {
        &[]
    }
}

pub fn front(text: &[u8], size: usize) -> &[u8]
    ensures { result.now ≡ take size text.now }
{
    if size < text.len() {
        &text[..size]
    } else {
        text
    }
}

/// The slice of a text for a token.
pub fn slice<'a>(text: &'a [u8], token: Token) -> &'a [u8]
    ensures { result.now ≡ spec.slice text.now token }
{
    front(
        skip(text, token.from as usize),
        token.to.saturating_sub(token.from) as usize,
    )
}

pub fn is_word(word: &[u8], text: &[u8], token: Token) -> bool
    ensures { result ≡ words.is_word word.now text.now token }
{
    match token.kind {
        Tok::Word => slice(text, token) == word,
        _ => false,
    }
}

pub(crate) fn is_mark(mark: &[u8], text: &[u8], token: Token) -> bool
    ensures { result ≡ words.is_mark mark.now text.now token }
{
    match token.kind {
        Tok::Mark => slice(text, token) == mark,
        _ => false,
    }
}
