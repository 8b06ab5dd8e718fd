// Operators and punctuation marks.

ghost use Rattle.std.specs.Prelude.{◌≡◌, ◌≤◌, ◌<◌, length};
ghost use Rattle.rtl_tree.specs.Lexemes as form;
ghost use Rattle.rtl_text.specs.Forms as spec;

use crate::run::{first, skip};

#[tactic(auto, unfolding(rtl_tree::specs::Lexemes::is_single))]
/// Whether this is a mark by itself.
pub fn is_single(b: u8) -> bool
    ensures { result ≡ form.is_single b }
{
    b"()[]{};:,.=+-*/%&|^~!<>?@#".contains(&b)
}

#[tactic(auto, unfolding(rtl_tree::specs::Lexemes::is_pair))]
fn is_pair(a: u8, b: u8) -> bool
    ensures { result ≡ form.is_pair a b }
{
    match a {
        b'~' => b == b'&' || b == b'|' || b == b'^',
        b'^' => b == b'~',
        b'=' | b'!' => b == b'=',
        b'<' => b == b'=' || b == b'<',
        b'>' => b == b'=' || b == b'>',
        b'&' => b == b'&',
        b'|' => b == b'|',
        b'*' => b == b'*' || b == b')',
        b'+' => b == b':',
        b'-' => b == b':' || b == b'>',
        b'(' => b == b'*',
        _ => false,
    }
}

#[tactic(auto, unfolding(rtl_tree::specs::Lexemes::is_triple))]
fn is_triple(a: u8, b: u8, c: u8) -> bool
    ensures { result ≡ form.is_triple a b c }
{
    ((a == b'=' || a == b'!') && b == b'=' && c == b'=')
        || ((a == b'>' || a == b'<') && b == a && c == a)
}

#[tactic(auto, unfolding(crate::specs::Forms::mark_at))]
/// How many bytes the longest mark has whose first byte is `a`.
pub(crate) fn mark_len(a: u8, rest: &[u8]) -> usize
    ensures { result ≡ spec.mark_at a rest.now }
{
    let b = first(rest);
    if is_triple(a, b, first(skip(rest, 1))) {
        3
    } else if is_pair(a, b) {
        2
    } else {
        1
    }
}
