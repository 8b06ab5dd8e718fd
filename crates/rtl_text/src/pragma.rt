// What a comment tells synthesis.

ghost use Rattle.std.specs.Prelude.{◌≡◌};
ghost use Rattle.rtl_tree.specs.Splits as split;
ghost use Rattle.rtl_text.specs.Fronts as spec;
ghost use Rattle.std.specs.Prelude.{◌≤◌, length};
ghost use Rattle.std.specs.List.{prefix_len};

use crate::run::{blanks, is_blank, skip, take};
use rtl_tree::token::Pragma;

fn no_blanks(text: &[u8]) -> usize
    ensures { result ≡ prefix_len spec.is_no_blank text.now }
{
    text.iter().take_while(|b| !is_blank(**b)).count()
}

/// The first word, empty where there is none.
fn word(text: &[u8]) -> &[u8]
    ensures { result.now ≡ spec.word_of text.now }
{
    let text = skip(text, blanks(text));
    take(text, no_blanks(text))
}

fn after_word(text: &[u8]) -> &[u8]
    ensures { result.now ≡ spec.after_word text.now }
{
    let text = skip(text, blanks(text));
    skip(text, no_blanks(text))
}

fn is_vendor(word: &[u8]) -> bool
    ensures { result ≡ split.is_vendor word.now }
{
    word == b"synopsys".as_slice() || word == b"synthesis".as_slice()
}

fn is_full(word: &[u8]) -> bool
    ensures { result ≡ split.is_full word.now }
{
    word == b"full_case".as_slice()
}

fn is_parallel(word: &[u8]) -> bool
    ensures { result ≡ split.is_parallel word.now }
{
    word == b"parallel_case".as_slice()
}

fn told_by_one(word: &[u8]) -> Option<Pragma>
    ensures { result ≡ split.told_by_one word.now }
{
    if word == b"translate_off".as_slice() {
        Some(Pragma::TranslateOff)
    } else if word == b"translate_on".as_slice() {
        Some(Pragma::TranslateOn)
    } else if is_full(word) {
        Some(Pragma::Case {
            full: true,
            parallel: false,
        })
    } else if is_parallel(word) {
        Some(Pragma::Case {
            full: false,
            parallel: true,
        })
    } else {
        None
    }
}

fn told_by_two(v: &[u8], w: &[u8]) -> Option<Pragma>
    ensures { result ≡ split.told_by_two v.now w.now }
{
    if (is_full(v) && is_parallel(w)) || (is_parallel(v) && is_full(w)) {
        Some(Pragma::Case {
            full: true,
            parallel: true,
        })
    } else {
        None
    }
}

fn told(v: &[u8], w: &[u8], x: &[u8]) -> Option<Pragma>
    ensures { result ≡ spec.told_at v.now w.now x.now }
{
    if !x.is_empty() {
        None
    } else if w.is_empty() {
        told_by_one(v)
    } else {
        told_by_two(v, w)
    }
}

fn told_after(text: &[u8]) -> Option<Pragma>
    ensures { result ≡ spec.told_after text.now }
{
    let rest = after_word(text);
    told(word(text), word(rest), word(after_word(rest)))
}

/// What a comment that is exactly a pragma tells.
fn exact(inside: &[u8]) -> Option<Pragma>
    ensures { result ≡ spec.exact_at inside.now }
{
    if is_vendor(word(inside)) {
        told_after(after_word(inside))
    } else {
        None
    }
}

/// Whether comments for tools begin by this word.
fn is_tool(word: &[u8]) -> bool
    ensures { result ≡ split.is_tool word.now }
{
    is_vendor(word)
        || word == b"pragma".as_slice()
        || word == b"cadence".as_slice()
        || word == b"ambit".as_slice()
        || word == b"exemplar".as_slice()
        || word == b"altera".as_slice()
        || word == b"xilinx".as_slice()
}

/// Whether a part stands somewhere in a text.
fn holds(part: &[u8], text: &[u8]) -> bool
    ensures { result ≡ split.holds part.now text.now }
{
    for at in 0..text.len() {
        if take(skip(text, at), part.len()) == part {
            return true;
        }
    }
    false
}

fn has_pragma_word(text: &[u8]) -> bool
    ensures { result ≡ split.has_pragma_word text.now }
{
    holds(b"full_case", text)
        || holds(b"parallel_case", text)
        || holds(b"translate_off", text)
        || holds(b"translate_on", text)
}

/// Whether a comment is worded like a pragma.
fn is_loose(inside: &[u8]) -> bool
    ensures { result ≡ spec.loose_at inside.now }
{
    is_tool(word(inside)) && has_pragma_word(inside)
}

#[tactic(auto, unfolding(crate::specs::Fronts::pragma_at))]
/// What a comment with this inside tells synthesis: it has exactly the words, with nothing else. One that is worded
/// like a pragma and has others is `Loose`.
pub fn pragma(inside: &[u8]) -> Option<Pragma>
    ensures { result ≡ spec.pragma_at inside.now }
{
    match exact(inside) {
        Some(told) => Some(told),
        None if is_loose(inside) => Some(Pragma::Loose),
        None => None,
    }
}
