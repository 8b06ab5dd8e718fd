// The longest token at the front of a text, by its form alone.

ghost use Rattle.std.specs.Prelude.{◌≡◌, ◌≤◌, ◌<◌, ◌+◌, ◌^◌, false, length, IfSome};
ghost use Rattle.std.specs.Option.{option_map, ForSome};
ghost use Rattle.rtl_tree.specs.Lexemes as form;
ghost use Rattle.rtl_text.specs.Forms as spec;

use crate::mark::{is_single, mark_len};
use crate::run::{
    blanks, decimal_len, digits_len, first, is_base, is_decimal, is_sign, opens_word, skip,
    word_len,
};
use rtl_tree::token::Form;

#[tactic(auto, unfolding(crate::specs::Forms::name_at))]
/// How many bytes the name at the front has.
fn name(text: &[u8]) -> Option<usize>
    ensures value { result ≡ spec.name_at text.now }
    ensures within { IfSome result (λ n. n ≤ length text.now) }
{
    if opens_word(first(text)) {
        Some(1 + word_len(skip(text, 1)))
    } else {
        None
    }
}

/// How many bytes a string has after its opening quote.
fn inside(text: &[u8]) -> Option<usize>
    ensures value { result ≡ spec.inside_at false text.now }
    ensures within { IfSome result (λ n. n ≤ length text.now) }
{
    let mut escaped = false;
    for (i, b) in text.iter().enumerate() {
        if *b == b'\n' {
            return None;
        }
        if !escaped && *b == b'"' {
            return Some(i + 1);
        }
        escaped = !escaped && *b == b'\\';
    }
    None
}

#[tactic(auto, unfolding(crate::specs::Forms::digits_at))]
/// How many bytes the base at the front has with its digits.
fn digits(text: &[u8]) -> Option<usize>
    ensures value { result ≡ spec.digits_at text.now }
    ensures within { IfSome result (λ n. n ≤ length text.now) }
{
    if !is_base(first(text)) {
        return None;
    }
    let rest = skip(text, 1);
    let gap = blanks(rest);
    Some(1 + gap + digits_len(skip(rest, gap)))
}

#[tactic(auto, unfolding(crate::specs::Forms::signed_at))]
fn signed(text: &[u8]) -> Option<usize>
    ensures value { result ≡ spec.signed_at text.now }
    ensures within { IfSome result (λ n. n ≤ length text.now) }
{
    if !is_sign(first(text)) {
        return digits(text);
    }
    match digits(skip(text, 1)) {
        Some(n) => Some(1 + n),
        None => None,
    }
}

#[tactic(auto, unfolding(crate::specs::Forms::based_at))]
/// How many bytes the quote at the front has with its base and digits.
fn based(text: &[u8]) -> Option<usize>
    ensures value { result ≡ spec.based_at text.now }
    ensures within { IfSome result (λ n. n ≤ length text.now) }
{
    if first(text) != b'\'' {
        return None;
    }
    match signed(skip(text, 1)) {
        Some(n) => Some(1 + n),
        None => None,
    }
}

#[tactic(auto, unfolding(crate::specs::Forms::sized_at))]
/// How many bytes the number has that begins with a digit.
fn sized(text: &[u8]) -> usize
    ensures value { result ≡ spec.sized_at text.now }
    ensures within { result ≤ length text.now }
{
    let width = decimal_len(text);
    let from = width + blanks(skip(text, width));
    match based(skip(text, from)) {
        Some(n) => from + n,
        None => width,
    }
}

#[tactic(auto, unfolding(crate::specs::Forms::form_at))]
/// The form of the longest token at the front, and how many bytes it has.
pub fn form(text: &[u8]) -> Option<(Form, usize)>
    ensures value { result ≡ spec.form_at text.now }
{
    let rest = skip(text, 1);
    match first(text) {
        b if opens_word(b) => whole(Form::Name, name(text)),
        b'$' => longer(Form::Name, name(rest)),
        b'`' => longer(Form::Ticked, name(rest)),
        b'"' => longer(Form::Quoted, inside(rest)),
        b if is_decimal(b) => Some((Form::Numeral, sized(text))),
        b'\'' => whole(Form::Numeral, based(text)),
        b if is_single(b) => Some((Form::Sign, mark_len(b, rest))),
        _ => None,
    }
}

fn whole(form: Form, size: Option<usize>) -> Option<(Form, usize)>
    ensures { result ≡ spec.formed form size }
{
    match size {
        Some(n) => Some((form, n)),
        None => None,
    }
}

/// The token has a byte before those.
fn longer(form: Form, size: Option<usize>) -> Option<(Form, usize)>
    requires { ForSome size (λ n. n < 2 ^ 63) }
    ensures { result ≡ spec.formed form (option_map (λ n. 1 + n) size) }
{
    match size {
        Some(n) => Some((form, 1 + n)),
        None => None,
    }
}
