// The value of a number's text.

ghost use Rattle.std.specs.Prelude.{◌≡◌, ◌≤◌, ◌^◌, ◌%◌, if◌then◌else◌, length, min, true, false};
ghost use Rattle.std.specs.List.{list_all};
ghost use Rattle.rtl_tree.specs.Lexemes as form;
ghost use Rattle.rtl_tree.specs.Literal as spec;

use crate::run::{
    blanks, decimal_len, first, is_decimal, is_in_decimal, is_sign, is_x, is_z, skip, take,
};
use rtl_tree::literal::Literal;

fn hex_value(b: u8) -> u8
    ensures { result ≡ spec.hex_value b }
{
    if is_decimal(b) {
        b - b'0'
    } else if b'a' <= b {
        b - b'a' + 10
    } else {
        b.saturating_sub(b'A' - 10)
    }
}

/// A digit's part in `val`, or in `unk`.
fn digit(unk: bool, radix: u8, b: u8) -> u8
    requires { 1 ≤ radix }
    ensures { result ≡ spec.digit unk radix b }
{
    if unk {
        return if is_x(b) || is_z(b) { radix - 1 } else { 0 };
    }
    if is_z(b) {
        radix - 1
    } else if is_x(b) {
        0
    } else {
        hex_value(b)
    }
}

/// The number with one more byte of its digits, or 2^32 where it is larger.
fn more_capped(unk: bool, radix: u8, front: u64, b: u8) -> u64
    requires radix { 1 ≤ radix }
    requires small { front ≤ 2 ^ 32 }
    ensures { result ≡ min (spec.more_digits unk radix front b) (2 ^ 32) }
{
    if b == b'_' {
        return front;
    }
    (front * u64::from(radix) + u64::from(digit(unk, radix, b))).min(1 << 32)
}

/// The number that digits make, or 2^32 where it is larger.
fn capped(unk: bool, radix: u8, digits: &[u8]) -> u64
    requires { 1 ≤ radix }
    ensures { result ≡ min (spec.number unk radix 0 digits.now) (2 ^ 32) }
{
    let mut total: u64 = 0;
    for b in digits {
        total = more_capped(unk, radix, total, *b);
    }
    total
}

#[tactic(auto, using(crate::proofs::Numbers::more_in_two))]
/// The low 128 bits of the number with one more byte of its digits.
fn more_wrapped(unk: bool, radix: u8, front: u128, b: u8) -> u128
    requires { 1 ≤ radix }
    ensures { result ≡ spec.more_digits unk radix front b % 2 ^ 128 }
{
    if b == b'_' {
        return front;
    }
    front
        .wrapping_mul(u128::from(radix))
        .wrapping_add(u128::from(digit(unk, radix, b)))
}

/// The low 128 bits of the number that digits make behind those in front of them.
fn wrapped(unk: bool, radix: u8, front: u128, digits: &[u8]) -> u128
    requires { 1 ≤ radix }
    ensures { result ≡ spec.number unk radix front digits.now % 2 ^ 128 }
{
    let mut total = front;
    for b in digits {
        total = more_wrapped(unk, radix, total, *b);
    }
    total
}

/// Whether the leftmost digit is z, or for `unk` x or z.
fn is_filled(unk: bool, digits: &[u8]) -> bool
    ensures { result ≡ spec.leftmost (if unk then spec.is_unknown else form.is_z) digits.now }
{
    for b in digits {
        if *b != b'_' {
            return is_z(*b) || (unk && is_x(*b));
        }
    }
    false
}

fn fill(unk: bool, digits: &[u8]) -> u128
    ensures { result ≡ spec.fill unk digits.now }
{
    if is_filled(unk, digits) { u128::MAX } else { 0 }
}

#[tactic(auto, using(crate::proofs::Numbers::lower_mask))]
fn low_bits(unk: bool, radix: u8, width: u8, digits: &[u8]) -> u128
    requires radix { 1 ≤ radix }
    requires width { width ≤ 128 }
    ensures { result ≡ spec.low_bits unk radix width digits.now }
{
    let all = wrapped(unk, radix, fill(unk, digits), digits);
    if width == 128 {
        all
    } else {
        all % (1 << width)
    }
}

fn is_digit_of(radix: u8, b: u8) -> bool
    ensures { result ≡ spec.is_digit_of radix b }
{
    b == b'_' || is_x(b) || is_z(b) || hex_value(b) < radix
}

fn are_underscores(digits: &[u8]) -> bool
    ensures { result ≡ list_all spec.is_underscore digits.now }
{
    digits.iter().all(|b| *b == b'_')
}

fn are_decimal(digits: &[u8]) -> bool
    ensures { result ≡ list_all form.is_in_decimal digits.now }
{
    digits.iter().all(|b| is_in_decimal(*b))
}

fn are_of(radix: u8, digits: &[u8]) -> bool
    ensures { result ≡ list_all (spec.is_digit_of radix) digits.now }
{
    digits.iter().all(|b| is_digit_of(radix, *b))
}

/// Whether this is one x or z alone.
fn is_lone(digits: &[u8]) -> bool
    ensures { result ≡ spec.is_lone digits.now }
{
    digits.len() == 1 && (is_x(digits[0]) || is_z(digits[0]))
}

fn are_digits(radix: u8, digits: &[u8]) -> bool
    ensures { result ≡ spec.are_digits radix digits.now }
{
    if are_underscores(digits) {
        false
    } else if radix == 10 {
        is_lone(digits) || are_decimal(digits)
    } else {
        are_of(radix, digits)
    }
}

fn radix_of(b: u8) -> u8
    ensures value { result ≡ spec.radix_of b }
    ensures one { 1 ≤ result }
{
    match b {
        b'b' | b'B' => 2,
        b'o' | b'O' => 8,
        b'd' | b'D' => 10,
        _ => 16,
    }
}

fn based_of(sized: bool, signed: bool, radix: u8, width: u8, digits: &[u8]) -> Literal
    requires radix { 1 ≤ radix }
    requires width { width ≤ 128 }
    ensures { result ≡ spec.based_of sized signed radix width digits.now }
{
    Literal {
        width,
        val: low_bits(false, radix, width, digits),
        unk: low_bits(true, radix, width, digits),
        signed,
        sized,
        radix,
    }
}

fn unsized_value(signed: bool, radix: u8, digits: &[u8]) -> Option<Literal>
    requires { 1 ≤ radix }
    ensures { result ≡ spec.unsized signed radix digits.now }
{
    if capped(false, radix, digits) < 1 << 32 && capped(true, radix, digits) < 1 << 32 {
        Some(based_of(false, signed, radix, 32, digits))
    } else {
        None
    }
}

fn with_width(width: &[u8], signed: bool, radix: u8, digits: &[u8]) -> Option<Literal>
    requires { 1 ≤ radix }
    ensures { result ≡ spec.with_width width.now signed radix digits.now }
{
    if width.is_empty() {
        return unsized_value(signed, radix, digits);
    }
    match capped(false, 10, width) {
        n if 1 <= n && n <= 128 => Some(based_of(true, signed, radix, n as u8, digits)),
        _ => None,
    }
}

fn based(width: &[u8], signed: bool, radix: u8, digits: &[u8]) -> Option<Literal>
    requires { 1 ≤ radix }
    ensures { result ≡ spec.based width.now signed radix digits.now }
{
    if are_digits(radix, digits) {
        with_width(width, signed, radix, digits)
    } else {
        None
    }
}

/// `text` begins with the base letter.
fn from_base(width: &[u8], signed: bool, text: &[u8]) -> Option<Literal>
    ensures { result ≡ spec.from_base width.now signed text.now }
{
    let rest = skip(text, 1);
    based(
        width,
        signed,
        radix_of(first(text)),
        skip(rest, blanks(rest)),
    )
}

/// `text` is what follows the quote.
fn from_quote(width: &[u8], text: &[u8]) -> Option<Literal>
    ensures { result ≡ spec.from_quote width.now text.now }
{
    if is_sign(first(text)) {
        from_base(width, true, skip(text, 1))
    } else {
        from_base(width, false, text)
    }
}

fn decimal(digits: &[u8]) -> Option<Literal>
    ensures { result ≡ spec.decimal_of (spec.number false 10 0 digits.now) }
{
    let n = capped(false, 10, digits);
    if n > 2147483647 {
        return None;
    }
    Some(Literal {
        width: 32,
        val: u128::from(n),
        unk: 0,
        signed: true,
        sized: false,
        radix: 10,
    })
}

fn before_quote(text: &[u8]) -> usize
    ensures value { result ≡ spec.before_quote text.now }
    ensures within { result ≤ length text.now }
{
    text.iter().take_while(|b| **b != b'\'').count()
}

#[tactic(auto, unfolding(rtl_tree::specs::Literal::literal))]
/// The value of a text of a number's form, where it has one.
pub fn literal(text: &[u8]) -> Option<Literal>
    ensures { result ≡ spec.literal text.now }
{
    let digits = take(text, decimal_len(text));
    let quote = before_quote(text);
    if quote == text.len() {
        decimal(digits)
    } else {
        from_quote(digits, skip(text, quote + 1))
    }
}
