//! Values of inputs: numbers with a width, in base 2 or 16.

ghost use Rattle.std.specs.Prelude.{◌≡◌, ◌≤◌, ◌+◌, ◌∷◌, IfOk, IfSome, length};
ghost use Rattle.desk_steps.specs.Values.{based_bits, cut_bits, digit_bits, digit_number, digit_width, digits_bits, digits_for, digits_width, known_digit, sized_bits, unsigned, value_bits, without_zeros};

use crate::cut::cut_at;
use rtl_bits::{Bit, Vec4};
use std::alloc::Global;
use text_ground::memory::Memory;

/// What a number counts in.
#[derive(Clone, Copy, PartialEq, Eq, Debug)]
pub(crate) enum Base {
    Binary,
    Hexadecimal,
}

impl Base {
    /// How many bits a digit stands for.
    fn digit_width(self) -> u8
        ensures exact { result ≡ digit_width self }
        ensures some { 1 ≤ result }
        ensures few { result ≤ 4 }
    {
        match self {
            Base::Binary => 1,
            Base::Hexadecimal => 4,
        }
    }

    /// How many digits a width needs.
    fn digits_for(self, width: u8) -> usize
        ensures { result ≡ digits_for self width }
    {
        match self {
            Base::Binary => usize::from(width),
            Base::Hexadecimal => (usize::from(width) + 3) / 4,
        }
    }
}

/// The number of a digit, in lower case.
fn digit_number(byte: u8) -> Option<u8>
    ensures { result ≡ digit_number byte }
{
    if byte < b'0' {
        None
    } else if byte <= b'9' {
        Some(byte - b'0')
    } else if byte < b'a' {
        None
    } else if byte <= b'f' {
        Some(byte - b'a' + 10)
    } else {
        None
    }
}

/// The bits of a known digit.
fn known_digit(base: Base, n: Option<u8>) -> Option<Vec4>
    ensures bits { result ≡ known_digit (digit_width base) n }
    ensures width { IfSome result (λ bits. length bits ≡ digit_width base) }
{
    let n = n?;
    let limit = match base {
        Base::Binary => 2,
        Base::Hexadecimal => 16,
    };
    if n < limit {
        Some(Vec4::of_number(base.digit_width(), u128::from(n)))
    } else {
        None
    }
}

/// The bits of a digit; `?` is z.
fn digit_bits(base: Base, byte: u8) -> Option<Vec4>
    ensures bits { result ≡ digit_bits base byte }
    ensures width { IfSome result (λ bits. length bits ≡ digit_width base) }
{
    match byte {
        b'x' => Some(Vec4::filled(base.digit_width(), Bit::X)),
        b'z' => Some(Vec4::filled(base.digit_width(), Bit::Z)),
        b'?' => Some(Vec4::filled(base.digit_width(), Bit::Z)),
        _ => known_digit(base, digit_number(byte)),
    }
}

/// The bits of digits behind those that came before.
fn digits_bits(base: Base, high: Vec4, digits: &[u8]) -> Option<Vec4>
    requires { length high + digits_width base digits.now ≤ 128 }
    ensures bits { result ≡ digits_bits base high digits.now }
    ensures width { IfSome result (λ bits. length bits
        ≡ length high + digits_width base digits.now) }
{
    let Some((first, others)) = digits.split_first() else {
        return Some(high);
    };
    let low = digit_bits(base, *first)?;
    let joined = high.concat(low)?;
    digits_bits(base, joined, others)
}

/// Exactly the digits that a width needs; bits above it don't count.
#[tactic(auto, using(crate::proofs::Digits::fits, crate::proofs::Digits::enough, crate::proofs::Digits::some))]
fn sized_bits(base: Base, width: u8, digits: &[u8]) -> Option<Vec4>
    requires { width ≤ 128 }
    ensures bits { result ≡ sized_bits base width digits.now }
    ensures width { IfSome result (λ bits. length bits ≡ width) }
{
    let (first, others) = digits.split_first()?;
    if others.len() + 1 != base.digits_for(width) {
        return None;
    }
    let high = digit_bits(base, *first)?;
    let bits = digits_bits(base, high, others)?;
    Some(bits.select(0, width))
}

/// A base letter and the digits.
fn based_bits(width: u8, text: &[u8]) -> Option<Vec4>
    requires { width ≤ 128 }
    ensures bits { result ≡ based_bits width text.now }
    ensures width { IfSome result (λ bits. length bits ≡ width) }
{
    let (letter, digits) = text.split_first()?;
    match *letter {
        b'b' => sized_bits(Base::Binary, width, digits),
        b'h' => sized_bits(Base::Hexadecimal, width, digits),
        _ => None,
    }
}

/// A sign may stand before the base, and makes no difference.
fn unsigned(text: &[u8]) -> &[u8]
    ensures { result.now ≡ unsigned text.now }
{
    match text.split_first() {
        Some((b's', others)) => others,
        _ => text,
    }
}

/// A width may begin with zeros.
fn without_zeros(text: &[u8]) -> &[u8]
    ensures { result.now ≡ without_zeros text.now }
{
    let mut text = text;
    while let Some((b'0', others)) = text.split_first() {
        text = others;
    }
    text
}

/// The bits of a number of this width; none where the text is none, or has other digits than the width needs.
pub(crate) fn value_bits(alloc: Global, width: u8, text: &[u8]) -> Result<Option<Vec4>, Memory>
    ensures bits { IfOk result (λ bits. bits ≡ value_bits width text.now) }
    ensures width { IfOk result (λ bits. IfSome bits (λ some. length some ≡ width)) }
{
    let Some((head, tail)) = cut_at(b'\'', text) else {
        return Ok(None);
    };
    let wanted = format!(in alloc; "{width}")?;
    if width <= 128 && without_zeros(head) == wanted.as_bytes() {
        Ok(based_bits(width, unsigned(tail)))
    } else {
        Ok(None)
    }
}
