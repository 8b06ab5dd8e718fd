//! Values as they are written.

ghost use Rattle.std.specs.Prelude.{◌≡◌, ◌<◌, ◌≤◌, ◌++◌, ◌∷◌, [], length, reverse, take, false, IfOk, OnOk};
ghost use Rattle.std.specs.Fmt.{decimal};
ghost use Rattle.rtl_bits.specs.Bits.{has_unknown, number};
ghost use Rattle.desk_report.specs.Values.{binary_digits, digit_of, digits_text, hex_digit, hex_digits, value_text};

use rtl_bits::{Bit, Vec4};
use std::alloc::Global;
use text_ground::memory::Memory;
use text_ground::text::Text;

/// The widest vector that is always written in base 2.
const SHORT: u8 = 16;

/// A bit as a digit.
fn digit_of(bit: Bit) -> u8
    ensures { result ≡ digit_of bit }
{
    match bit {
        Bit::Zero => b'0',
        Bit::One => b'1',
        Bit::X => b'x',
        Bit::Z => b'z',
    }
}

/// A number below 16 as a digit.
fn hex_digit(n: u8) -> u8
    requires { n < 16 }
    ensures { result ≡ hex_digit n }
{
    if n < 10 { b'0' + n } else { b'a' + (n - 10) }
}

/// The digits of a vector in base 2, the most significant first.
#[tactic(auto, using(crate::proofs::Digits::lowest_bit))]
fn push_binary(value: Vec4, out: &mut Vec<u8>) -> Result<(), Memory>
    ensures { OnOk result (out.new.items ≡ out.old.items ++ reverse (binary_digits value)) }
{
    let width = value.width();
    if width > 1 {
        push_binary(value.select(1, width - 1), out)?;
    }
    out.push(digit_of(value.bit(0)))?;
    Ok(())
}

/// The lowest four bits, or all where there are no more.
fn lowest(value: Vec4) -> Vec4
    ensures bits { result ≡ take 4 value }
    ensures few { length result ≤ 4 }
{
    if value.width() > 4 {
        value.select(0, 4)
    } else {
        value
    }
}

/// Their digit.
#[tactic(auto, using(crate::proofs::Digits::one_digit, crate::proofs::Digits::taken_known))]
fn lowest_digit(value: Vec4) -> u8
    requires { has_unknown value ≡ false }
    ensures { result ≡ hex_digit (number (take 4 value)) }
{
    hex_digit(lowest(value).number() as u8)
}

/// The digits of known bits in base 16, the most significant first.
#[tactic(auto, using(crate::proofs::Digits::alone, crate::proofs::Digits::lowest, crate::proofs::Digits::part_known))]
fn push_hex(value: Vec4, out: &mut Vec<u8>) -> Result<(), Memory>
    requires { has_unknown value ≡ false }
    ensures { OnOk result (out.new.items ≡ out.old.items ++ reverse (hex_digits value)) }
{
    let width = value.width();
    let digit = lowest_digit(value);
    if width <= 4 {
        out.push(digit)?;
        return Ok(());
    }
    push_hex(value.select(4, width - 4), out)?;
    out.push(digit)?;
    Ok(())
}

/// The base of a vector and its digits.
fn push_digits(value: Vec4, out: &mut Vec<u8>) -> Result<(), Memory>
    ensures { OnOk result (out.new.items ≡ out.old.items ++ digits_text value) }
{
    if value.width() > SHORT && value.is_known() {
        out.extend_from_slice(b"'h")?;
        push_hex(value, out)
    } else {
        out.extend_from_slice(b"'b")?;
        push_binary(value, out)
    }
}

/// Writes a value behind other text: its width, `'b` and its bits; or `'h` where it has more than 16 bits, all known.
pub fn push_value(alloc: Global, value: Vec4, out: &mut Vec<u8>) -> Result<(), Memory>
    ensures { OnOk result (out.new.items ≡ out.old.items ++ value_text value) }
{
    let width = value.width();
    let count = format!(in alloc; "{width}")?;
    out.extend_from_slice(count.as_bytes())?;
    push_digits(value, out)
}

/// The text of a value.
pub fn value_text(alloc: Global, value: Vec4) -> Result<Text, Memory>
    ensures { IfOk result (λ text. text ≡ value_text value) }
{
    let mut out = Vec::new(alloc);
    push_value(alloc, value, &mut out)?;
    Ok(Text::from_vec(out))
}
