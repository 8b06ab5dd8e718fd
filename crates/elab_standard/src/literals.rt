//! The bits of numbers, of parameters and of loops' integers.

ghost use Rattle.std.specs.Prelude.{◌≡◌, ◌≤◌, length};
ghost use Rattle.rtl_bits.specs.Bits.{bits_of};
ghost use Rattle.rtl_flat.specs.Sizing.{literal_at};
ghost use Rattle.elab_walk.specs.elab_scope.Trees.{literal_bits, named_bits, pattern};
ghost use Rattle.elab_walk.specs.elab_scope.Widths.{bits, fitted};
ghost use Rattle.elab_standard.specs.Scopes.{bits_given, read_bits, standard_bits};

use crate::standard::Standard;
use elab_walk::elab_scope::context::Context;
use elab_walk::elab_scope::known::Known;
use elab_walk::elab_scope::widths::breadth_of;
use rtl_bits::{Bit, Vec4};
use rtl_tree::literal::Literal;

/// How many bits a range has.
pub(crate) fn range_bits(width: u8) -> u8
    ensures exact { result ≡ bits (fitted width) }
    ensures not_empty { 1 ≤ result }
    ensures at_most { result ≤ 128 }
{
    breadth_of(u32::from(width)).bits()
}

/// The bits of a number as it is written.
pub(crate) fn literal_bits(value: &Literal) -> Vec4
    ensures { result ≡ literal_bits value.now }
{
    let own_width = breadth_of(u32::from(value.width)).bits();
    Vec4::of_digits(own_width, value.val, value.unk)
}

/// A number in a context: one without a written width is extended with its highest bit where that is x or z.
pub(crate) fn literal(value: &Literal, context: Context) -> Vec4
    requires not_empty { 1 ≤ context.width }
    requires at_most { context.width ≤ 128 }
    ensures bits { result ≡ literal_at context.width context.signed value.now.sized
        (literal_bits value.now) }
    ensures width { length result ≡ context.width }
{
    let own_width = breadth_of(u32::from(value.width)).bits();
    let bits = Vec4::of_digits(own_width, value.val, value.unk);
    let is_filled = match bits.bit(own_width - 1) {
        Bit::X | Bit::Z => !value.sized,
        Bit::Zero | Bit::One => false,
    };
    bits.extend(context.width, context.signed || is_filled)
}

/// A number in two's complement.
fn pattern(number: Option<i64>) -> u128
    ensures { result ≡ pattern number }
{
    match number {
        None => 0,
        Some(n) if n >= 0 => n as u128,
        Some(n) => u128::MAX - (-(n + 1)) as u128,
    }
}

/// A number modulo 2 to the width.
pub(crate) fn number_bits(width: u8, number: i64) -> Vec4
    requires not_empty { 1 ≤ width }
    requires at_most { width ≤ 128 }
    ensures bits { result ≡ bits_of width (pattern (Some number)) }
    ensures width { length result ≡ width }
{
    Vec4::of_number(width, pattern(Some(number)))
}

/// The bits of a name that stands for a number by the desk.
pub(crate) fn named_bits(known: Option<Known>) -> Vec4
    ensures { result ≡ named_bits known }
{
    match known {
        Some(Known::Parameter { number, width, .. }) => {
            Vec4::of_number(breadth_of(u32::from(width)).bits(), pattern(number))
        }
        Some(Known::Integer(number)) => Vec4::of_number(32, pattern(number)),
        None | Some(Known::Signal { .. }) => Vec4::of_number(1, 0),
    }
}

/// The bits of a parameter by the standard.
pub(crate) fn standard_bits(standard: Standard) -> Vec4
    ensures { result ≡ standard_bits standard }
{
    let width = breadth_of(u32::from(standard.width)).bits();
    match standard.bits {
        Some(n) => Vec4::of_number(width, n),
        None => Vec4::filled(width, Bit::X),
    }
}

/// The bits of a name that stands for a number by the standard.
pub(crate) fn read_bits(known: Option<Known>, standard: Option<Standard>) -> Vec4
    ensures { result ≡ read_bits known standard }
{
    match (known, standard) {
        (Some(Known::Parameter { .. }), Some(standard)) => standard_bits(standard),
        _ => named_bits(known),
    }
}
