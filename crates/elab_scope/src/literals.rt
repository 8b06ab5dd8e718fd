//! The bits of literals and of names that stand for numbers.

ghost use Rattle.std.specs.Prelude.{◌≡◌, ◌≤◌, length};
ghost use Rattle.rtl_bits.specs.Bits.{extended};
ghost use Rattle.rtl_flat.specs.Sizing.{literal_at};
ghost use Rattle.elab_scope.specs.Trees.{literal_bits, named_bits, number_bits, pattern};

use crate::known::Known;
use crate::widths::{Breadth, breadth_of};
use rtl_bits::{Bit, Vec4};
use rtl_const::fault::ConstFault;
use rtl_tree::literal::Literal;

/// A literal at a width: one without a written width is extended with its highest bit where that is x or z, and else a
/// literal is extended like any operand.
pub(crate) fn literal(value: &Literal, width: u8, signed: bool) -> Vec4
    requires not_empty { 1 ≤ width }
    requires at_most { width ≤ 128 }
    ensures { result ≡ literal_at width signed value.now.sized (literal_bits value.now) }
{
    let own_width = breadth_of(u32::from(value.width)).bits();
    let bits = Vec4::of_digits(own_width, value.val, value.unk);
    let is_filled = match bits.bit(own_width - 1) {
        Bit::X | Bit::Z => !value.sized,
        Bit::Zero | Bit::One => false,
    };
    bits.extend(width, signed || is_filled)
}

/// A number in two's complement.
fn pattern(number: Option<i64>) -> u128
    ensures { result ≡ pattern number }
{
    match number {
        None => 0,
        Some(n) if n >= 0 => n as u128,
        Some(n) => u128::MAX - (-(n + 1)) as u128,
    }
}

/// A number that has a width by itself, at a width.
pub(crate) fn number(number: Result<i64, ConstFault>, own: Breadth, width: u8, signed: bool) -> Vec4
    requires not_empty { 1 ≤ width }
    requires at_most { width ≤ 128 }
    ensures { result ≡ extended width signed (number_bits own number) }
{
    Vec4::of_number(own.bits(), pattern(number.ok())).extend(width, signed)
}

/// A name that stands for a number, at a width.
pub(crate) fn named(known: Option<Known>, width: u8, signed: bool) -> Vec4
    requires not_empty { 1 ≤ width }
    requires at_most { width ≤ 128 }
    ensures { result ≡ extended width signed (named_bits known) }
{
    let bits = match known {
        Some(Known::Parameter { number, width, .. }) => {
            Vec4::of_number(breadth_of(u32::from(width)).bits(), pattern(number))
        }
        Some(Known::Integer(number)) => Vec4::of_number(32, pattern(number)),
        None | Some(Known::Signal { .. }) => Vec4::of_number(1, 0),
    };
    bits.extend(width, signed)
}
