//! Digits in place of x and z.

ghost use Rattle.std.specs.Prelude.{◌≡◌, length};
ghost use Rattle.net_model.specs.Numbers.{fill_bit, filled, filled_bit};

use net_model::fill::Fill;
use rtl_bits::{Bit, Vec4};

/// The digit that a fill stands for.
fn fill_bit(fill: Fill) -> Bit
    ensures { result ≡ fill_bit fill }
{
    match fill {
        Fill::Zero => Bit::Zero,
        Fill::One => Bit::One,
    }
}

/// A bit as a digit.
pub(crate) fn filled_bit(bit: Bit, fill: Fill) -> Bit
    ensures { result ≡ filled_bit fill bit }
{
    match bit {
        Bit::Zero | Bit::One => bit,
        Bit::X | Bit::Z => fill_bit(fill),
    }
}

/// The digits of bits, where the fill stands for each x and z.
pub(crate) fn filled(bits: Vec4, fill: Fill) -> Vec4
    ensures bits { result ≡ filled fill bits }
    ensures width { length result ≡ length bits }
{
    let unknown = bits.unk_digits();
    let with_ones = bits.val_digits() | unknown;
    match fill {
        Fill::Zero => Vec4::of_number(bits.width(), with_ones ^ unknown),
        Fill::One => Vec4::of_number(bits.width(), with_ones),
    }
}
