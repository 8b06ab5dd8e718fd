//! Selected bits.

ghost use Rattle.std.specs.Prelude.{◌≡◌, ◌-ℤ◌, pos};
ghost use Rattle.rtl_flat.specs.Value.{bit_at, bit_by};

use crate::places::{computed_place, fixed_place};
use rtl_bits::{Bit, Vec4};

/// The bit that a number selects where the declaration numbers the lowest bit `low`; x where there
/// is none.
pub fn fixed_bit(bits: Vec4, low: u32, index: i64) -> Bit
    ensures { result ≡ bit_at bits (index -ℤ pos low) }
{
    match fixed_place(bits.width(), low, index) {
        Some(place) => bits.bit(place),
        None => Bit::X,
    }
}

/// The bit that an index selects.
pub fn computed_bit(bits: Vec4, low: u32, signed: bool, index: Vec4) -> Bit
    ensures { result ≡ bit_by bits low signed index }
{
    match computed_place(bits.width(), low, signed, index) {
        Some(place) => bits.bit(place),
        None => Bit::X,
    }
}
