//! The places of the bits that indices select.

ghost use Rattle.std.specs.Prelude.{◌≡◌, ◌*◌, ◌^◌, ◌-ℤ◌, pos, nat_lt, not, false, length};
ghost use Rattle.rtl_bits.specs.Bits.{has_unknown, number};
ghost use Rattle.rtl_expr.specs.Places.{place_in, place_by};

use rtl_bits::Vec4;

/// The place that a number selects, where a signal of so many bits has it and the declaration
/// numbers the lowest bit `low`.
pub fn fixed_place(width: u8, low: u32, index: i64) -> Option<u8>
    ensures { result ≡ place_in width (index -ℤ pos low) }
{
    let low = i64::from(low);
    if index < low {
        return None;
    }
    let place = index - low;
    if place >= i64::from(width) {
        return None;
    }
    Some(place as u8)
}

/// The place that an index selects, which is negative where it is signed and its highest bit is 1.
#[tactic(auto, using(crate::proofs::Indices::negative_index))]
pub fn computed_place(width: u8, low: u32, signed: bool, index: Vec4) -> Option<u8>
    ensures { result ≡ place_by width low signed index }
{
    if !index.is_known() {
        return None;
    }
    if signed && is_negative(index) {
        return None;
    }
    let n = index.number();
    let low = u128::from(low);
    if n < low {
        return None;
    }
    let place = n - low;
    if place >= u128::from(width) {
        return None;
    }
    Some(place as u8)
}

/// Whether known bits, read in two's complement, are below 0.
fn is_negative(bits: Vec4) -> bool
    requires { has_unknown bits ≡ false }
    ensures { result ≡ not (nat_lt (2 * number bits) (2 ^ length bits)) }
{
    bits.number() >> (bits.width() - 1) == 1
}
