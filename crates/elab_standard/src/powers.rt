//! Powers and logarithms by the standard.

ghost use Rattle.std.specs.Prelude.{◌≡◌, ◌^◌, pos, int_le, false, length};
ghost use Rattle.rtl_bits.specs.Bits.{bits_of, has_unknown, number};
ghost use Rattle.rtl_flat.specs.Value.{index_number};
ghost use Rattle.elab_standard.specs.Worth.{is_exponent, logarithm_worth, power_worth, whole_number};

use crate::numbers::is_negative;
use rtl_bits::{Bit, Vec4};
use rtl_const::logarithm::clog2;

/// Whether known bits are a number that isn't negative.
fn is_natural(bits: Vec4, signed: bool) -> bool
    requires { has_unknown bits ≡ false }
    ensures { result ≡ int_le (pos 0) (index_number signed bits) }
{
    if signed { !is_negative(bits) } else { true }
}

/// What `$clog2` of so many bits is worth.
pub(crate) fn logarithm(bits: Vec4, signed: bool) -> Vec4
    ensures bits { result ≡ logarithm_worth (whole_number signed bits) }
    ensures width { length result ≡ 32 }
{
    if !bits.is_known() {
        return Vec4::filled(32, Bit::X);
    }
    if !is_natural(bits, signed) {
        return Vec4::filled(32, Bit::X);
    }
    Vec4::of_number(32, u128::from(clog2(bits.number())))
}

/// Whether something is raised to known bits.
fn is_exponent(bits: Vec4, signed: bool) -> bool
    requires { has_unknown bits ≡ false }
    ensures { result ≡ is_exponent (index_number signed bits) }
{
    if !is_natural(bits, signed) {
        return false;
    }
    bits.number() <= 4_294_967_295
}

/// What a power is worth, modulo 2 to the width.
pub(crate) fn raise(a: Vec4, b: Vec4, signed: bool) -> Vec4
    ensures bits { result ≡ power_worth signed a b }
    ensures width { length result ≡ length a }
{
    if !a.is_known() || !b.is_known() || !is_exponent(b, signed) {
        return Vec4::filled(a.width(), Bit::X);
    }
    raised(a, b.number() as u32)
}

/// Known bits to the power of a number.
#[tactic(auto, using(rtl_bits::proofs::Wrapping::bits_of_wrapped))]
fn raised(a: Vec4, n: u32) -> Vec4
    requires { has_unknown a ≡ false }
    ensures bits { result ≡ bits_of (length a) (number a ^ n) }
    ensures width { length result ≡ length a }
{
    Vec4::of_number(a.width(), a.number().wrapping_pow(n))
}
