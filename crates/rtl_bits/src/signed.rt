//! Division in two's complement.

ghost use Rattle.std.specs.Prelude.{◌≡◌, ◌≤◌, ◌<◌, ◌^◌, ◌↔◌, false, length, pos, neg_ℤ, unsigned_abs, int_div, int_rem, if◌then◌else◌};
ghost use Rattle.rtl_bits.specs.Bits.{has_unknown, number, signed_number, bits_of_signed, signed_division};

use crate::planes::mask;
use crate::{Bit, Vec4};

impl Vec4 {
    /// `/` of signed numbers, towards 0: x in every bit for the divisor 0.
    pub fn div_signed(self, o: Vec4) -> Vec4
        requires { length self ≡ length o }
        ensures bits { result ≡ signed_division int_div self o }
        ensures width { length result ≡ length self }
    {
        let width = self.width();
        if !self.is_known() || !o.is_known() {
            return Vec4::filled(width, Bit::X);
        }
        if o.number() == 0 {
            return Vec4::filled(width, Bit::X);
        }
        let quotient = self.magnitude() / o.magnitude();
        Vec4::of_magnitude(width, self.is_negative() != o.is_negative(), quotient)
    }

    /// `%` of signed numbers, with the sign of `self`: x in every bit for the divisor 0.
    pub fn rem_signed(self, o: Vec4) -> Vec4
        requires { length self ≡ length o }
        ensures bits { result ≡ signed_division int_rem self o }
        ensures width { length result ≡ length self }
    {
        let width = self.width();
        if !self.is_known() || !o.is_known() {
            return Vec4::filled(width, Bit::X);
        }
        if o.number() == 0 {
            return Vec4::filled(width, Bit::X);
        }
        let remainder = self.magnitude() % o.magnitude();
        Vec4::of_magnitude(width, self.is_negative(), remainder)
    }

    /// How far known bits, read as a signed number, are from 0.
    fn magnitude(self) -> u128
        requires { has_unknown self ≡ false }
        ensures exact { result ≡ unsigned_abs (signed_number self) }
        ensures fits { result < 2 ^ length self }
        ensures zero { result ≡ 0 ↔ number self ≡ 0 }
    {
        let n = self.number();
        if self.is_negative() {
            mask(self.width()) - n + 1
        } else {
            n
        }
    }

    /// The bits of a number that is this far below 0, or above.
    fn of_magnitude(width: u8, is_negative: bool, n: u128) -> Vec4
        requires not_empty { 1 ≤ width }
        requires at_most { width ≤ 128 }
        requires fits { n < 2 ^ width }
        ensures bits { result ≡ bits_of_signed width
            (if is_negative then neg_ℤ (pos n) else pos n) }
        ensures width { length result ≡ width }
    {
        if is_negative {
            Vec4::of_number(width, 0u128.wrapping_sub(n))
        } else {
            Vec4::of_number(width, n)
        }
    }
}
