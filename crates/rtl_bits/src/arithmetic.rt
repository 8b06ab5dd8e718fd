//! Arithmetic modulo 2 to the width, with x in every bit where an operand isn't known.

ghost use Rattle.std.specs.Prelude.{◌≡◌, length};
ghost use Rattle.rtl_bits.specs.Bits.{sum_bits, difference_bits, product_bits, negated_bits, quotient_bits, remainder_bits};

use crate::{Bit, Vec4};

impl Vec4 {
    /// `+`
    pub fn add(self, o: Vec4) -> Vec4
        requires { length self ≡ length o }
        ensures bits { result ≡ sum_bits self o }
        ensures width { length result ≡ length self }
    {
        if !self.is_known() || !o.is_known() {
            return Vec4::filled(self.width(), Bit::X);
        }
        Vec4::of_number(self.width(), self.number().wrapping_add(o.number()))
    }

    /// Binary `-`.
    pub fn sub(self, o: Vec4) -> Vec4
        requires { length self ≡ length o }
        ensures bits { result ≡ difference_bits self o }
        ensures width { length result ≡ length self }
    {
        if !self.is_known() || !o.is_known() {
            return Vec4::filled(self.width(), Bit::X);
        }
        Vec4::of_number(self.width(), self.number().wrapping_sub(o.number()))
    }

    /// `*`
    pub fn mul(self, o: Vec4) -> Vec4
        requires { length self ≡ length o }
        ensures bits { result ≡ product_bits self o }
        ensures width { length result ≡ length self }
    {
        if !self.is_known() || !o.is_known() {
            return Vec4::filled(self.width(), Bit::X);
        }
        Vec4::of_number(self.width(), self.number().wrapping_mul(o.number()))
    }

    /// Unary `-`.
    pub fn neg(self) -> Vec4
        ensures bits { result ≡ negated_bits self }
        ensures width { length result ≡ length self }
    {
        if !self.is_known() {
            return Vec4::filled(self.width(), Bit::X);
        }
        Vec4::of_number(self.width(), 0u128.wrapping_sub(self.number()))
    }

    /// `/` of unsigned numbers: x in every bit for the divisor 0.
    pub fn div(self, o: Vec4) -> Vec4
        requires { length self ≡ length o }
        ensures bits { result ≡ quotient_bits self o }
        ensures width { length result ≡ length self }
    {
        if !self.is_known() || !o.is_known() {
            return Vec4::filled(self.width(), Bit::X);
        }
        let divisor = o.number();
        if divisor == 0 {
            return Vec4::filled(self.width(), Bit::X);
        }
        Vec4::of_number(self.width(), self.number() / divisor)
    }

    /// `%` of unsigned numbers: x in every bit for the divisor 0.
    pub fn rem(self, o: Vec4) -> Vec4
        requires { length self ≡ length o }
        ensures bits { result ≡ remainder_bits self o }
        ensures width { length result ≡ length self }
    {
        if !self.is_known() || !o.is_known() {
            return Vec4::filled(self.width(), Bit::X);
        }
        let modulus = o.number();
        if modulus == 0 {
            return Vec4::filled(self.width(), Bit::X);
        }
        Vec4::of_number(self.width(), self.number() % modulus)
    }
}
