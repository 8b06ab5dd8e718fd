//! Calls that make a vector.

ghost use Rattle.std.specs.Prelude.{◌≡◌, ◌≤◌, ◌<◌, ◌%◌, ◌^◌, ◌↔◌, false, [], ◌∷◌, length, replicate, IsSome, IfSome};
ghost use Rattle.rtl_bits.specs.Bit.{known_bit};
ghost use Rattle.rtl_bits.specs.Bits.{bits_of, has_unknown, number};

use crate::{Bit, Vec4};

impl Vec4 {
    /// The bits of a number. None where the width isn't 1 to 128 or the number needs more bits.
    pub fn known(width: u8, n: u128) -> Option<Vec4>
        ensures some { IsSome result ↔ (1 ≤ width) × (width ≤ 128) × (n < 2 ^ width) }
        ensures bits { IfSome result (λ v. v ≡ bits_of width n) }
        ensures width { IfSome result (λ v. length v ≡ width) }
        ensures known { IfSome result (λ v. has_unknown v ≡ false) }
        ensures number { IfSome result (λ v. number v ≡ n) }
    {
        if width == 0 {
            return None;
        }
        if width > 128 {
            return None;
        }
        if width < 128 && n >> width != 0 {
            return None;
        }
        Some(Vec4::of_number(width, n))
    }

    /// The bits of a number modulo 2 to the width.
    pub fn of_number(width: u8, n: u128) -> Vec4
        requires not_empty { 1 ≤ width }
        requires at_most { width ≤ 128 }
        ensures bits { result ≡ bits_of width n }
        ensures width { length result ≡ width }
        ensures known { has_unknown result ≡ false }
        ensures number { number result ≡ n % 2 ^ width }
    {
        Vec4::of_digits(width, n, 0)
    }

    /// One bit in every place.
    pub fn filled(width: u8, bit: Bit) -> Vec4
        requires not_empty { 1 ≤ width }
        requires at_most { width ≤ 128 }
        ensures bits { result ≡ replicate width bit }
        ensures width { length result ≡ width }
    {
        match bit {
            Bit::Zero => Vec4::of_digits(width, 0, 0),
            Bit::One => Vec4::of_digits(width, u128::MAX, 0),
            Bit::X => Vec4::of_digits(width, 0, u128::MAX),
            Bit::Z => Vec4::of_digits(width, u128::MAX, u128::MAX),
        }
    }

    /// A vector of one bit.
    pub fn of_bit(bit: Bit) -> Vec4
        ensures { result ≡ bit ∷ [] }
    {
        Vec4::filled(1, bit)
    }

    /// 1 for true and 0 for false, as one bit.
    pub fn of_bool(b: bool) -> Vec4
        ensures { result ≡ known_bit b ∷ [] }
    {
        Vec4::of_bit(if b { Bit::One } else { Bit::Zero })
    }
}
