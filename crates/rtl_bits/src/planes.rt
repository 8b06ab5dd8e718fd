//! The calls that read the two stored numbers. All others are written over these.
//!
//! The bitwise ones keep to `&`, `|` and `^`, so that no digit above the width is set: digits that
//! are in `a` and not in `b` are `(a | b) ^ b`.

ghost use Rattle.std.specs.Prelude.{ℕ, ◌≡◌, ◌≤◌, ◌<◌, ◌-◌, ◌*◌, ◌^◌, false, length, map, not, nat_lt, slice_index_or};
ghost use Rattle.rtl_bits.specs.Bit.{is_unknown, and_bit, or_bit, xor_bit, not_bit, resolve_bit, merge_bit};
ghost use Rattle.rtl_bits.specs.Bits.{zip_with, has_unknown, is_one_at, number, bits_of};
ghost use Rattle.rtl_bits.specs.Planes.{bits_of_planes, in_val};

use crate::{Bit, Vec4};

impl Vec4 {
    /// The vector of the digits `val` and `unk`, as they are stored; those above the width don't
    /// count.
    #[tactic(auto, using(crate::proofs::Widths::widths))]
    pub fn of_digits(width: u8, val: u128, unk: u128) -> Vec4
        requires not_empty { 1 ≤ width }
        requires at_most { width ≤ 128 }
        ensures bits { result ≡ bits_of_planes width val unk }
        ensures width { length result ≡ width }
    {
        let mask = mask(width);
        Vec4 {
            width,
            val: val & mask,
            unk: unk & mask,
        }
    }

    /// How many bits there are: 1 to 128.
    #[tactic(auto, using(crate::proofs::Widths::widths))]
    pub fn width(self) -> u8
        ensures exact { result ≡ length self }
        ensures not_empty { 1 ≤ result }
        ensures at_most { result ≤ 128 }
    {
        self.width
    }

    /// The bit at a place, where 0 is the least significant.
    pub fn bit(self, at: u8) -> Bit
        requires { at < length self }
        ensures { result ≡ slice_index_or self at Bit.X }
    {
        let val = self.val >> at & 1 == 1;
        let unk = self.unk >> at & 1 == 1;
        match (val, unk) {
            (false, false) => Bit::Zero,
            (true, false) => Bit::One,
            (false, true) => Bit::X,
            (true, true) => Bit::Z,
        }
    }

    /// The digits of the places where there is 1 or z.
    pub fn val_digits(self) -> u128
        ensures { (at : ℕ) → is_one_at result at ≡ in_val (slice_index_or self at Bit.Zero) }
    {
        self.val
    }

    /// The digits of the places where there is x or z.
    pub fn unk_digits(self) -> u128
        ensures { (at : ℕ) → is_one_at result at ≡ is_unknown (slice_index_or self at Bit.Zero) }
    {
        self.unk
    }

    /// Whether no bit is x or z.
    pub fn is_known(self) -> bool
        ensures { result ≡ not (has_unknown self) }
    {
        self.unk == 0
    }

    /// The number that the bits spell, all of them known.
    pub fn number(self) -> u128
        requires { has_unknown self ≡ false }
        ensures exact { result ≡ number self }
        ensures fits { result < 2 ^ length self }
        ensures bits { bits_of (length self) result ≡ self }
    {
        self.val
    }

    /// Whether the highest bit of known ones is 1: in two's complement the number is negative.
    pub(crate) fn is_negative(self) -> bool
        requires { has_unknown self ≡ false }
        ensures { result ≡ not (nat_lt (2 * number self) (2 ^ length self)) }
    {
        self.number() >> (self.width() - 1) == 1
    }

    /// Bitwise `&`.
    #[tactic(auto, using(crate::proofs::Widths::widths))]
    pub fn and(self, o: Vec4) -> Vec4
        requires { length self ≡ length o }
        ensures bits { result ≡ zip_with and_bit self o }
        ensures width { length result ≡ length self }
    {
        let not_zero = (self.val | self.unk) & (o.val | o.unk);
        let unk = (self.unk | o.unk) & not_zero;
        Vec4 {
            width: self.width,
            val: not_zero ^ unk,
            unk,
        }
    }

    /// Bitwise `|`.
    #[tactic(auto, using(crate::proofs::Widths::widths))]
    pub fn or(self, o: Vec4) -> Vec4
        requires { length self ≡ length o }
        ensures bits { result ≡ zip_with or_bit self o }
        ensures width { length result ≡ length self }
    {
        let one = ((self.val | self.unk) ^ self.unk) | ((o.val | o.unk) ^ o.unk);
        let unknown = self.unk | o.unk;
        Vec4 {
            width: self.width,
            val: one,
            unk: (unknown | one) ^ one,
        }
    }

    /// Bitwise `^`.
    #[tactic(auto, using(crate::proofs::Widths::widths))]
    pub fn xor(self, o: Vec4) -> Vec4
        requires { length self ≡ length o }
        ensures bits { result ≡ zip_with xor_bit self o }
        ensures width { length result ≡ length self }
    {
        let unk = self.unk | o.unk;
        Vec4 {
            width: self.width,
            val: ((self.val ^ o.val) | unk) ^ unk,
            unk,
        }
    }

    /// Bitwise `~`.
    #[tactic(auto, using(crate::proofs::Widths::widths))]
    pub fn not(self) -> Vec4
        ensures bits { result ≡ map not_bit self }
        ensures width { length result ≡ length self }
    {
        Vec4 {
            width: self.width,
            val: ((self.val ^ mask(self.width)) | self.unk) ^ self.unk,
            unk: self.unk,
        }
    }

    /// What a wire has from two drivers without strengths.
    #[tactic(auto, using(crate::proofs::Widths::widths))]
    pub fn resolve(self, o: Vec4) -> Vec4
        requires { length self ≡ length o }
        ensures bits { result ≡ zip_with resolve_bit self o }
        ensures width { length result ≡ length self }
    {
        let z = (self.val & self.unk) | (o.val & o.unk);
        let clash = self.unk | o.unk | (self.val ^ o.val);
        Vec4 {
            width: self.width,
            val: self.val & o.val,
            unk: (self.unk & o.unk) | ((clash | z) ^ z),
        }
    }

    /// What `?:` has of its arms where its condition is unknown.
    #[tactic(auto, using(crate::proofs::Widths::widths))]
    pub fn merge(self, o: Vec4) -> Vec4
        requires { length self ≡ length o }
        ensures bits { result ≡ zip_with merge_bit self o }
        ensures width { length result ≡ length self }
    {
        let unk = self.unk | o.unk | (self.val ^ o.val);
        Vec4 {
            width: self.width,
            val: (self.val | unk) ^ unk,
            unk,
        }
    }
}

/// The number of `width` ones.
pub(crate) fn mask(width: u8) -> u128
    requires not_empty { 1 ≤ width }
    requires at_most { width ≤ 128 }
    ensures { result ≡ 2 ^ width - 1 }
{
    u128::MAX >> (128 - width)
}
