//! Comparisons, and the tests of `case` labels.

ghost use Rattle.std.specs.Prelude.{◌≡◌, ◌↔◌, false, length, IsTrue, [], ◌∷◌, int_lt};
ghost use Rattle.rtl_bits.specs.Bits.{all_with, may_equal, same_bit, matches_but_z, equal_bit, case_equal_bit, less_bit, has_unknown, signed_number};

use crate::{Bit, Vec4};

impl Vec4 {
    /// Whether two vectors have the same width and the same bits.
    pub fn is_same(self, o: Vec4) -> bool
        ensures { IsTrue result ↔ (self ≡ o) }
    {
        if self.width != o.width {
            return false;
        }
        if self.val != o.val {
            return false;
        }
        self.unk == o.unk
    }

    /// Whether a label of `case` matches: all four values count.
    pub fn matches(self, label: Vec4) -> bool
        requires { length self ≡ length label }
        ensures { result ≡ all_with same_bit self label }
    {
        ((self.val ^ label.val) | (self.unk ^ label.unk)) == 0
    }

    /// Whether a label of `casez` matches: z on either side matches anything.
    pub fn matches_z(self, label: Vec4) -> bool
        requires { length self ≡ length label }
        ensures { result ≡ all_with matches_but_z self label }
    {
        let z = (self.val & self.unk) | (label.val & label.unk);
        let differs = (self.val ^ label.val) | (self.unk ^ label.unk);
        (differs | z) ^ z == 0
    }

    /// Whether a label of `casex` matches: x and z on either side match anything.
    pub fn matches_x(self, label: Vec4) -> bool
        requires { length self ≡ length label }
        ensures { result ≡ all_with may_equal self label }
    {
        let unknown = self.unk | label.unk;
        ((self.val ^ label.val) | unknown) ^ unknown == 0
    }

    /// `==`: x where no known bits differ and a bit is x or z.
    pub fn eq(self, o: Vec4) -> Vec4
        requires { length self ≡ length o }
        ensures { result ≡ equal_bit self o ∷ [] }
    {
        if !self.matches_x(o) {
            Vec4::of_bit(Bit::Zero)
        } else if self.is_known() && o.is_known() {
            Vec4::of_bit(Bit::One)
        } else {
            Vec4::of_bit(Bit::X)
        }
    }

    /// `===`: all four values count.
    pub fn case_eq(self, o: Vec4) -> Vec4
        requires { length self ≡ length o }
        ensures { result ≡ case_equal_bit self o ∷ [] }
    {
        Vec4::of_bool(self.matches(o))
    }

    /// `<`, of unsigned numbers or in two's complement: x where a bit is x or z.
    pub fn lt(self, o: Vec4, signed: bool) -> Vec4
        requires { length self ≡ length o }
        ensures { result ≡ less_bit signed self o ∷ [] }
    {
        if !self.is_known() || !o.is_known() {
            return Vec4::of_bit(Bit::X);
        }
        Vec4::of_bool(if signed {
            self.is_below(o)
        } else {
            self.number() < o.number()
        })
    }

    /// Whether known bits, read in two's complement, are the lesser number.
    fn is_below(self, o: Vec4) -> bool
        requires left { has_unknown self ≡ false }
        requires right { has_unknown o ≡ false }
        requires widths { length self ≡ length o }
        ensures { result ≡ int_lt (signed_number self) (signed_number o) }
    {
        let is_left_negative = self.is_negative();
        if is_left_negative == o.is_negative() {
            self.number() < o.number()
        } else {
            is_left_negative
        }
    }
}
