//! Answers of one bit on one vector.

ghost use Rattle.std.specs.Prelude.{◌≡◌, [], ◌∷◌};
ghost use Rattle.std.specs.List.{list_any};
ghost use Rattle.rtl_bits.specs.Bit.{and_bit, or_bit, xor_bit, is_one};
ghost use Rattle.rtl_bits.specs.Bits.{reduced, truth_bit};

use crate::{Bit, Vec4};

impl Vec4 {
    /// A logical operand: 1 where a bit is 1, 0 where all are 0, else x.
    pub fn truth(self) -> Vec4
        ensures { result ≡ truth_bit self ∷ [] }
    {
        if self.has_one() {
            Vec4::of_bit(Bit::One)
        } else if self.is_known() {
            Vec4::of_bit(Bit::Zero)
        } else {
            Vec4::of_bit(Bit::X)
        }
    }

    /// Reduction `&`.
    #[tactic(auto, using(crate::proofs::Reductions::reductions))]
    pub fn reduce_and(self) -> Vec4
        ensures { result ≡ reduced and_bit Bit.One self ∷ [] }
    {
        self.not().reduce_or().not()
    }

    /// Reduction `|`.
    #[tactic(auto, using(crate::proofs::Reductions::reductions))]
    pub fn reduce_or(self) -> Vec4
        ensures { result ≡ reduced or_bit Bit.Zero self ∷ [] }
    {
        self.truth()
    }

    /// Reduction `^`.
    #[tactic(auto, using(crate::proofs::Reductions::reductions))]
    pub fn reduce_xor(self) -> Vec4
        ensures { result ≡ reduced xor_bit Bit.Zero self ∷ [] }
    {
        if !self.is_known() {
            return Vec4::of_bit(Bit::X);
        }
        Vec4::of_bool(self.number().count_ones() % 2 == 1)
    }

    /// Whether a bit is 1.
    fn has_one(self) -> bool
        ensures { result ≡ list_any is_one self }
    {
        (self.val | self.unk) ^ self.unk != 0
    }
}
