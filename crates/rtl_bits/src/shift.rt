//! Shifts, with x in every bit where the amount isn't known.

ghost use Rattle.std.specs.Prelude.{◌≡◌, length};
ghost use Rattle.rtl_bits.specs.Bits.{shifted_left, shifted_right, top_bit};

use crate::{Bit, Vec4};

impl Vec4 {
    /// `<<`: vacated places are 0.
    #[tactic(auto, using(crate::proofs::Shifts::shifts))]
    pub fn shl(self, by: Vec4) -> Vec4
        ensures bits { result ≡ shifted_left self by }
        ensures width { length result ≡ length self }
    {
        let width = self.width();
        if !by.is_known() {
            return Vec4::filled(width, Bit::X);
        }
        let by = by.number();
        if by == 0 {
            return self;
        }
        if by >= width as u128 {
            return Vec4::filled(width, Bit::Zero);
        }
        let by = by as u8;
        Vec4::filled(by, Bit::Zero).join(self.low(width - by))
    }

    /// `>>`: vacated places are 0.
    pub fn shr(self, by: Vec4) -> Vec4
        ensures bits { result ≡ shifted_right Bit.Zero self by }
        ensures width { length result ≡ length self }
    {
        self.shift_in(by, Bit::Zero)
    }

    /// `>>>` of a signed operand: vacated places have its highest bit.
    pub fn sar(self, by: Vec4) -> Vec4
        ensures bits { result ≡ shifted_right (top_bit self) self by }
        ensures width { length result ≡ length self }
    {
        self.shift_in(by, self.bit(self.width() - 1))
    }

    /// A shift to the right with a bit in the vacated places.
    #[tactic(auto, using(crate::proofs::Shifts::shifts))]
    fn shift_in(self, by: Vec4, fill: Bit) -> Vec4
        ensures bits { result ≡ shifted_right fill self by }
        ensures width { length result ≡ length self }
    {
        let width = self.width();
        if !by.is_known() {
            return Vec4::filled(width, Bit::X);
        }
        let by = by.number();
        if by == 0 {
            return self;
        }
        if by >= width as u128 {
            return Vec4::filled(width, fill);
        }
        let by = by as u8;
        self.high(by).join(Vec4::filled(by, fill))
    }
}
