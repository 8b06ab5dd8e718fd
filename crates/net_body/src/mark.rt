//! What a body wrote of a signal.

ghost use Rattle.std.specs.Prelude.{ℕ, ◌≡◌, ◌≤◌, ◌+◌, ◌-◌, ◌&&◌, ◌||◌, Some, cond, false, true, ◌<◌, length, nat_le, nat_lt, slice_index_or, None};
ghost use Rattle.rtl_bits.specs.declared.Bit.TheVariants.{X};
ghost use Rattle.rtl_bits.specs.Bits.{is_one_at};
ghost use Rattle.net_body.specs.Marks.{next_bit, is_over};

use crate::bits::{merged, ones};
use rtl_bits::{Bit, Vec4};

/// What a body wrote of a signal; a mask has a 1 in the place of each of its bits.
#[derive(Clone, Copy)]
pub struct Mark {
    /// Digits that nonblocking assignments gave, for the end.
    pub next: Vec4,
    /// The bits that `next` has digits for.
    pub has_next: u128,
    /// The bits that were written since the body began, or the arm of a case that runs.
    pub wrote: u128,
    /// Those of them that nonblocking assignments wrote.
    pub late: u128,
}

impl Mark {
    /// The mark after bits are written at once from a place on.
    pub(crate) fn with_now(self, at: u8, count: u8) -> Mark
        requires { at + count ≤ 128 }
        ensures next { result.next ≡ self.next }
        ensures has_next { result.has_next ≡ self.has_next }
        ensures wrote { (k : ℕ) → is_one_at result.wrote k
            ≡ (is_over at count k || is_one_at self.wrote k) }
        ensures late { result.late ≡ self.late }
    {
        Mark {
            next: self.next,
            has_next: self.has_next,
            wrote: ones(at, at + count) | self.wrote,
            late: self.late,
        }
    }

    /// The mark after bits are written for the end from a place on.
    pub(crate) fn with_next(self, at: u8, bits: Vec4) -> Mark
        requires { at + length bits ≤ length self.next }
        ensures next { (k : ℕ) → next_bit result k
            ≡ cond (is_over at (length bits) k) (Some (slice_index_or bits (k - at) X))
            (next_bit self k) }
        ensures wrote { (k : ℕ) → is_one_at result.wrote k
            ≡ (is_over at (length bits) k || is_one_at self.wrote k) }
        ensures late { (k : ℕ) → is_one_at result.late k
            ≡ (is_over at (length bits) k || is_one_at self.late k) }
        ensures width { length result.next ≡ length self.next }
    {
        let width = self.next.width();
        let written = ones(at, at + bits.width());
        let next = self.next.replace(at, bits);
        prove!(width <= 128);
        Mark {
            next,
            has_next: written | self.has_next,
            wrote: written | self.wrote,
            late: written | self.late,
        }
    }

    /// The mark after the bits of a mask are written at once.
    pub(crate) fn filled_now(self, mask: u128) -> Mark
        ensures next { result.next ≡ self.next }
        ensures has_next { result.has_next ≡ self.has_next }
        ensures wrote { (k : ℕ) → is_one_at result.wrote k
            ≡ (is_one_at mask k || is_one_at self.wrote k) }
        ensures late { result.late ≡ self.late }
    {
        Mark {
            next: self.next,
            has_next: self.has_next,
            wrote: mask | self.wrote,
            late: self.late,
        }
    }

    /// The mark after the bits of a mask get a digit for the end.
    pub(crate) fn filled_next(self, mask: u128, bit: Bit) -> Mark
        requires { (k : ℕ) → is_one_at mask k ≡ true → k < length self.next }
        ensures next { (k : ℕ) → next_bit result k
            ≡ cond (is_one_at mask k) (Some bit) (next_bit self k) }
        ensures wrote { (k : ℕ) → is_one_at result.wrote k
            ≡ (is_one_at mask k || is_one_at self.wrote k) }
        ensures late { (k : ℕ) → is_one_at result.late k
            ≡ (is_one_at mask k || is_one_at self.late k) }
        ensures width { length result.next ≡ length self.next }
    {
        let filled = Vec4::filled(self.next.width(), bit);
        Mark {
            next: merged(mask, filled, self.next),
            has_next: mask | self.has_next,
            wrote: mask | self.wrote,
            late: mask | self.late,
        }
    }

    /// The mark with nothing written in it.
    pub(crate) fn fresh(self) -> Mark
        ensures next { result.next ≡ self.next }
        ensures has_next { result.has_next ≡ self.has_next }
        ensures wrote { (k : ℕ) → is_one_at result.wrote k ≡ false }
        ensures late { (k : ℕ) → is_one_at result.late k ≡ false }
    {
        Mark {
            next: self.next,
            has_next: self.has_next,
            wrote: 0,
            late: 0,
        }
    }

    /// Nothing is written of a signal.
    pub(crate) fn clear(number: Vec4) -> Mark
        ensures next { (k : ℕ) → next_bit result k ≡ None }
        ensures has_next { (k : ℕ) → is_one_at result.has_next k ≡ false }
        ensures wrote { (k : ℕ) → is_one_at result.wrote k ≡ false }
        ensures late { (k : ℕ) → is_one_at result.late k ≡ false }
        ensures width { length result.next ≡ length number }
    {
        Mark {
            next: number,
            has_next: 0,
            wrote: 0,
            late: 0,
        }
    }
}
