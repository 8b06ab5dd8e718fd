//! Where a signal changes.

ghost use Rattle.std.specs.Prelude.{ℕ, ◌≡◌, ◌&&◌, not, length};
ghost use Rattle.rtl_bits.specs.Bits.{is_one_at};
ghost use Rattle.event_write.specs.Changes.{mask_of, AreChanges};

use rtl_bits::{Edge, Vec4};

/// The places at which a signal changes, each a digit.
#[derive(Clone, Copy)]
pub struct Changes {
    pub any: u128,
    /// Where there is a posedge.
    pub rises: u128,
    /// Where there is a negedge.
    pub falls: u128,
}

impl Changes {
    /// The places at which two values of a signal differ: a posedge where the old bit was 0 or the new one is 1, a
    /// negedge where the old bit was 1 or the new one is 0.
    pub fn of(old: Vec4, new: Vec4) -> Changes
        requires { length old ≡ length new }
        ensures { AreChanges old new result }
    {
        let old_val = old.val_digits();
        let old_unk = old.unk_digits();
        let new_val = new.val_digits();
        let new_unk = new.unk_digits();
        let any = (old_val ^ new_val) | (old_unk ^ new_unk);
        let was_zero = without(any, old_val | old_unk);
        let is_zero = without(any, new_val | new_unk);
        let was_one = any & without(old_val, old_unk);
        let is_one = any & without(new_val, new_unk);
        Changes {
            any,
            rises: was_zero | is_one,
            falls: was_one | is_zero,
        }
    }

    /// The places with an event of a kind.
    pub fn places(self, edge: Edge) -> u128
        ensures { result ≡ mask_of self edge }
    {
        match edge {
            Edge::No => self.any,
            Edge::Pos => self.rises,
            Edge::Neg => self.falls,
        }
    }
}

/// The digits that aren't among others.
fn without(digits: u128, others: u128) -> u128
    ensures { (k : ℕ) → is_one_at result k ≡ (is_one_at digits k && not (is_one_at others k)) }
{
    (digits | others) ^ others
}
