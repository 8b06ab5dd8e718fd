//! Bits that are picked out of two vectors by a mask.

ghost use Rattle.std.specs.Prelude.{ℕ, ◌≡◌, ◌≤◌, ◌<◌, ◌&&◌, ◌||◌, cond, length, nat_le, nat_lt, slice_index_or};
ghost use Rattle.rtl_bits.specs.declared.Bit.TheVariants.{X};
ghost use Rattle.rtl_bits.specs.Bits.{is_one_at, tabulate};

use rtl_bits::Vec4;

/// The mask of the places from `low` on and below `high`.
pub(crate) fn ones(low: u8, high: u8) -> u128
    requires { high ≤ 128 }
    ensures { (k : ℕ) → is_one_at result k ≡ (nat_le low k && nat_lt k high) }
{
    if low >= high {
        return 0;
    }
    (u128::MAX >> (128 - high)) & (u128::MAX << low)
}

/// The digits of `new` in the places of a mask, and those of `old` in all others.
fn merged_digits(mask: u128, new: u128, old: u128) -> u128
    ensures { (k : ℕ) → is_one_at result k
        ≡ cond (is_one_at mask k) (is_one_at new k) (is_one_at old k) }
{
    (mask & new) | (old & (old ^ mask))
}

/// The bits of `new` in the places of a mask, and those of `old` in all others.
pub(crate) fn merged(mask: u128, new: Vec4, old: Vec4) -> Vec4
    requires { length new ≡ length old }
    ensures bits { result ≡ tabulate (length old)
        (λ k. cond (is_one_at mask k) (slice_index_or new k X) (slice_index_or old k X)) }
    ensures at { (k : ℕ) → slice_index_or result k X
        ≡ cond (is_one_at mask k) (slice_index_or new k X) (slice_index_or old k X) }
    ensures width { length result ≡ length old }
{
    let val = merged_digits(mask, new.val_digits(), old.val_digits());
    let unk = merged_digits(mask, new.unk_digits(), old.unk_digits());
    Vec4::of_digits(old.width(), val, unk)
}
