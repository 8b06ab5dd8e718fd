//! The tallies of the bits of a net.

ghost use Rattle.std.specs.Prelude.{ℕ, ◌≡◌, ◌<◌, ◌≤◌, ◌+◌, ◌∷◌, List, length, slice_index_or};
ghost use Rattle.rtl_bits.specs.declared.Bit.{Bit};
ghost use Rattle.rtl_bits.specs.Bit.{resolve_bit};
ghost use Rattle.rtl_bits.specs.Bits.{reduced};
ghost use Rattle.event_tally.specs.Tallies.{IsTalliedAt, IsTalliedWith};

use crate::tally::Tally;
use rtl_bits::{Bit, Vec4};

/// Moves one driver of a net from old bits to new ones.
pub fn move_row(row: &mut Vec<Tally>, old: Vec4, new: Vec4)
    requires width { length new ≡ length old }
    requires inside { length row.old.items ≤ length old }
    requires tallied { (k : ℕ) → k < length row.old.items
        → IsTalliedWith row.old.items k (slice_index_or old k Bit.Z) }
    ensures size { length row.new.items ≡ length row.old.items }
    ensures tallied { (k : ℕ) (others : List Bit)
        → IsTalliedAt row.old.items k (slice_index_or old k Bit.Z ∷ others)
        → IsTalliedAt row.new.items k (slice_index_or new k Bit.Z ∷ others) }
{
    for k in 0..row.len() {
        let tally = row[k];
        row[k] = tally.moved(old.bit(k as u8), new.bit(k as u8));
    }
}

/// What drivers give together to so many bits of a net from a place on.
pub fn bits_of(row: &[Tally], at: u8, count: u8) -> Vec4
    requires some { 1 ≤ count }
    requires few { count ≤ 128 }
    requires inside { at + count ≤ length row.now }
    ensures width { length result ≡ count }
    ensures bits { (k : ℕ) (column : List Bit) → k < count → IsTalliedAt row.now (at + k) column
        → slice_index_or result k Bit.Z ≡ reduced resolve_bit Bit.Z column }
{
    let mut bits = Vec4::filled(count, Bit::Z);
    for k in 0..count {
        let tally = row[at as usize + k as usize];
        bits = bits.replace(k, Vec4::of_bit(tally.bit()));
    }
    bits
}
