// The bits of signals that are selected.

ghost use Rattle.std.specs.Prelude.{ℕ, ◌≡◌, ◌≤◌, ◌&&◌, nat_le, nat_lt};
ghost use Rattle.rtl_bits.specs.Bits.{is_one_at};
ghost use Rattle.rtl_flat.specs.Signs.{width_in};
ghost use Rattle.rtl_flat.specs.Paths.{no_bit};
ghost use Rattle.rtl_flat.specs.Flows.{span, all_bits, bit_at, is_place};
ghost use Rattle.rtl_scan.specs.Sets.{has_row};

use crate::bits::Row;
use rtl_flat::expr::SigId;
use rtl_flat::signal::Signal;

/// The widths of a design's signals.
#[derive(Clone, Copy)]
pub(crate) struct Widths<'d> {
    pub(crate) signals: &'d [Signal],
    ghost at_most: { (i : ℕ) → width_in signals.now i ≤ 128 },
}

impl<'d> Widths<'d> {
    /// No bit for a number that is no signal's.
    pub(crate) fn width(&self, signal: SigId) -> u8
        ensures width { result ≡ width_in self.now.signals.now signal.0 }
        ensures at_most { result ≤ 128 }
    {
        match self.signals.get(signal.0 as usize) {
            Some(signal) => signal.width,
            None => 0,
        }
    }

    /// The bits that a signal has from place `low` on and below `high`.
    pub(crate) fn span(&self, signal: SigId, low: u8, high: u16) -> Row
        ensures { (s k : ℕ) → has_row result s k
            ≡ span (width_in self.now.signals.now) signal.0 low high s k }
    {
        let end = high.min(u16::from(self.width(signal)));
        Row {
            signal,
            mask: ones(low, end as u8),
        }
    }

    /// All bits of a signal.
    pub(crate) fn all(&self, signal: SigId) -> Row
        ensures { (s k : ℕ) → has_row result s k
            ≡ all_bits (width_in self.now.signals.now) signal.0 s k }
    {
        self.span(signal, 0, u16::from(self.width(signal)))
    }

    /// The bit that an index selects where the declaration numbers the lowest bit `low`.
    pub(crate) fn bit(&self, signal: SigId, low: u32, index: i64) -> Row
        ensures { (s k : ℕ) → has_row result s k
            ≡ bit_at (width_in self.now.signals.now) signal.0 low index s k }
    {
        Row {
            signal,
            mask: one(self.width(signal), low, index),
        }
    }
}

/// No bit of a signal.
pub(crate) fn no_bits(signal: SigId) -> Row
    ensures { (s k : ℕ) → has_row result s k ≡ no_bit s k }
{
    Row { signal, mask: 0 }
}

/// The mask of the places from `low` on and below `high`.
fn ones(low: u8, high: u8) -> u128
    requires { high ≤ 128 }
    ensures { (k : ℕ) → is_one_at result k ≡ (nat_le low k && nat_lt k high) }
{
    if low >= high {
        return 0;
    }
    (u128::MAX >> (128 - high)) & (u128::MAX << low)
}

/// The mask of the place that an index means, if there is one below `width`.
fn one(width: u8, low: u32, index: i64) -> u128
    requires { width ≤ 128 }
    ensures { (k : ℕ) → is_one_at result k ≡ (nat_lt k width && is_place low index k) }
{
    let Ok(index) = u64::try_from(index) else {
        return 0;
    };
    let Some(place) = index.checked_sub(u64::from(low)) else {
        return 0;
    };
    if place >= u64::from(width) {
        return 0;
    }
    1 << place
}
