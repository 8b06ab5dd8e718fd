//! Continuous assignments.

ghost use Rattle.std.specs.Prelude.{ℕ, ◌≡◌, ◌≤◌, ◌<◌, ◌+◌, length, map};
ghost use Rattle.std.specs.List.{All};
ghost use Rattle.rtl_flat.specs.Process.{piece, selection};
ghost use Rattle.rtl_flat.specs.Signs.{width_in};
ghost use Rattle.rtl_flat.specs.Value.{store};
ghost use Rattle.rtl_flat.specs.WellFormed.{IsSelection};
ghost use Rattle.event_model.specs.Writes.{all_written, counts, written};
ghost use Rattle.net_model.specs.Block.{digit_writes};
ghost use Rattle.net_body.specs.Entries.{IsInside, all_writes, entry_writes};
ghost use Rattle.net_body.specs.Marks.{AreStored};

use crate::entries::{Entry, prepare};
use net_model::fill::Fill;
use rtl_bits::Vec4;
use rtl_flat::act::TargetPart;
use rtl_flat::expr::SigId;
use rtl_flat::signal::Signal;

/// Puts bits over those of a signal from a place on.
fn store_bits(signals: &[Signal], signal: SigId, at: u8, bits: Vec4, numbers: &mut [Vec4])
    requires there { signal.0 < length signals.now }
    requires inside { at + length bits ≤ width_in signals.now signal.0 }
    requires stored { AreStored signals.now numbers.old }
    ensures numbers { store numbers.new
        ≡ written (store numbers.old) (record { signal = signal.0; at = at; bits = bits }) }
    ensures stored { AreStored signals.now numbers.new }
{
    let place = signal.0 as usize;
    let number = numbers[place];
    numbers[place] = number.replace(at, bits);
}

/// Makes a prepared write, if its index selects a bit.
fn store_entry(signals: &[Signal], entry: Entry, numbers: &mut [Vec4])
    requires inside { All (IsInside signals.now) (entry_writes entry) }
    requires stored { AreStored signals.now numbers.old }
    ensures numbers { store numbers.new ≡ all_written (store numbers.old) (entry_writes entry) }
    ensures stored { AreStored signals.now numbers.new }
{
    if let Some(span) = entry.span {
        store_bits(signals, entry.signal, span.at, entry.bits, numbers);
    }
}

/// Makes prepared writes in their order.
fn store_entries(signals: &[Signal], entries: &[Entry], numbers: &mut [Vec4])
    requires inside { All (IsInside signals.now) (all_writes entries.now) }
    requires stored { AreStored signals.now numbers.old }
    ensures numbers { store numbers.new ≡ all_written (store numbers.old) (all_writes entries.now) }
    ensures stored { AreStored signals.now numbers.new }
{
    for entry in entries {
        store_entry(signals, *entry, numbers);
    }
}

/// Gives a number to a target.
pub(crate) fn connect(
    signals: &[Signal],
    parts: &[TargetPart],
    value: Vec4,
    fill: Fill,
    numbers: &mut [Vec4],
    entries: &mut [Entry],
)
    requires some { (i : ℕ) → i < length signals.now → 1 ≤ width_in signals.now i }
    requires selected { All (λ part. IsSelection signals.now part.signal.0 (selection part.select))
        parts.now }
    requires covered { counts (width_in signals.now) (map piece parts.now) ≤ length value }
    requires stored { AreStored signals.now numbers.old }
    requires room { length parts.now ≤ length entries.old }
    ensures numbers { store numbers.new
        ≡ all_written (store numbers.old)
        (digit_writes (width_in signals.now) fill (store numbers.old) (map piece parts.now) value) }
    ensures stored { AreStored signals.now numbers.new }
{
    prepare(signals, parts, value, fill, numbers, entries);
    store_entries(signals, &entries[..parts.len()], numbers);
}
