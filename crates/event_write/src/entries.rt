//! Writes that are prepared: all values and indices are known before the first of them is made.

ghost use Rattle.std.specs.Prelude.{◌≡◌, ◌≤◌, ◌+◌, ◌++◌, [], ◌∷◌, length, map, vec_capacity};
ghost use Rattle.rtl_bits.specs.Bits.{selected};
ghost use Rattle.rtl_flat.specs.Process.{piece, selection};
ghost use Rattle.rtl_flat.specs.Signs.{width_in};
ghost use Rattle.rtl_flat.specs.Value.{store};
ghost use Rattle.rtl_flat.specs.WellFormed.{IsSelection};
ghost use Rattle.event_model.specs.Writes.{counts, count_of, span_of};
ghost use Rattle.event_write.specs.Entries.{AreSelected, entries, entry};
ghost use Rattle.event_write.specs.Stored.{AreStored};

use crate::spans::{Span, count_of, span_of};
use rtl_bits::Vec4;
use rtl_flat::act::TargetPart;
use rtl_flat::expr::SigId;
use rtl_flat::signal::Signal;

/// The bits for a part of a target.
#[derive(Clone, Copy)]
pub struct Entry {
    pub signal: SigId,
    /// Which bits are written; none where an index selects none.
    pub span: Option<Span>,
    pub bits: Vec4,
    /// Whether it is the last part of its target.
    pub is_last: bool,
}

/// How many bits a target has.
pub fn counts(signals: &[Signal], parts: &[TargetPart]) -> u8
    requires selected { AreSelected signals.now (map piece parts.now) }
    requires at_most { counts (width_in signals.now) (map piece parts.now) ≤ 128 }
    ensures { result ≡ counts (width_in signals.now) (map piece parts.now) }
{
    let mut count = 0;
    for part in parts {
        count += count_of(signals, part.signal, &part.select);
    }
    count
}

/// Prepares the writes of a value to a target, behind others. It takes no memory.
pub fn prepare(
    signals: &[Signal],
    values: &[Vec4],
    parts: &[TargetPart],
    value: Vec4,
    prepared: &mut Vec<Entry>,
)
    requires selected { AreSelected signals.now (map piece parts.now) }
    requires stored { AreStored signals.now values.now }
    requires covered { counts (width_in signals.now) (map piece parts.now) ≤ length value }
    requires room { length prepared.old.items + length parts.now ≤ vec_capacity prepared.old }
    ensures entries { map entry prepared.new.items
        ≡ map entry prepared.old.items
        ++ entries (width_in signals.now) (store values.now) (map piece parts.now) value }
    ensures capacity { vec_capacity prepared.old ≤ vec_capacity prepared.new }
{
    let left = counts(signals, parts);
    prepare_parts(signals, values, parts, left, value, prepared);
}

/// Prepares the writes for parts that have so many bits together, which are the lowest of a value.
fn prepare_parts(
    signals: &[Signal],
    values: &[Vec4],
    parts: &[TargetPart],
    left: u8,
    value: Vec4,
    prepared: &mut Vec<Entry>,
)
    requires selected { AreSelected signals.now (map piece parts.now) }
    requires stored { AreStored signals.now values.now }
    requires left { left ≡ counts (width_in signals.now) (map piece parts.now) }
    requires covered { left ≤ length value }
    requires room { length prepared.old.items + length parts.now ≤ vec_capacity prepared.old }
    ensures entries { map entry prepared.new.items
        ≡ map entry prepared.old.items
        ++ entries (width_in signals.now) (store values.now) (map piece parts.now) value }
    ensures capacity { vec_capacity prepared.old ≤ vec_capacity prepared.new }
{
    let Some((part, others)) = parts.split_first() else {
        return;
    };
    let left = left - count_of(signals, part.signal, &part.select);
    let is_last = others.is_empty();
    push(
        prepared,
        entry_of(signals, values, part, left, value, is_last),
    );
    prepare_parts(signals, values, others, left, value, prepared);
}

/// The bits of a value for a part that has them from a place on.
pub fn entry_of(
    signals: &[Signal],
    values: &[Vec4],
    part: &TargetPart,
    at: u8,
    value: Vec4,
    is_last: bool,
) -> Entry
    requires selected { IsSelection signals.now part.now.signal.0 (selection part.now.select) }
    requires not_empty { 1 ≤ count_of (width_in signals.now) part.now.signal.0
        (selection part.now.select) }
    requires inside { at + count_of (width_in signals.now) part.now.signal.0
        (selection part.now.select) ≤ length value }
    requires stored { AreStored signals.now values.now }
    ensures { entry result ≡ record {
      signal = part.now.signal.0;
      span = span_of (width_in signals.now)
          (store values.now) part.now.signal.0 (selection part.now.select);
      bits = selected at
          (count_of (width_in signals.now) part.now.signal.0 (selection part.now.select)) value;
      is_last = is_last;
    } }
{
    let count = count_of(signals, part.signal, &part.select);
    Entry {
        signal: part.signal,
        span: span_of(signals, values, part.signal, &part.select),
        bits: value.select(at, count),
        is_last,
    }
}

/// Adds an entry where there is room for it.
fn push(prepared: &mut Vec<Entry>, added: Entry)
    requires { length prepared.old.items + 1 ≤ vec_capacity prepared.old }
    ensures items { prepared.new.items ≡ prepared.old.items ++ added ∷ [] }
    ensures capacity { vec_capacity prepared.old ≤ vec_capacity prepared.new }
{
    let _ = prepared.push(added);
}
