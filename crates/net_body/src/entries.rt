//! Assignments: all numbers and indices are known before the first bit is written.

ghost use Rattle.std.specs.Prelude.{◌≡◌, ◌≤◌, ◌<◌, ◌+◌, ◌++◌, length, map, take, ℕ};
ghost use Rattle.std.specs.List.{All};
ghost use Rattle.rtl_bits.specs.Bits.{selected};
ghost use Rattle.rtl_flat.specs.Process.{piece, selection};
ghost use Rattle.rtl_flat.specs.Signs.{width_in};
ghost use Rattle.rtl_flat.specs.Value.{store};
ghost use Rattle.rtl_flat.specs.WellFormed.{IsSelection};
ghost use Rattle.event_model.specs.Writes.{count_of, counts, write_at};
ghost use Rattle.net_model.specs.Block.{digit_writes, span_by, write_each};
ghost use Rattle.net_body.specs.Entries.{IsInside, all_writes, entry_writes};
ghost use Rattle.net_body.specs.Marks.{AreKept, AreStored, maps};

use crate::mark::Mark;
use crate::writes::write;
use net_model::fill::Fill;
use net_number::{Span, span};
use rtl_bits::Vec4;
use rtl_flat::act::TargetPart;
use rtl_flat::expr::{Select, SigId};
use rtl_flat::signal::Signal;

/// The bits for a part of a target.
#[derive(Clone, Copy)]
pub struct Entry {
    pub signal: SigId,
    /// Which bits are written; none where an index selects none.
    pub span: Option<Span>,
    pub bits: Vec4,
}

/// How many bits a selection has, whether its signal has them or not.
#[tactic(auto, using(crate::proofs::Targets::width_at))]
fn count_of(signals: &[Signal], signal: SigId, select: &Select) -> u8
    requires { IsSelection signals.now signal.0 (selection select.now) }
    ensures { result ≡ count_of (width_in signals.now) signal.0 (selection select.now) }
{
    match select {
        Select::Whole => signals[signal.0 as usize].width,
        Select::Bit { low: _, index: _ } => 1,
        Select::Part { low: _, width } => *width,
    }
}

/// How many bits a target has.
fn counts(signals: &[Signal], parts: &[TargetPart]) -> u8
    requires selected { All (λ part. IsSelection signals.now part.signal.0 (selection part.select))
        parts.now }
    requires at_most { counts (width_in signals.now) (map piece parts.now) ≤ 128 }
    ensures { result ≡ counts (width_in signals.now) (map piece parts.now) }
{
    let mut count = 0;
    for part in parts {
        count += count_of(signals, part.signal, &part.select);
    }
    count
}

/// The bits of a number for a part that has them from a place on.
fn entry_of(
    signals: &[Signal],
    part: &TargetPart,
    at: u8,
    value: Vec4,
    fill: Fill,
    numbers: &[Vec4],
) -> Entry
    requires some { (i : ℕ) → i < length signals.now → 1 ≤ width_in signals.now i }
    requires selected { IsSelection signals.now part.now.signal.0 (selection part.now.select) }
    requires inside { at + count_of (width_in signals.now) part.now.signal.0
        (selection part.now.select) ≤ length value }
    requires stored { AreStored signals.now numbers.now }
    ensures writes { entry_writes result
        ≡ write_at part.now.signal.0 (span_by (width_in signals.now) fill
        (store numbers.now) part.now.signal.0 (selection part.now.select))
        (selected at (count_of (width_in signals.now) part.now.signal.0 (selection part.now.select))
        value) }
    ensures inside { All (IsInside signals.now) (entry_writes result) }
{
    let count = count_of(signals, part.signal, &part.select);
    Entry {
        signal: part.signal,
        span: span(part, fill, numbers),
        bits: value.select(at, count),
    }
}

/// Prepares the writes of a number to a target.
pub(crate) fn prepare(
    signals: &[Signal],
    parts: &[TargetPart],
    value: Vec4,
    fill: Fill,
    numbers: &[Vec4],
    entries: &mut [Entry],
)
    requires some { (i : ℕ) → i < length signals.now → 1 ≤ width_in signals.now i }
    requires selected { All (λ part. IsSelection signals.now part.signal.0 (selection part.select))
        parts.now }
    requires covered { counts (width_in signals.now) (map piece parts.now) ≤ length value }
    requires stored { AreStored signals.now numbers.now }
    requires room { length parts.now ≤ length entries.old }
    ensures writes { all_writes (take (length parts.now) entries.new)
        ≡ digit_writes (width_in signals.now) fill (store numbers.now) (map piece parts.now) value }
    ensures inside { All (IsInside signals.now) (all_writes (take (length parts.now) entries.new)) }
{
    let mut left = counts(signals, parts);
    for (number, part) in parts.iter().enumerate() {
        left -= count_of(signals, part.signal, &part.select);
        entries[number] = entry_of(signals, part, left, value, fill, numbers);
    }
}

/// Makes a prepared write, if its index selects a bit.
fn write_entry(
    signals: &[Signal],
    entry: Entry,
    delayed: bool,
    numbers: &mut [Vec4],
    marks: &mut [Mark],
)
    requires inside { All (IsInside signals.now) (entry_writes entry) }
    requires kept { AreKept signals.now numbers.old marks.old }
    ensures maps { maps numbers.new marks.new
        ≡ write_each delayed (maps numbers.old marks.old) (entry_writes entry) }
    ensures kept { AreKept signals.now numbers.new marks.new }
{
    if let Some(span) = entry.span {
        write(
            signals,
            entry.signal,
            span.at,
            entry.bits,
            delayed,
            numbers,
            marks,
        );
    }
}

/// Makes prepared writes in their order.
fn write_entries(
    signals: &[Signal],
    entries: &[Entry],
    delayed: bool,
    numbers: &mut [Vec4],
    marks: &mut [Mark],
)
    requires inside { All (IsInside signals.now) (all_writes entries.now) }
    requires kept { AreKept signals.now numbers.old marks.old }
    ensures maps { maps numbers.new marks.new
        ≡ write_each delayed (maps numbers.old marks.old) (all_writes entries.now) }
    ensures kept { AreKept signals.now numbers.new marks.new }
{
    for entry in entries {
        write_entry(signals, *entry, delayed, numbers, marks);
    }
}

/// Gives a number to a target, in either way.
pub(crate) fn assign(
    signals: &[Signal],
    parts: &[TargetPart],
    value: Vec4,
    delayed: bool,
    fill: Fill,
    numbers: &mut [Vec4],
    marks: &mut [Mark],
    entries: &mut [Entry],
)
    requires some { (i : ℕ) → i < length signals.now → 1 ≤ width_in signals.now i }
    requires selected { All (λ part. IsSelection signals.now part.signal.0 (selection part.select))
        parts.now }
    requires covered { counts (width_in signals.now) (map piece parts.now) ≤ length value }
    requires kept { AreKept signals.now numbers.old marks.old }
    requires room { 128 ≤ length entries.old }
    ensures maps { maps numbers.new marks.new
        ≡ write_each delayed (maps numbers.old marks.old)
        (digit_writes (width_in signals.now) fill (store numbers.old) (map piece parts.now) value) }
    ensures kept { AreKept signals.now numbers.new marks.new }
{
    let _ = value.width();
    prepare(signals, parts, value, fill, numbers, entries);
    write_entries(signals, &entries[..parts.len()], delayed, numbers, marks);
}
