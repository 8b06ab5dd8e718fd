//! What the drivers of a net give it.

ghost use Rattle.std.specs.Prelude.{◌≡◌, ◌<◌, ◌≤◌, ◌+◌, ◌==◌, length, map};
ghost use Rattle.std.specs.List.{All, slice_get};
ghost use Rattle.rtl_bits.specs.Bits.{selected};
ghost use Rattle.rtl_flat.specs.Process.{piece, selection};
ghost use Rattle.rtl_flat.specs.Signs.{width_in};
ghost use Rattle.rtl_flat.specs.WellFormed.{IsFixed, IsSelection};
ghost use Rattle.event_model.specs.Queue.{doing_at, resolved};
ghost use Rattle.rtl_flat.specs.Flats.{widths};
ghost use Rattle.event_model.specs.Writes.{Values, all_written, count_of, counts, driven, no_drive, span_of, write_at};
ghost use Rattle.event_write.specs.Entries.{AreSelected};
ghost use Rattle.event_write.specs.QueueState.{IsFanout, IsQueueState, design_of, driven_with, state};
ghost use Rattle.event_write.specs.Stored.{AreStored};

use event_write::entries::{counts, entry_of};
use event_write::fanout::Fanout;
use event_write::queue_state::QueueState;
use event_write::spans::count_of;
use event_write::stores::width_of;
use rtl_bits::{Bit, Vec4};
use rtl_flat::act::{Does, ProcId, TargetPart};
use rtl_flat::expr::SigId;
use rtl_flat::signal::Signal;

/// What the drivers of a net give it together.
pub fn resolve(fanout: &Fanout, queue: &QueueState, net: SigId) -> Vec4
    requires fanout { IsFanout fanout.now }
    requires queue { IsQueueState (design_of fanout.now) queue.now }
    requires there { net.0 < length fanout.now.design.now.signals.items }
    ensures bits { result ≡ resolved (design_of fanout.now) (state queue.now).driver net.0 }
    ensures width { length result ≡ width_in fanout.now.design.now.signals.items net.0 }
{
    let drivers = &fanout.drivers[net.0 as usize];
    let count = drivers.len();
    let mut given = Vec4::filled(width_of(&fanout.design.signals, net), Bit::Z);
    for behind in 0..count {
        let process = drivers[count - 1 - behind];
        given = drive_with(fanout, queue, process, net, given);
    }
    given
}

/// What a driver gives to a net beside what others give.
fn drive_with(
    fanout: &Fanout,
    queue: &QueueState,
    process: ProcId,
    net: SigId,
    others: Vec4,
) -> Vec4
    requires queue { IsQueueState (design_of fanout.now) queue.now }
    requires inside { process.0 < length fanout.now.design.now.processes.items }
    requires there { net.0 < length fanout.now.design.now.signals.items }
    requires width { length others ≡ width_in fanout.now.design.now.signals.items net.0 }
    ensures bits { result ≡ driven_with (widths (design_of fanout.now))
        (doing_at (design_of fanout.now) process.0)
        ((state queue.now).driver process.0) net.0 others }
    ensures width { length result ≡ width_in fanout.now.design.now.signals.items net.0 }
{
    let Does::Assign { target, value: _ } = &fanout.design.processes[process.0 as usize].does else {
        return others;
    };
    let Some(bits) = queue.drivers[process.0 as usize] else {
        return others;
    };
    let signals = &fanout.design.signals;
    driven(signals, &queue.values, &target.parts, bits, net).resolve(others)
}

/// What a driver gives to a net: z in each bit that it doesn't drive.
pub(crate) fn driven(
    signals: &[Signal],
    values: &[Vec4],
    parts: &[TargetPart],
    bits: Vec4,
    net: SigId,
) -> Vec4
    requires there { net.0 < length signals.now }
    requires width { (1 ≤ width_in signals.now net.0) × (width_in signals.now net.0 ≤ 128) }
    requires selected { AreSelected signals.now (map piece parts.now) }
    requires fixed { All (λ piece. IsFixed piece.selection) (map piece parts.now) }
    requires covered { counts (width_in signals.now) (map piece parts.now) ≤ length bits }
    requires stored { AreStored signals.now values.now }
    ensures bits { result ≡ driven (width_in signals.now) (map piece parts.now) bits net.0 }
    ensures width { length result ≡ width_in signals.now net.0 }
{
    let mut left = counts(signals, parts);
    let mut given = Vec4::filled(width_of(signals, net), Bit::Z);
    for part in parts {
        left -= count_of(signals, part.signal, &part.select);
        given = with_part(signals, values, part, left, bits, net, given);
    }
    given
}

/// The bits of a net with those that a part of a target has there.
fn with_part(
    signals: &[Signal],
    values: &[Vec4],
    part: &TargetPart,
    at: u8,
    bits: Vec4,
    net: SigId,
    given: Vec4,
) -> Vec4
    requires selected { IsSelection signals.now part.now.signal.0 (selection part.now.select) }
    requires not_empty { 1 ≤ count_of (width_in signals.now) part.now.signal.0
        (selection part.now.select) }
    requires fixed { IsFixed (selection part.now.select) }
    requires inside { at + count_of (width_in signals.now) part.now.signal.0
        (selection part.now.select) ≤ length bits }
    requires stored { AreStored signals.now values.now }
    requires width { length given ≡ width_in signals.now net.0 }
    ensures bits { (v : Values) → v net.0 ≡ given
        → result ≡ all_written v (write_at part.now.signal.0
        (span_of (width_in signals.now) (no_drive (width_in signals.now)) part.now.signal.0
        (selection part.now.select)) (selected at
        (count_of (width_in signals.now) part.now.signal.0 (selection part.now.select)) bits))
        net.0 }
    ensures width { length result ≡ width_in signals.now net.0 }
{
    let is_there = is_same(part.signal, net);
    if !is_there {
        return given;
    }
    let entry = entry_of(signals, values, part, at, bits, false);
    match entry.span {
        Some(span) => given.replace(span.at, entry.bits),
        None => given,
    }
}

pub(crate) fn is_same(one: SigId, other: SigId) -> bool
    ensures { result ≡ (one.0 == other.0) }
{
    one.0 == other.0
}
