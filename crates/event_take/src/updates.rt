//! The update of a driver, and the nets that follow it. It takes no memory.

ghost use Rattle.std.specs.Prelude.{◌≡◌, ◌<◌, ◌≤◌, true, length, map};
ghost use Rattle.std.specs.List.{All};
ghost use Rattle.rtl_flat.specs.Process.{piece, selection};
ghost use Rattle.rtl_flat.specs.Signs.{width_in};
ghost use Rattle.rtl_flat.specs.WellFormed.{IsFixed, IsSelection};
ghost use Rattle.rank_set.specs.Ranks.{flag};
ghost use Rattle.event_model.specs.Queue.{Update, after, bits_in, doing_at, net_writes, resolved, write_all};
ghost use Rattle.rtl_flat.specs.Flats.{widths};
ghost use Rattle.event_model.specs.Writes.{count_of, no_drive, put, span_of, write_at};
ghost use Rattle.event_write.specs.Entries.{AreSelected};
ghost use Rattle.event_write.specs.QueueState.{HasWidth, IsFanout, IsQueueState, design_of, state};
ghost use Rattle.event_take.specs.Rooms.{IsStill};

use crate::tallies::{given, retally};
use event_write::fanout::Fanout;
use event_write::queue_state::QueueState;
use event_write::spans::span_of;
use event_write::waking::write;
use rtl_bits::Vec4;
use rtl_flat::act::{Does, ProcId, TargetPart};

/// The driver of a continuous assignment takes its pending value, and its nets follow.
pub fn update_driver(fanout: &Fanout, queue: &mut QueueState, process: ProcId)
    requires fanout { IsFanout fanout.now }
    requires queue { IsQueueState (design_of fanout.now) queue.old }
    requires pending { flag queue.old.pending process.0 ≡ true }
    ensures state { state queue.new
        ≡ after (design_of fanout.now) (state queue.old) (Update process.0) }
    ensures queue { IsQueueState (design_of fanout.now) queue.new }
    ensures still { IsStill queue.old queue.new }
{
    match &fanout.design.processes[process.0 as usize].does {
        Does::Assign { target, value: _ } => {
            let bits = queue.pending_values[process.0 as usize];
            queue.pending.remove(process.0 as usize);
            set_driver(fanout, queue, process, bits);
            write_nets(fanout, queue, &target.parts);
        }
        Does::Comb { list: _, body: _ } => {}
        Does::Edge { events: _, body: _ } => {}
    }
}

/// A driver takes new bits.
fn set_driver(fanout: &Fanout, queue: &mut QueueState, process: ProcId, bits: Vec4)
    requires queue { IsQueueState (design_of fanout.now) queue.old }
    requires there { process.0 < length fanout.now.design.now.processes.items }
    requires width { HasWidth (widths (design_of fanout.now))
        (doing_at (design_of fanout.now) process.0) (length bits) }
    ensures state { state queue.new
        ≡ record (state queue.old) { driver = put (state queue.old).driver process.0 bits } }
    ensures queue { IsQueueState (design_of fanout.now) queue.new }
    ensures still { IsStill queue.old queue.new }
{
    let old = queue.drivers[process.0 as usize];
    retally(
        fanout.design,
        &queue.values,
        &mut queue.tallies,
        process,
        old,
        bits,
    );
    queue.drivers[process.0 as usize] = Some(bits);
}

/// The nets of a target take what their drivers give them.
fn write_nets(fanout: &Fanout, queue: &mut QueueState, parts: &[TargetPart])
    requires fanout { IsFanout fanout.now }
    requires queue { IsQueueState (design_of fanout.now) queue.old }
    requires selected { AreSelected fanout.now.design.now.signals.items (map piece parts.now) }
    requires fixed { All (λ piece. IsFixed piece.selection) (map piece parts.now) }
    ensures state { state queue.new
        ≡ write_all (design_of fanout.now) (state queue.old)
        (net_writes (width_in fanout.now.design.now.signals.items)
        (resolved (design_of fanout.now) (state queue.old).driver) (map piece parts.now)) }
    ensures queue { IsQueueState (design_of fanout.now) queue.new }
    ensures still { IsStill queue.old queue.new }
{
    for part in parts {
        write_net(fanout, queue, part);
    }
}

/// A net takes what its drivers give to a part of it.
fn write_net(fanout: &Fanout, queue: &mut QueueState, part: &TargetPart)
    requires fanout { IsFanout fanout.now }
    requires queue { IsQueueState (design_of fanout.now) queue.old }
    requires selected { IsSelection fanout.now.design.now.signals.items part.now.signal.0
        (selection part.now.select) }
    requires not_empty { 1 ≤ count_of (width_in fanout.now.design.now.signals.items)
        part.now.signal.0 (selection part.now.select) }
    requires fixed { IsFixed (selection part.now.select) }
    ensures state { state queue.new
        ≡ write_all (design_of fanout.now) (state queue.old)
        (write_at part.now.signal.0 (span_of (width_in fanout.now.design.now.signals.items)
        (no_drive (width_in fanout.now.design.now.signals.items)) part.now.signal.0
        (selection part.now.select)) (bits_in
        (span_of (width_in fanout.now.design.now.signals.items)
        (no_drive (width_in fanout.now.design.now.signals.items)) part.now.signal.0
        (selection part.now.select)) (resolved (design_of fanout.now)
        (state queue.old).driver part.now.signal.0))) }
    ensures queue { IsQueueState (design_of fanout.now) queue.new }
    ensures still { IsStill queue.old queue.new }
    ensures drivers { queue.new.drivers ≡ queue.old.drivers }
{
    let signals = &fanout.design.signals;
    let span = span_of(signals, &queue.values, part.signal, &part.select);
    if let Some(span) = span {
        let bits = given(fanout, queue, part.signal, span.at, span.count);
        write(fanout, queue, part.signal, span.at, bits);
    }
}
