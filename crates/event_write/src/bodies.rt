//! Bodies of `always`, statement by statement.

ghost use Rattle.std.specs.Prelude.{◌≡◌, ◌≤◌, ◌+◌, length, map, vec_capacity};
ghost use Rattle.rtl_flat.specs.Process.{piece};
ghost use Rattle.rtl_flat.specs.Signs.{width_in};
ghost use Rattle.rtl_flat.specs.Value.{store};
ghost use Rattle.event_model.specs.Bodies.{Later};
ghost use Rattle.event_model.specs.Queue.{perform, write_all};
ghost use Rattle.event_model.specs.Writes.{counts, writes};
ghost use Rattle.event_write.specs.Entries.{AreSelected, all_writes, entry, writes_of};
ghost use Rattle.event_write.specs.QueueState.{AreInside, IsFanout, IsInside, IsQueueState, design_of, state};

use crate::entries::{Entry, prepare};
use crate::fanout::Fanout;
use crate::queue_state::QueueState;
use crate::waking::write;
use rtl_bits::Vec4;
use rtl_flat::act::TargetPart;

/// Makes a prepared write, if its index selects a bit.
pub fn write_entry(fanout: &Fanout, queue: &mut QueueState, prepared: Entry)
    requires fanout { IsFanout fanout.now }
    requires queue { IsQueueState (design_of fanout.now) queue.old }
    requires inside { IsInside fanout.now.design.now.signals.items (entry prepared).signal
        (entry prepared).span (entry prepared).bits }
    ensures state { state queue.new
        ≡ write_all (design_of fanout.now) (state queue.old) (writes_of (entry prepared)) }
    ensures queue { IsQueueState (design_of fanout.now) queue.new }
    ensures waiting { queue.new.waiting ≡ queue.old.waiting }
    ensures scratch { queue.new.scratch ≡ queue.old.scratch }
    ensures levels { queue.new.woken.levels ≡ queue.old.woken.levels }
    ensures active { queue.new.active ≡ queue.old.active }
    ensures next { queue.new.next ≡ queue.old.next }
{
    if let Some(span) = prepared.span {
        write(fanout, queue, prepared.signal, span.at, prepared.bits);
    }
}

/// Makes the prepared writes of a blocking assignment, in their order.
fn write_prepared(fanout: &Fanout, queue: &mut QueueState)
    requires fanout { IsFanout fanout.now }
    requires queue { IsQueueState (design_of fanout.now) queue.old }
    requires inside { AreInside fanout.now.design.now.signals.items
        (map entry queue.old.scratch.items) }
    ensures state { state queue.new
        ≡ write_all (design_of fanout.now) (state queue.old)
        (all_writes (map entry queue.old.scratch.items)) }
    ensures queue { IsQueueState (design_of fanout.now) queue.new }
    ensures waiting { queue.new.waiting ≡ queue.old.waiting }
    ensures scratch { queue.new.scratch ≡ queue.old.scratch }
    ensures levels { queue.new.woken.levels ≡ queue.old.woken.levels }
    ensures active { queue.new.active ≡ queue.old.active }
    ensures next { queue.new.next ≡ queue.old.next }
{
    for number in 0..queue.scratch.len() {
        let prepared = queue.scratch[number];
        write_entry(fanout, queue, prepared);
    }
}

/// A blocking assignment, which writes at once. It takes no memory.
pub fn write_now(fanout: &Fanout, queue: &mut QueueState, parts: &[TargetPart], bits: Vec4)
    requires fanout { IsFanout fanout.now }
    requires queue { IsQueueState (design_of fanout.now) queue.old }
    requires selected { AreSelected fanout.now.design.now.signals.items (map piece parts.now) }
    requires covered { counts (width_in fanout.now.design.now.signals.items) (map piece parts.now)
        ≤ length bits }
    requires room { length parts.now ≤ vec_capacity queue.old.scratch }
    ensures state { state queue.new
        ≡ write_all (design_of fanout.now) (state queue.old)
        (writes (width_in fanout.now.design.now.signals.items) (store queue.old.values.items)
        (map piece parts.now) bits) }
    ensures queue { IsQueueState (design_of fanout.now) queue.new }
    ensures waiting { queue.new.waiting ≡ queue.old.waiting }
    ensures scratch { vec_capacity queue.old.scratch ≤ vec_capacity queue.new.scratch }
    ensures levels { queue.new.woken.levels ≡ queue.old.woken.levels }
    ensures active { queue.new.active ≡ queue.old.active }
    ensures next { queue.new.next ≡ queue.old.next }
{
    queue.scratch.clear();
    prepare(
        &fanout.design.signals,
        &queue.values,
        parts,
        bits,
        &mut queue.scratch,
    );
    write_prepared(fanout, queue);
}

/// A nonblocking assignment, which makes an update for later. It takes no memory.
pub fn write_later(fanout: &Fanout, queue: &mut QueueState, parts: &[TargetPart], bits: Vec4)
    requires queue { IsQueueState (design_of fanout.now) queue.old }
    requires some { 1 ≤ length parts.now }
    requires selected { AreSelected fanout.now.design.now.signals.items (map piece parts.now) }
    requires covered { counts (width_in fanout.now.design.now.signals.items) (map piece parts.now)
        ≤ length bits }
    requires room { length queue.old.waiting.items + length parts.now
        ≤ vec_capacity queue.old.waiting }
    ensures state { state queue.new
        ≡ perform (design_of fanout.now) (state queue.old)
        (Later (writes (width_in fanout.now.design.now.signals.items)
        (store queue.old.values.items) (map piece parts.now) bits)) }
    ensures queue { IsQueueState (design_of fanout.now) queue.new }
    ensures waiting { length queue.new.waiting.items
        ≡ length queue.old.waiting.items + length parts.now }
    ensures room { vec_capacity queue.old.waiting ≤ vec_capacity queue.new.waiting }
    ensures scratch { queue.new.scratch ≡ queue.old.scratch }
    ensures levels { queue.new.woken.levels ≡ queue.old.woken.levels }
    ensures active { queue.new.active ≡ queue.old.active }
    ensures next { queue.new.next ≡ queue.old.next }
{
    prepare(
        &fanout.design.signals,
        &queue.values,
        parts,
        bits,
        &mut queue.waiting,
    );
}
