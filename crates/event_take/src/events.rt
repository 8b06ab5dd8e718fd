//! The events of the queue, each taken by itself. None takes memory.

ghost use Rattle.std.specs.Prelude.{◌≡◌, ◌<◌, ◌≤◌, ◌+◌, [], ◌∷◌, ◌++◌, true, length, map, vec_capacity};
ghost use Rattle.rtl_flat.specs.Process.{action, body_of};
ghost use Rattle.rtl_flat.specs.Signs.{width_in};
ghost use Rattle.rtl_flat.specs.Value.{store};
ghost use Rattle.rtl_flat.specs.WellFormed.{IsBody};
ghost use Rattle.rank_set.specs.Ranks.{flag};
ghost use Rattle.event_model.specs.Bodies.{body_made};
ghost use Rattle.event_model.specs.Queue.{Activate, Delayed, Evaluate, Input, Run, after, doing_at, perform_all, wait};
ghost use Rattle.event_write.specs.QueueState.{IsFanout, IsQueueState, design_of, state};
ghost use Rattle.event_write.specs.Rooms.{IsKept, rooms};
ghost use Rattle.event_take.specs.Rooms.{IsStill, room_of};

use event_write::bodies::write_entry;
use event_write::fanout::Fanout;
use event_write::queue_state::QueueState;
use event_write::statements::make_all;
use event_write::stores::evaluate;
use event_write::waking::write;
use rtl_bits::Vec4;
use rtl_flat::act::{Act, Does, ProcId};
use rtl_flat::expr::SigId;
use std::mem;

/// A top input takes the value that is offered to it.
pub fn take_input(fanout: &Fanout, queue: &mut QueueState, signal: SigId)
    requires fanout { IsFanout fanout.now }
    requires queue { IsQueueState (design_of fanout.now) queue.old }
    requires offered { flag queue.old.offered signal.0 ≡ true }
    ensures state { state queue.new
        ≡ after (design_of fanout.now) (state queue.old) (Input signal.0) }
    ensures queue { IsQueueState (design_of fanout.now) queue.new }
    ensures still { IsStill queue.old queue.new }
{
    let bits = queue.offered_values[signal.0 as usize];
    queue.offered.remove(signal.0 as usize);
    write(fanout, queue, signal, 0, bits);
}

/// A continuous assignment evaluates its expression.
pub fn evaluate_driver(fanout: &Fanout, queue: &mut QueueState, process: ProcId)
    requires fanout { IsFanout fanout.now }
    requires queue { IsQueueState (design_of fanout.now) queue.old }
    requires there { process.0 < length fanout.now.design.now.processes.items }
    ensures state { state queue.new
        ≡ after (design_of fanout.now) (state queue.old) (Evaluate process.0) }
    ensures queue { IsQueueState (design_of fanout.now) queue.new }
    ensures still { IsStill queue.old queue.new }
{
    match &fanout.design.processes[process.0 as usize].does {
        Does::Assign { target: _, value } => {
            let bits = evaluate(&fanout.design.signals, &queue.values, value);
            queue.pending_values[process.0 as usize] = bits;
            queue.pending.insert(process.0 as usize);
            queue.woken.remove(process.0 as usize);
        }
        Does::Comb { list: _, body: _ } => {}
        Does::Edge { events: _, body: _ } => {}
    }
}

/// The body of an `always` runs.
pub fn run_body(fanout: &Fanout, queue: &mut QueueState, process: ProcId)
    requires fanout { IsFanout fanout.now }
    requires queue { IsQueueState (design_of fanout.now) queue.old }
    requires there { process.0 < length fanout.now.design.now.processes.items }
    requires scratch { 128 ≤ vec_capacity queue.old.scratch }
    requires room { length queue.old.waiting.items + room_of
        (doing_at (design_of fanout.now) process.0) ≤ vec_capacity queue.old.waiting }
    ensures state { state queue.new
        ≡ after (design_of fanout.now) (state queue.old) (Run process.0) }
    ensures queue { IsQueueState (design_of fanout.now) queue.new }
    ensures kept { IsKept (room_of (doing_at (design_of fanout.now) process.0)) queue.old
        queue.new }
{
    match &fanout.design.processes[process.0 as usize].does {
        Does::Assign {
            target: _,
            value: _,
        } => {}
        Does::Comb { list: _, body } => run_statements(fanout, queue, process, body),
        Does::Edge { events: _, body } => run_statements(fanout, queue, process, body),
    }
}

/// Statements run, and their process waits again.
fn run_statements(fanout: &Fanout, queue: &mut QueueState, process: ProcId, body: &[Act])
    requires fanout { IsFanout fanout.now }
    requires queue { IsQueueState (design_of fanout.now) queue.old }
    requires there { process.0 < length fanout.now.design.now.processes.items }
    requires body { IsBody fanout.now.design.now.signals.items (body_of (map action body.now)) }
    requires scratch { 128 ≤ vec_capacity queue.old.scratch }
    requires room { length queue.old.waiting.items + rooms (body_of (map action body.now))
        ≤ vec_capacity queue.old.waiting }
    ensures state { state queue.new
        ≡ wait (perform_all (design_of fanout.now) (state queue.old)
        (body_made (width_in fanout.now.design.now.signals.items) (store queue.old.values.items)
        (body_of (map action body.now)))) process.0 }
    ensures queue { IsQueueState (design_of fanout.now) queue.new }
    ensures kept { IsKept (rooms (body_of (map action body.now))) queue.old queue.new }
{
    make_all(fanout, queue, body);
    queue.woken.remove(process.0 as usize);
}

/// The first of the activated nonblocking updates is made.
pub fn make_update(fanout: &Fanout, queue: &mut QueueState)
    requires fanout { IsFanout fanout.now }
    requires queue { IsQueueState (design_of fanout.now) queue.old }
    ensures state { state queue.new ≡ after (design_of fanout.now) (state queue.old) Delayed }
    ensures queue { IsQueueState (design_of fanout.now) queue.new }
    ensures waiting { queue.new.waiting ≡ queue.old.waiting }
    ensures scratch { queue.new.scratch ≡ queue.old.scratch }
    ensures active { queue.new.active ≡ queue.old.active }
    ensures levels { queue.new.woken.levels ≡ queue.old.woken.levels }
{
    let first = queue.next;
    let end = queue.active.len();
    for number in first..end {
        let prepared = queue.active[number];
        let is_last = prepared.is_last;
        queue.next = number + 1;
        write_entry(fanout, queue, prepared);
        if is_last {
            return;
        }
    }
}

/// All nonblocking updates become active.
pub fn activate(fanout: &Fanout, queue: &mut QueueState)
    requires queue { IsQueueState (design_of fanout.now) queue.old }
    ensures state { state queue.new ≡ after (design_of fanout.now) (state queue.old) Activate }
    ensures queue { IsQueueState (design_of fanout.now) queue.new }
    ensures active { vec_capacity queue.new.active ≡ vec_capacity queue.old.waiting }
    ensures waiting { vec_capacity queue.old.active ≤ vec_capacity queue.new.waiting }
    ensures scratch { queue.new.scratch ≡ queue.old.scratch }
    ensures levels { queue.new.woken.levels ≡ queue.old.woken.levels }
{
    mem::swap(&mut queue.active, &mut queue.waiting);
    queue.waiting.clear();
    queue.next = 0;
}
