//! The active events by their place. To find them takes no memory.

ghost use Rattle.std.specs.Prelude.{◌≡◌, ◌<◌, length, Some};
ghost use Rattle.std.specs.List.{slice_get};
ghost use Rattle.event_model.specs.Order.{active};
ghost use Rattle.event_write.specs.QueueState.{IsQueueState, design_of, state};
ghost use Rattle.event_take.specs.Lawful.{IsLawful};
ghost use Rattle.event_take.specs.Taken.{IsAble, event_of};

use crate::choice::{Choice, has_delayed, woken_choice};
use event_write::fanout::Fanout;
use event_write::queue_state::QueueState;
use rtl_flat::act::ProcId;
use rtl_flat::expr::SigId;

/// How many events are active.
pub fn count(fanout: &Fanout, queue: &QueueState) -> usize
    requires queue { IsQueueState (design_of fanout.now) queue.now }
    requires lawful { IsLawful (design_of fanout.now) (state queue.now) }
    ensures { result ≡ length (active (design_of fanout.now) (state queue.now)) }
{
    let inputs = queue.offered.count();
    let updates = queue.pending.count();
    let woken = queue.woken.count();
    let others = inputs + updates + woken;
    if has_delayed(queue) {
        return others + 1;
    }
    others
}

/// The active event before which so many are.
pub fn nth(fanout: &Fanout, queue: &QueueState, place: usize) -> Choice
    requires queue { IsQueueState (design_of fanout.now) queue.now }
    requires lawful { IsLawful (design_of fanout.now) (state queue.now) }
    requires there { place < length (active (design_of fanout.now) (state queue.now)) }
    ensures event { slice_get (active (design_of fanout.now) (state queue.now)) place
        ≡ Some (event_of result) }
    ensures able { IsAble (design_of fanout.now) queue.now result }
{
    let inputs = queue.offered.count();
    if place < inputs {
        let signal = queue.offered.nth(place);
        return Choice::Input(SigId(signal as u32));
    }
    let behind = place - inputs;
    let updates = queue.pending.count();
    if behind < updates {
        let assignment = queue.pending.nth(behind);
        return Choice::Update(ProcId(assignment as u32));
    }
    let rest = behind - updates;
    let woken = queue.woken.count();
    if rest < woken {
        let process = queue.woken.nth(rest);
        return woken_choice(fanout, ProcId(process as u32));
    }
    Choice::Delayed
}
