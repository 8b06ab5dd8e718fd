//! An active event is taken, and nonblocking updates become active where nothing else is left. It takes no memory.

ghost use Rattle.std.specs.Prelude.{◌≡◌, ◌≤◌, ◌+◌, length, vec_capacity};
ghost use Rattle.event_model.specs.Queue.{after};
ghost use Rattle.event_model.specs.Order.{active, ready};
ghost use Rattle.event_tables.specs.event_write.QueueState.{IsFanout, IsQueueState, design_of, state};
ghost use Rattle.event_take.specs.Lawful.{IsLawful};
ghost use Rattle.event_take.specs.Taken.{IsAble, event_of};
ghost use Rattle.event_queue.specs.Rooms.{IsMadeReady, IsTaken, free, is_nil, room_for};

use event_model::policy::Policy;
use event_tables::event_write::fanout::Fanout;
use event_tables::event_write::queue_state::QueueState;
use event_take::choice::Choice;
use event_take::events::{activate, evaluate_driver, make_update, run_body, take_input};
use event_take::policies::choose;
use event_take::updates::update_driver;

/// Takes an event.
pub(crate) fn take_event(fanout: &Fanout, queue: &mut QueueState, choice: Choice)
    requires fanout { IsFanout fanout.now }
    requires queue { IsQueueState (design_of fanout.now) queue.old }
    requires able { IsAble (design_of fanout.now) queue.old choice }
    requires scratch { 128 ≤ vec_capacity queue.old.scratch }
    requires room { length queue.old.waiting.items + room_for (design_of fanout.now)
        (event_of choice) ≤ vec_capacity queue.old.waiting }
    ensures state { state queue.new
        ≡ after (design_of fanout.now) (state queue.old) (event_of choice) }
    ensures queue { IsQueueState (design_of fanout.now) queue.new }
    ensures taken { IsTaken (room_for (design_of fanout.now) (event_of choice))
        (free (event_of choice)) queue.old queue.new }
{
    match choice {
        Choice::Input(signal) => take_input(fanout, queue, signal),
        Choice::Evaluate(process) => evaluate_driver(fanout, queue, process),
        Choice::Update(process) => update_driver(fanout, queue, process),
        Choice::Run(process) => run_body(fanout, queue, process),
        Choice::Delayed => make_update(fanout, queue),
    }
}

/// Whether no event is active.
fn is_idle(fanout: &Fanout, queue: &QueueState) -> bool
    requires queue { IsQueueState (design_of fanout.now) queue.now }
    requires lawful { IsLawful (design_of fanout.now) (state queue.now) }
    ensures { result ≡ is_nil (active (design_of fanout.now) (state queue.now)) }
{
    choose(Policy::Ascending, fanout, queue).is_none()
}

/// Nonblocking updates become active where nothing else is left.
pub(crate) fn make_ready(fanout: &Fanout, queue: &mut QueueState)
    requires queue { IsQueueState (design_of fanout.now) queue.old }
    requires lawful { IsLawful (design_of fanout.now) (state queue.old) }
    ensures state { state queue.new ≡ ready (design_of fanout.now) (state queue.old) }
    ensures queue { IsQueueState (design_of fanout.now) queue.new }
    ensures made { IsMadeReady queue.old queue.new }
{
    if is_idle(fanout, queue) {
        activate(fanout, queue);
    }
}
