//! An active event, as the simulator keeps it.

ghost use Rattle.std.specs.Prelude.{◌≡◌, ◌<◌, [], ◌∷◌, cond, length, IsTrue};
ghost use Rattle.event_model.specs.Queue.{Delayed};
ghost use Rattle.event_model.specs.Order.{first_delayed, woken_event};
ghost use Rattle.event_write.specs.declared.queue_state.QueueState.{QueueState};
ghost use Rattle.event_write.specs.QueueState.{design_of, state};
ghost use Rattle.event_take.specs.Taken.{IsAble, event_of};

use event_write::fanout::Fanout;
use event_write::queue_state::QueueState;
use rtl_flat::act::{Does, ProcId};
use rtl_flat::expr::SigId;

/// An active event: a top input takes the value that is offered to it, a continuous assignment is evaluated, its driver
/// is updated, a body runs, or the first of the activated nonblocking updates is made.
#[derive(Clone, Copy, PartialEq, Eq, Debug)]
pub enum Choice {
    Input(SigId),
    Evaluate(ProcId),
    Update(ProcId),
    Run(ProcId),
    Delayed,
}

/// What a woken process does.
pub(crate) fn woken_choice(fanout: &Fanout, process: ProcId) -> Choice
    requires { process.0 < length fanout.now.design.now.processes.items }
    ensures event { event_of result ≡ woken_event (design_of fanout.now) process.0 }
    ensures able { (m : QueueState) → IsAble (design_of fanout.now) m result }
{
    match &fanout.design.processes[process.0 as usize].does {
        Does::Assign {
            target: _,
            value: _,
        } => Choice::Evaluate(process),
        Does::Comb { list: _, body: _ } => Choice::Run(process),
        Does::Edge { events: _, body: _ } => Choice::Run(process),
    }
}

/// Whether an activated update is left.
pub(crate) fn has_delayed(queue: &QueueState) -> bool
    ensures event { first_delayed (state queue.now).activated ≡ cond result (Delayed ∷ []) [] }
    ensures able { IsTrue result → queue.now.next < length queue.now.active.items }
{
    queue.next < queue.active.len()
}
