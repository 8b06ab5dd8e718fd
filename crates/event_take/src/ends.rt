//! The first and the last of the active events. To find them takes no memory.

ghost use Rattle.std.specs.Prelude.{◌≡◌, IfSome};
ghost use Rattle.std.specs.Option.{option_map};
ghost use Rattle.event_model.specs.Order.{active};
ghost use Rattle.event_model.specs.Policies.{first_of, last_of};
ghost use Rattle.event_write.specs.QueueState.{IsQueueState, design_of, state};
ghost use Rattle.event_take.specs.Lawful.{IsLawful};
ghost use Rattle.event_take.specs.Taken.{IsAble, event_of};

use crate::choice::{Choice, has_delayed, woken_choice};
use event_write::fanout::Fanout;
use event_write::queue_state::QueueState;
use rtl_flat::act::ProcId;
use rtl_flat::expr::SigId;

/// The first of the active events.
pub(crate) fn first(fanout: &Fanout, queue: &QueueState) -> Option<Choice>
    requires queue { IsQueueState (design_of fanout.now) queue.now }
    requires lawful { IsLawful (design_of fanout.now) (state queue.now) }
    ensures event { option_map event_of result
        ≡ first_of (active (design_of fanout.now) (state queue.now)) }
    ensures able { IfSome result (λ choice. IsAble (design_of fanout.now) queue.now choice) }
{
    if let Some(signal) = queue.offered.least() {
        return Some(Choice::Input(SigId(signal as u32)));
    }
    if let Some(process) = queue.pending.least() {
        return Some(Choice::Update(ProcId(process as u32)));
    }
    if let Some(process) = queue.woken.least() {
        return Some(woken_choice(fanout, ProcId(process as u32)));
    }
    if has_delayed(queue) {
        return Some(Choice::Delayed);
    }
    None
}

/// The last of the active events.
pub(crate) fn last(fanout: &Fanout, queue: &QueueState) -> Option<Choice>
    requires queue { IsQueueState (design_of fanout.now) queue.now }
    requires lawful { IsLawful (design_of fanout.now) (state queue.now) }
    ensures event { option_map event_of result
        ≡ last_of (active (design_of fanout.now) (state queue.now)) }
    ensures able { IfSome result (λ choice. IsAble (design_of fanout.now) queue.now choice) }
{
    if has_delayed(queue) {
        return Some(Choice::Delayed);
    }
    if let Some(process) = queue.woken.greatest() {
        return Some(woken_choice(fanout, ProcId(process as u32)));
    }
    if let Some(process) = queue.pending.greatest() {
        return Some(Choice::Update(ProcId(process as u32)));
    }
    let signal = queue.offered.greatest()?;
    Some(Choice::Input(SigId(signal as u32)))
}
