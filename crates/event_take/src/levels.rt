//! The event that comes first by levels. To find it takes no memory.

ghost use Rattle.std.specs.Prelude.{◌≡◌, IfSome};
ghost use Rattle.std.specs.Option.{option_map};
ghost use Rattle.event_model.specs.Policies.{by_level, first_of};
ghost use Rattle.event_write.specs.QueueState.{IsQueueState, design_of, state};
ghost use Rattle.event_take.specs.Lawful.{IsLawful};
ghost use Rattle.event_take.specs.Taken.{IsAble, event_of, level_in};

use crate::choice::{Choice, has_delayed, woken_choice};
use event_write::fanout::Fanout;
use event_write::queue_state::QueueState;
use rtl_flat::act::ProcId;
use rtl_flat::expr::SigId;

/// The first update, or else the woken process of least level.
pub(crate) fn lowest(fanout: &Fanout, queue: &QueueState) -> Option<Choice>
    requires queue { IsQueueState (design_of fanout.now) queue.now }
    requires lawful { IsLawful (design_of fanout.now) (state queue.now) }
    ensures event { option_map event_of result
        ≡ first_of (by_level (level_in queue.now) (design_of fanout.now) (state queue.now)) }
    ensures able { IfSome result (λ choice. IsAble (design_of fanout.now) queue.now choice) }
{
    if let Some(signal) = queue.offered.least() {
        return Some(Choice::Input(SigId(signal as u32)));
    }
    if let Some(process) = queue.pending.least() {
        return Some(Choice::Update(ProcId(process as u32)));
    }
    if has_delayed(queue) {
        return Some(Choice::Delayed);
    }
    let process = queue.woken.lowest()?;
    Some(woken_choice(fanout, ProcId(process as u32)))
}
