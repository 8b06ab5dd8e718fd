//! Which event a policy takes next.

ghost use Rattle.std.specs.Prelude.{◌≡◌, IfSome};
ghost use Rattle.std.specs.Option.{option_map};
ghost use Rattle.event_model.specs.Policies.{chosen};
ghost use Rattle.event_write.specs.QueueState.{IsQueueState, design_of, state};
ghost use Rattle.event_take.specs.Lawful.{IsLawful};
ghost use Rattle.event_take.specs.Taken.{IsAble, event_of, level_in};

use crate::choice::Choice;
use crate::ends::{first, last};
use crate::levels::lowest;
use event_model::policy::Policy;
use event_write::fanout::Fanout;
use event_write::queue_state::QueueState;

/// The event that a policy takes next, or `None` where none is active. It takes no memory.
pub fn choose(policy: Policy, fanout: &Fanout, queue: &QueueState) -> Option<Choice>
    requires queue { IsQueueState (design_of fanout.now) queue.now }
    requires lawful { IsLawful (design_of fanout.now) (state queue.now) }
    ensures event { option_map event_of result
        ≡ chosen policy (level_in queue.now) (design_of fanout.now) (state queue.now) }
    ensures able { IfSome result (λ choice. IsAble (design_of fanout.now) queue.now choice) }
{
    match policy {
        Policy::Level => lowest(fanout, queue),
        Policy::Ascending => first(fanout, queue),
        Policy::Descending => last(fanout, queue),
    }
}
