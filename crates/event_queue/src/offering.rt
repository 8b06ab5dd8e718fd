//! Values are offered to top inputs. It takes no memory.

ghost use Rattle.std.specs.Prelude.{◌≡◌, [], ◌∷◌, map};
ghost use Rattle.event_model.specs.Queue.{offer};
ghost use Rattle.event_tables.specs.event_write.QueueState.{IsQueueState, design_of, state};
ghost use Rattle.event_take.specs.Rooms.{IsStill};
ghost use Rattle.event_queue.specs.Offers.{AreAllowed, set_of};

use event_model::setting::Setting;
use event_tables::event_write::fanout::Fanout;
use event_tables::event_write::queue_state::QueueState;

/// Offers a value to a top input.
fn offer_one(fanout: &Fanout, queue: &mut QueueState, setting: Setting)
    requires queue { IsQueueState (design_of fanout.now) queue.old }
    requires allowed { AreAllowed (design_of fanout.now) (setting ∷ []) }
    ensures state { state queue.new ≡ offer (state queue.old) (set_of setting ∷ []) }
    ensures queue { IsQueueState (design_of fanout.now) queue.new }
    ensures still { IsStill queue.old queue.new }
{
    let signal = setting.signal.0 as usize;
    queue.offered_values[signal] = setting.value;
    queue.offered.insert(signal);
}

/// Offers values to top inputs, in their order.
pub(crate) fn offer_all(fanout: &Fanout, queue: &mut QueueState, settings: &[Setting])
    requires queue { IsQueueState (design_of fanout.now) queue.old }
    requires allowed { AreAllowed (design_of fanout.now) settings.now }
    ensures state { state queue.new ≡ offer (state queue.old) (map set_of settings.now) }
    ensures queue { IsQueueState (design_of fanout.now) queue.new }
    ensures still { IsStill queue.old queue.new }
{
    for setting in settings {
        offer_one(fanout, queue, *setting);
    }
}
