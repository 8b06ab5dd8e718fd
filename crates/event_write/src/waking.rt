//! A write to a signal, and whom it wakes.

ghost use Rattle.std.specs.Prelude.{ℕ, ◌≡◌, ◌<◌, ◌≤◌, ◌+◌, ◌&&◌, ◌||◌, List, length};
ghost use Rattle.std.specs.List.{All};
ghost use Rattle.rtl_bits.specs.declared.Bit.{Bit};
ghost use Rattle.rtl_flat.specs.Signs.{width_in};
ghost use Rattle.rank_set.specs.Ranks.{flag};
ghost use Rattle.event_model.specs.Queue.{write};
ghost use Rattle.event_write.specs.Changes.{AreChanges};
ghost use Rattle.event_write.specs.Listeners.{AreBelow, heard_by, is_among};
ghost use Rattle.event_write.specs.QueueState.{AreSame, IsFanout, IsQueueState, design_of, state};

use crate::changes::Changes;
use crate::fanout::Fanout;
use crate::listener::Listener;
use crate::queue_state::QueueState;
use agenda::Agenda;
use rtl_bits::Vec4;
use rtl_flat::act::ProcId;
use rtl_flat::expr::SigId;

/// Wakes the processes that hear changes of a signal.
pub(crate) fn wake(listeners: &[Listener], changes: Changes, woken: &mut Agenda)
    requires { All (λ listener. AreBelow (length woken.old.flags) listener) listeners.now }
    ensures size { length woken.new.flags ≡ length woken.old.flags }
    ensures levels { woken.new.levels ≡ woken.old.levels }
    ensures woken { (old new : List Bit) → length old ≡ length new → AreChanges old new changes
        → (p : ℕ) → flag woken.new.flags p
        ≡ (flag woken.old.flags p || heard_by listeners.now p old new) }
{
    for listener in listeners {
        let hears = listener.hears(changes);
        insert_if(woken, &listener.processes, hears);
    }
}

/// Adds processes where they hear something.
#[tactic(auto, using(crate::proofs::Woken::all_inserted, crate::proofs::Woken::not_inserted))]
fn insert_if(woken: &mut Agenda, processes: &[ProcId], hears: bool)
    requires { All (λ process. process.0 < length woken.old.flags) processes.now }
    ensures size { length woken.new.flags ≡ length woken.old.flags }
    ensures levels { woken.new.levels ≡ woken.old.levels }
    ensures flags { (p : ℕ) → flag woken.new.flags p
        ≡ (flag woken.old.flags p || (is_among processes.now p && hears)) }
{
    if hears {
        insert_all(woken, processes);
    }
}

/// Adds processes.
fn insert_all(woken: &mut Agenda, processes: &[ProcId])
    requires { All (λ process. process.0 < length woken.old.flags) processes.now }
    ensures size { length woken.new.flags ≡ length woken.old.flags }
    ensures levels { woken.new.levels ≡ woken.old.levels }
    ensures flags { (p : ℕ) → flag woken.new.flags p
        ≡ (flag woken.old.flags p || is_among processes.now p) }
{
    for process in processes {
        woken.insert(process.0 as usize);
    }
}

/// Writes bits over those of a signal from a place on, and wakes whoever hears a change. It takes no memory.
pub fn write(fanout: &Fanout, queue: &mut QueueState, signal: SigId, at: u8, bits: Vec4)
    requires fanout { IsFanout fanout.now }
    requires queue { IsQueueState (design_of fanout.now) queue.old }
    requires there { signal.0 < length fanout.now.design.now.signals.items }
    requires inside { at + length bits ≤ width_in fanout.now.design.now.signals.items signal.0 }
    ensures state { state queue.new
        ≡ write (design_of fanout.now) (state queue.old)
        (record { signal = signal.0; at = at; bits = bits }) }
    ensures queue { IsQueueState (design_of fanout.now) queue.new }
    ensures rest { AreSame queue.old queue.new }
{
    let old = queue.values[signal.0 as usize];
    let new = old.replace(at, bits);
    queue.values[signal.0 as usize] = new;
    let listeners = &fanout.listeners[signal.0 as usize];
    wake(listeners, Changes::of(old, new), &mut queue.woken);
}
