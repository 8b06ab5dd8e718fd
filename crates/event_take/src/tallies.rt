//! The tallies of the nets that a driver drives. They take no memory once they are there.

ghost use Rattle.std.specs.Prelude.{ℕ, ◌≡◌, ◌≢◌, ◌<◌, ◌≤◌, ◌+◌, ◌∷◌, List, drop, length, map, slice_index_or};
ghost use Rattle.std.specs.List.{All};
ghost use Rattle.rtl_bits.specs.declared.Bit.{Bit};
ghost use Rattle.rtl_bits.specs.Bits.{selected};
ghost use Rattle.rtl_flat.specs.Process.{piece};
ghost use Rattle.rtl_flat.specs.Signs.{width_in};
ghost use Rattle.rtl_flat.specs.WellFormed.{IsFixed};
ghost use Rattle.event_model.specs.Queue.{doing_at, resolved};
ghost use Rattle.rtl_flat.specs.Flats.{flat, widths};
ghost use Rattle.event_model.specs.Writes.{counts, driven};
ghost use Rattle.event_write.specs.event_tally.Tallies.{IsTalliedAt, IsTalliedWith};
ghost use Rattle.event_write.specs.event_tally.Targets.{names};
ghost use Rattle.event_write.specs.Entries.{AreSelected};
ghost use Rattle.event_write.specs.QueueState.{HasWidth, IsFanout, IsQueueState, design_of, driver_of, row, state};
ghost use Rattle.event_write.specs.Stored.{AreStored};
ghost use Rattle.event_take.specs.Tallied.{AreMoved, AreTalliedWith, IsTarget};

use crate::drives::{driven, is_same, resolve};
use event_write::event_tally::rows::{bits_of, move_row};
use event_write::event_tally::tally::Tally;
use event_write::fanout::Fanout;
use event_write::queue_state::QueueState;
use rtl_bits::{Bit, Vec4};
use rtl_flat::act::{Does, ProcId, TargetPart};
use rtl_flat::design::Design;
use rtl_flat::expr::SigId;

/// What the drivers of a net give together to so many of its bits from a place on.
pub fn given(fanout: &Fanout, queue: &QueueState, net: SigId, at: u8, count: u8) -> Vec4
    requires fanout { IsFanout fanout.now }
    requires queue { IsQueueState (design_of fanout.now) queue.now }
    requires there { net.0 < length fanout.now.design.now.signals.items }
    requires some { 1 ≤ count }
    requires inside { at + count ≤ width_in fanout.now.design.now.signals.items net.0 }
    ensures bits { result ≡ selected at count
        (resolved (design_of fanout.now) (state queue.now).driver net.0) }
    ensures width { length result ≡ count }
{
    let row = &queue.tallies[net.0 as usize];
    if row.len() < at as usize + count as usize {
        return resolve(fanout, queue, net).select(at, count);
    }
    bits_of(row, at, count)
}

/// Lets tallies follow the driver of a process from old bits to new ones.
pub fn retally(
    design: &Design,
    values: &[Vec4],
    tallies: &mut Vec<Vec<Tally>>,
    process: ProcId,
    old: Option<Vec4>,
    new: Vec4,
)
    requires there { process.0 < length design.now.processes.items }
    requires stored { AreStored design.now.signals.items values.now }
    requires count { length tallies.old.items ≡ length design.now.signals.items }
    requires old_width { HasWidth (widths (flat design.now)) (doing_at (flat design.now) process.0)
        (length (driver_of (Some old))) }
    requires new_width { HasWidth (widths (flat design.now)) (doing_at (flat design.now) process.0)
        (length new) }
    requires tallied { AreTalliedWith (flat design.now) process.0
        (driver_of (Some old)) tallies.old.items }
    ensures size { length tallies.new.items ≡ length tallies.old.items }
    ensures tallied { AreMoved (flat design.now) process.0
        (driver_of (Some old)) new tallies.old.items tallies.new.items }
{
    match &design.processes[process.0 as usize].does {
        Does::Assign { target, value: _ } => {
            let Some(old) = old else {
                return;
            };
            move_parts(design, values, tallies, process, &target.parts, old, new);
        }
        Does::Comb { list: _, body: _ } => {}
        Does::Edge { events: _, body: _ } => {}
    }
}

/// Lets the tallies of the nets of a target follow its driver.
fn move_parts(
    design: &Design,
    values: &[Vec4],
    tallies: &mut Vec<Vec<Tally>>,
    process: ProcId,
    parts: &[TargetPart],
    old: Vec4,
    new: Vec4,
)
    requires target { IsTarget (flat design.now) process.0 (map piece parts.now) }
    requires stored { AreStored design.now.signals.items values.now }
    requires count { length tallies.old.items ≡ length design.now.signals.items }
    requires old_covered { counts (width_in design.now.signals.items) (map piece parts.now)
        ≤ length old }
    requires new_covered { counts (width_in design.now.signals.items) (map piece parts.now)
        ≤ length new }
    requires tallied { AreTalliedWith (flat design.now) process.0 old tallies.old.items }
    ensures size { length tallies.new.items ≡ length tallies.old.items }
    ensures tallied { AreMoved (flat design.now) process.0 old new tallies.old.items
        tallies.new.items }
{
    for at in 0..parts.len() {
        let net = parts[at].signal;
        let again = is_named(parts, at + 1, net);
        if again {
            continue;
        }
        move_net(design, values, tallies, parts, net, old, new);
    }
}

/// Whether one of the parts from a place on is of a signal.
fn is_named(parts: &[TargetPart], from: usize, signal: SigId) -> bool
    ensures { result ≡ names (map piece (drop from parts.now)) signal.0 }
{
    for at in from..parts.len() {
        if is_same(signal, parts[at].signal) {
            return true;
        }
    }
    false
}

/// Lets the tallies of one net follow the driver of a target.
fn move_net(
    design: &Design,
    values: &[Vec4],
    tallies: &mut Vec<Vec<Tally>>,
    parts: &[TargetPart],
    net: SigId,
    old: Vec4,
    new: Vec4,
)
    requires there { net.0 < length design.now.signals.items }
    requires stored { AreStored design.now.signals.items values.now }
    requires count { length tallies.old.items ≡ length design.now.signals.items }
    requires selected { AreSelected design.now.signals.items (map piece parts.now) }
    requires fixed { All (λ piece. IsFixed piece.selection) (map piece parts.now) }
    requires old_covered { counts (width_in design.now.signals.items) (map piece parts.now)
        ≤ length old }
    requires new_covered { counts (width_in design.now.signals.items) (map piece parts.now)
        ≤ length new }
    requires inside { length (row tallies.old.items net.0)
        ≤ width_in design.now.signals.items net.0 }
    requires tallied { (k : ℕ) → k < length (row tallies.old.items net.0)
        → IsTalliedWith (row tallies.old.items net.0) k
        (slice_index_or (driven (width_in design.now.signals.items)
        (map piece parts.now) old net.0) k Bit.Z) }
    ensures size { length tallies.new.items ≡ length tallies.old.items }
    ensures others { (i : ℕ) → i ≢ net.0 → row tallies.new.items i ≡ row tallies.old.items i }
    ensures width { length (row tallies.new.items net.0) ≡ length (row tallies.old.items net.0) }
    ensures tallied { (k : ℕ) (others : List Bit) → k < length (row tallies.new.items net.0)
        → IsTalliedAt (row tallies.old.items net.0) k
        (slice_index_or (driven (width_in design.now.signals.items)
        (map piece parts.now) old net.0) k Bit.Z ∷ others)
        → IsTalliedAt (row tallies.new.items net.0) k
        (slice_index_or (driven (width_in design.now.signals.items)
        (map piece parts.now) new net.0) k Bit.Z ∷ others) }
{
    let is_empty = tallies[net.0 as usize].is_empty();
    if is_empty {
        return;
    }
    let before = driven(&design.signals, values, parts, old, net);
    let after = driven(&design.signals, values, parts, new, net);
    move_row(&mut tallies[net.0 as usize], before, after);
}
