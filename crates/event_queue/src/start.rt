//! Where a simulator begins.

ghost use Rattle.std.specs.Prelude.{◌≡◌, length, IfOk};
ghost use Rattle.rtl_flat.specs.Flats.{flat};
ghost use Rattle.event_queue.specs.First.{IsFirst};
ghost use Rattle.event_queue.specs.Starts.{IsStart, start_of};

use crate::first_queue::{power_up, settled};
use event_tables::event_write::queue_state::QueueState;
use rtl_bits::Vec4;
use rtl_flat::act::ProcId;
use rtl_flat::design::Design;
use std::alloc::Global;
use text_ground::memory::Memory;

/// Where a simulator begins.
#[derive(Drop)]
pub enum Start {
    /// All variables and inputs x, all nets z, and every continuous assignment to be evaluated.
    PowerUp,
    /// A value for each signal, of its width, where nothing is to be done.
    Values(Vec<Vec4>),
}

/// The queue from which a simulator begins, where a table has the drivers of each signal.
pub(crate) fn first_queue(
    alloc: Global,
    design: &Design,
    start: &Start,
    table: &[Vec<ProcId>],
    levels: Vec<Option<u32>>,
    room: usize,
) -> Result<QueueState, Memory>
    requires start { IsStart design.now start.now }
    requires table { length table.now ≡ length design.now.signals.items }
    requires levels { length levels.items ≡ length design.now.processes.items }
    ensures { IfOk result (λ queue.
        IsFirst (flat design.now) (start_of (flat design.now) start.now) levels.items room queue) }
{
    match start {
        Start::PowerUp => power_up(alloc, design, table, levels, room),
        Start::Values(values) => settled(alloc, design, values, table, levels, room),
    }
}
