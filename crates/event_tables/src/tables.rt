//! The tables of a design.

ghost use Rattle.std.specs.Prelude.{◌≡◌, IfOk};
ghost use Rattle.event_write.specs.QueueState.{IsFanout};

use crate::drivers::drivers_of;
use crate::listeners::listeners_of;
use event_write::fanout::Fanout;
use rtl_flat::design::Design;
use std::alloc::Global;
use text_ground::memory::Memory;

/// Who hears changes of each signal of a design, and who drives it.
pub fn fanout_of(alloc: Global, design: &Design) -> Result<Fanout<'_>, Memory>
    ensures tables { IfOk result (λ made. IsFanout made) }
    ensures design { IfOk result (λ made. made.design.now ≡ design.now) }
{
    let listeners = listeners_of(alloc, design)?;
    let drivers = drivers_of(alloc, design)?;
    Ok(Fanout {
        design,
        listeners,
        drivers,
    })
}
