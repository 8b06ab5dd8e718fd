//! The tallies from which a simulator begins.

ghost use Rattle.std.specs.Prelude.{ℕ, ◌≡◌, ◌<◌, ◌≤◌, Some, length, replicate, IfOk};
ghost use Rattle.event_model.specs.Queue.{doing_at};
ghost use Rattle.rtl_flat.specs.Flats.{flat, widths};
ghost use Rattle.event_tables.specs.event_tally.Tallies.{IsTalliedAt};
ghost use Rattle.event_take.specs.Tallied.{AreMoved, AreTalliedWith};
ghost use Rattle.event_tables.specs.event_write.QueueState.{HasWidth, driver_of};
ghost use Rattle.event_tables.specs.event_write.Stored.{AreStored};
ghost use Rattle.event_queue.specs.First.{AreDriven, driver_in};
ghost use Rattle.event_queue.specs.Tallying.{AreReady, AreTallies};

use event_tables::event_tally::tally::Tally;
use event_tables::event_write::stores::width_of;
use event_take::tallies::retally;
use rtl_bits::{Bit, Vec4};
use rtl_flat::act::ProcId;
use rtl_flat::design::Design;
use rtl_flat::expr::SigId;
use std::alloc::Global;
use text_ground::memory::Memory;

/// A tally for each bit of a signal of so many bits, if it has several drivers. All of them are at z.
fn first_row(alloc: Global, width: u8, drivers: usize) -> Result<Vec<Tally>, Memory>
    ensures size { IfOk result (λ row. length row.items ≤ width) }
    ensures none { IfOk result (λ row. (k n : ℕ) → IsTalliedAt row.items k (replicate n Bit.Z)) }
{
    if drivers < 2 {
        return Ok(Vec::new(alloc));
    }
    let mut row = Vec::with_capacity(alloc, width as usize)?;
    for _ in 0..width {
        row.push(Tally::none())?;
    }
    Ok(row)
}

/// The tallies of each signal where a table has its drivers, which are all at z.
fn first_rows(
    alloc: Global,
    design: &Design,
    table: &[Vec<ProcId>],
) -> Result<Vec<Vec<Tally>>, Memory>
    requires { length table.now ≡ length design.now.signals.items }
    ensures { IfOk result (λ rows. AreReady design.now.signals.items rows.items) }
{
    let mut rows = Vec::with_capacity(alloc, design.signals.len())?;
    for number in 0..design.signals.len() {
        let width = width_of(&design.signals, SigId(number as u32));
        let row = first_row(alloc, width, table[number].len())?;
        rows.push(row)?;
    }
    Ok(rows)
}

/// Lets tallies count what a process drives, which they have at z.
fn tally_first(
    design: &Design,
    values: &[Vec4],
    tallies: &mut Vec<Vec<Tally>>,
    process: ProcId,
    driver: Option<Vec4>,
)
    requires there { process.0 < length design.now.processes.items }
    requires stored { AreStored design.now.signals.items values.now }
    requires count { length tallies.old.items ≡ length design.now.signals.items }
    requires width { HasWidth (widths (flat design.now)) (doing_at (flat design.now) process.0)
        (length (driver_of (Some driver))) }
    requires tallied { AreTalliedWith (flat design.now) process.0
        (replicate (length (driver_of (Some driver))) Bit.Z) tallies.old.items }
    ensures size { length tallies.new.items ≡ length tallies.old.items }
    ensures tallied { AreMoved (flat design.now) process.0
        (replicate (length (driver_of (Some driver))) Bit.Z)
        (driver_of (Some driver)) tallies.old.items tallies.new.items }
{
    match driver {
        Some(bits) => {
            let none = Vec4::filled(bits.width(), Bit::Z);
            retally(design, values, tallies, process, Some(none), bits);
        }
        None => {}
    }
}

/// The tallies of each signal where a table has its drivers.
pub(crate) fn first_tallies(
    alloc: Global,
    design: &Design,
    values: &[Vec4],
    table: &[Vec<ProcId>],
    drivers: &[Option<Vec4>],
) -> Result<Vec<Vec<Tally>>, Memory>
    requires table { length table.now ≡ length design.now.signals.items }
    requires stored { AreStored design.now.signals.items values.now }
    requires driven { AreDriven (flat design.now) drivers.now }
    ensures { IfOk result (λ tallies.
        AreTallies (flat design.now) (driver_in drivers.now) tallies.items) }
{
    let mut tallies = first_rows(alloc, design, table)?;
    for number in 0..design.processes.len() {
        let process = ProcId(number as u32);
        tally_first(design, values, &mut tallies, process, drivers[number]);
    }
    Ok(tallies)
}
