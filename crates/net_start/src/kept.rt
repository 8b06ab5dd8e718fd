// The bits that keep a number from one step to the next.

ghost use Rattle.std.specs.Prelude.{ℕ, ◌≡◌, ◌||◌, ◌&&◌, ◌<◌, length, not, Some, IfOk, OnOk};
ghost use Rattle.std.specs.List.{slice_get};
ghost use Rattle.rtl_flat.specs.Flats.{flat, widths};
ghost use Rattle.rtl_flat.specs.Flows.{flow_of};
ghost use Rattle.rtl_flat.specs.Paths.{is_sure};
ghost use Rattle.rtl_flat.specs.Process.{Task};
ghost use Rattle.rtl_rule.specs.Parts.{written};
ghost use Rattle.check_found.specs.rtl_scan.Sets.{has, has_rows};
ghost use Rattle.net_start.specs.Kept.{kept_by};
ghost use Rattle.net_start.specs.Stored.{is_kept};

use check_found::rtl_scan::bits::{BitSet, Row};
use check_found::sets::{sure, written};
use rtl_flat::act::{Does, ProcId};
use rtl_flat::design::Design;
use std::alloc::Global;
use text_ground::memory::Memory;

/// Adds rows to a set.
fn add(bits: &mut BitSet, rows: &[Row]) -> Result<(), Memory>
    ensures { OnOk result ((s k : ℕ) → has bits.new.masks s k
        ≡ (has bits.old.masks s k || has_rows rows.now s k)) }
{
    for row in rows {
        bits.insert(*row)?;
    }
    Ok(())
}

/// Adds the bits of rows that another set lacks.
fn add_left(bits: &mut BitSet, rows: &[Row], sure: &BitSet) -> Result<(), Memory>
    ensures { OnOk result ((s k : ℕ) → has bits.new.masks s k
        ≡ (has bits.old.masks s k || (has_rows rows.now s k && not (has sure.now.masks s k)))) }
{
    for row in rows {
        bits.insert(sure.lacks(*row))?;
    }
    Ok(())
}

/// Adds the bits that a body without edges may write and some path of it leaves.
fn add_latched(alloc: Global, design: &Design, p: ProcId, bits: &mut BitSet) -> Result<(), Memory>
    requires there { p.0 < length design.now.processes.items }
    ensures { let d = flat design.now in
        OnOk result ((task : Task) → slice_get d.tasks p.0 ≡ Some task → (s k : ℕ) →
        has bits.new.masks s k ≡ (has bits.old.masks s k
        || (written d task.does s k && not (is_sure (flow_of (widths d) task.does) s k)))) }
{
    let written = written(alloc, design, p)?;
    let always = sure(alloc, design, p)?;
    let mut sure = BitSet::new(alloc);
    add(&mut sure, &always.rows)?;
    add_left(bits, &written.rows, &sure)
}

/// Adds the bits that a process may write.
fn add_written(alloc: Global, design: &Design, p: ProcId, bits: &mut BitSet) -> Result<(), Memory>
    requires there { p.0 < length design.now.processes.items }
    ensures { let d = flat design.now in
        OnOk result ((task : Task) → slice_get d.tasks p.0 ≡ Some task → (s k : ℕ) →
        has bits.new.masks s k ≡ (has bits.old.masks s k || written d task.does s k)) }
{
    let written = written(alloc, design, p)?;
    add(bits, &written.rows)
}

/// Adds the bits that a process keeps.
fn add_kept(alloc: Global, design: &Design, p: ProcId, bits: &mut BitSet) -> Result<(), Memory>
    requires there { p.0 < length design.now.processes.items }
    ensures { OnOk result ((s k : ℕ) → has bits.new.masks s k
        ≡ (has bits.old.masks s k || kept_by (flat design.now) p.0 s k)) }
{
    match &design.processes[p.0 as usize].does {
        Does::Assign {
            target: _,
            value: _,
        } => Ok(()),
        Does::Comb { list: _, body: _ } => add_latched(alloc, design, p, bits),
        Does::Edge { events: _, body: _ } => add_written(alloc, design, p, bits),
    }
}

/// The bits of registers and of latches: those that a process with edges may write, and those that a body without edges
/// may write and some path of it leaves.
///
/// Fails where memory runs out.
pub fn kept_bits(alloc: Global, design: &Design) -> Result<BitSet, Memory>
    ensures { IfOk result (λ bits. (s k : ℕ) → has bits.masks s k ≡ is_kept (flat design.now) s k) }
{
    let mut bits = BitSet::new(alloc);
    for number in 0..design.processes.len() {
        add_kept(alloc, design, ProcId(number as u32), &mut bits)?;
    }
    Ok(bits)
}
