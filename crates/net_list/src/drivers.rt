//! Processes that may write the same bits.

ghost use Rattle.std.specs.Prelude.{ℕ, ◌≡◌, ◌<◌, ◌+◌, ◌||◌, ◌↔◌, true, length, IfOk, OnOk};
ghost use Rattle.std.specs.List.{list_any};
ghost use Rattle.rtl_rule.specs.declared.rule.Rule.TheVariants.{SeveralDrivers};
ghost use Rattle.rtl_flat.specs.Flats.{flat};
ghost use Rattle.check_assign.specs.rtl_scan.Sets.{has, has_rows, mask_of};
ghost use Rattle.check_assign.specs.Marks.{shares};
ghost use Rattle.net_list.specs.Drivers.{AreLower};
ghost use Rattle.net_list.specs.Faults.{HasFault};

use check_assign::check_found::sets::written;
use check_assign::rtl_scan::bits::{BitSet, Row};
use rtl_flat::act::ProcId;
use rtl_flat::design::Design;
use std::alloc::Global;
use text_ground::memory::Memory;

/// Whether a bit of a row is in a set.
fn shares(bits: &BitSet, row: Row) -> bool
    ensures { result ≡ shares (mask_of bits.now.masks) row }
{
    row.mask & bits.mask(row.signal) != 0
}

/// Whether a bit of some rows is.
fn any_shares(bits: &BitSet, rows: &[Row]) -> bool
    ensures { result ≡ list_any (shares (mask_of bits.now.masks)) rows.now }
{
    rows.iter().any(|row| shares(bits, *row))
}

/// Adds rows to a set.
fn add(bits: &mut BitSet, rows: &[Row]) -> Result<(), Memory>
    ensures { OnOk result ((s k : ℕ)
        → has bits.new.masks s k ≡ (has bits.old.masks s k || has_rows rows.now s k)) }
{
    for row in rows {
        bits.insert(*row)?;
    }
    Ok(())
}

/// Whether a process may write a bit that the processes below it may write, too, which a set has.
/// Its own bits go into the set.
pub fn drives_again(
    alloc: Global,
    design: &Design,
    p: ProcId,
    lower: &mut BitSet,
) -> Result<bool, Memory>
    requires inside { p.0 < length design.now.processes.items }
    requires lower { AreLower (flat design.now) p.0 lower.old }
    ensures again { IfOk result (λ again. again ≡ true
        ↔ HasFault (flat design.now) p.0 SeveralDrivers) }
    ensures lower { OnOk result (AreLower (flat design.now) (p.0 + 1) lower.new) }
{
    let written = written(alloc, design, p)?;
    let again = any_shares(lower, &written.rows);
    add(lower, &written.rows)?;
    Ok(again)
}
