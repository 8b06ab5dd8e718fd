//! What the statements of a branch read and write, and what the indices of a list read.

ghost use Rattle.std.specs.Prelude.{ℕ, ◌≡◌, map, IfOk};
ghost use Rattle.rtl_flat.specs.Signs.{width_in};
ghost use Rattle.rtl_flat.specs.Process.{action, body_of, watched};
ghost use Rattle.rtl_flat.specs.Paths.{is_sure_now, may_read};
ghost use Rattle.rtl_flat.specs.Flows.{body_flow, item_reads};
ghost use Rattle.rtl_scan.specs.Sets.{has, has_rows};
ghost use Rattle.rtl_scan.specs.Scan.{HasScanned};

use crate::bits::{BitSet, Row};
use crate::scan::{Counted, Sets};
use crate::sets::widths_of;
use crate::spans::Widths;
use crate::steps::Pass;
use rtl_flat::act::{Act, EventItem};
use rtl_flat::design::Design;
use std::alloc::Global;
use text_ground::memory::Memory;

/// Scans statements from nothing.
fn scan_body(alloc: Global, widths: Widths, body: &[Act], counted: Counted) -> Result<Sets, Memory>
    ensures { IfOk result (λ sets. HasScanned counted
        (body_flow (width_in widths.entry.signals.now) (body_of (map action body.now))) sets) }
{
    let pass = Pass {
        alloc,
        widths,
        counted,
    };
    let mut sets = Sets::new(alloc);
    let mut log = Vec::new(alloc);
    pass.statements(body, &mut sets, &mut log)?;
    Ok(sets)
}

/// The bits that some path of some statements reads, whether it wrote them before or not.
pub fn branch_reads(alloc: Global, d: &Design, body: &[Act]) -> Result<BitSet, Memory>
    ensures { IfOk result (λ bits. (s k : ℕ) → has bits.masks s k
        ≡ may_read (body_flow (width_in d.now.signals.items) (body_of (map action body.now))) s k) }
{
    let sets = scan_body(alloc, widths_of(d), body, Counted::Nothing)?;
    Ok(sets.reads)
}

/// The bits that every path of some statements writes by blocking assignments.
pub fn branch_sure(alloc: Global, d: &Design, body: &[Act]) -> Result<BitSet, Memory>
    ensures { IfOk result (λ bits. (s k : ℕ) → has bits.masks s k
        ≡ is_sure_now (body_flow (width_in d.now.signals.items) (body_of (map action body.now))) s k) }
{
    let sets = scan_body(alloc, widths_of(d), body, Counted::Blocking)?;
    Ok(sets.done)
}

/// The bits that the indices of a sensitivity list read.
pub fn index_reads(alloc: Global, d: &Design, items: &[EventItem]) -> Result<Vec<Row>, Memory>
    ensures { IfOk result (λ rows. (s k : ℕ) → has_rows rows.items s k
        ≡ item_reads (width_in d.now.signals.items) (map watched items.now) s k) }
{
    let widths = widths_of(d);
    let mut rows = Vec::new(alloc);
    for item in items {
        widths.push_index(&item.select, &mut rows)?;
    }
    Ok(rows)
}
