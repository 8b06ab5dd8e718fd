// Processes by how far they are from those that none feeds.

ghost use Rattle.std.specs.Prelude.{◌≡◌, ◌<◌, ◌+◌, length, map, IfOk, OnOk};
ghost use Rattle.rtl_flat.specs.declared.act.ProcId.{ProcId};
ghost use Rattle.rtl_flat.specs.Flats.{flat};
ghost use Rattle.net_order.specs.Ranks.{ArePlaced, IsLeastOf, IsLost, IsRanked, lesser_of};

use check_found::rtl_scan::feeds::is_node;
use check_found::sets::first_written;
use rtl_flat::act::ProcId;
use rtl_flat::design::Design;
use rtl_flat::expr::SigId;
use std::alloc::Global;
use text_ground::memory::Memory;

/// A process with the greatest number of arrows in a chain to it.
#[derive(Clone, Copy)]
pub(crate) struct Placed {
    pub(crate) process: u32,
    pub(crate) depth: u32,
}

/// Adds the process with a number, if it has a place.
fn place(
    design: &Design,
    number: u32,
    depths: &[Option<u32>],
    found: &mut Vec<Placed>,
) -> Result<(), Memory>
    requires inside { number < length design.now.processes.items }
    requires depths { number < length depths.now }
    ensures { let d = flat design.now in
        OnOk result (ArePlaced d.tasks depths.now number found.old.items →
        ArePlaced d.tasks depths.now (number + 1) found.new.items) }
{
    if !is_node(&design.processes[number as usize].does) {
        return Ok(());
    }
    let Some(depth) = depths[number as usize] else {
        return Ok(());
    };
    found.push(Placed {
        process: number,
        depth,
    })?;
    Ok(())
}

/// The processes without edges that have a depth.
fn places(alloc: Global, design: &Design, depths: &[Option<u32>]) -> Result<Vec<Placed>, Memory>
    requires { length depths.now ≡ length design.now.processes.items }
    ensures { let d = flat design.now in
        IfOk result (λ found. ArePlaced d.tasks depths.now (length d.tasks) found.items) }
{
    let mut found = Vec::new(alloc);
    for number in 0..design.processes.len() {
        place(design, number as u32, depths, &mut found)?;
    }
    Ok(found)
}

/// Those processes, the nearest first.
pub(crate) fn ranked(
    alloc: Global,
    design: &Design,
    depths: &[Option<u32>],
) -> Result<Vec<ProcId>, Memory>
    requires { length depths.now ≡ length design.now.processes.items }
    ensures { let d = flat design.now in
        IfOk result (λ order. IsRanked d.tasks depths.now (map (λ (p : ProcId). p.0) order.items)) }
{
    let mut sorted = places(alloc, design, depths)?;
    sorted.sort_by_key(
        |placed|
            ensures { result ≡ placed.now.depth }
        { placed.depth },
    )?;
    let mut order = Vec::new(alloc);
    for placed in &sorted {
        order.push(ProcId(placed.process))?;
    }
    Ok(order)
}

/// The lesser of two signals, where there are two.
fn lesser(one: Option<SigId>, other: Option<SigId>) -> Option<SigId>
    ensures { result ≡ lesser_of one other }
{
    match (one, other) {
        (Some(one), Some(other)) if other.0 < one.0 => Some(other),
        (Some(one), _) => Some(one),
        (None, other) => other,
    }
}

/// The least signal that is written by a process without an edge below a number, or by one that has no depth.
fn lost_at(
    alloc: Global,
    design: &Design,
    number: u32,
    depths: &[Option<u32>],
    least: Option<SigId>,
) -> Result<Option<SigId>, Memory>
    requires inside { number < length design.now.processes.items }
    requires depths { number < length depths.now }
    ensures { let d = flat design.now in
        IfOk result (λ next. IsLeastOf (IsLost d.signals d.tasks depths.now number) least →
        IsLeastOf (IsLost d.signals d.tasks depths.now (number + 1)) next) }
{
    if !is_node(&design.processes[number as usize].does) || depths[number as usize].is_some() {
        return Ok(least);
    }
    let first = first_written(alloc, design, ProcId(number))?;
    Ok(lesser(least, first))
}

/// The least signal that is written by a process without an edge that has no depth.
pub(crate) fn lost(
    alloc: Global,
    design: &Design,
    depths: &[Option<u32>],
) -> Result<Option<SigId>, Memory>
    requires { length depths.now ≡ length design.now.processes.items }
    ensures { let d = flat design.now in
        IfOk result (λ least. IsLeastOf (IsLost d.signals d.tasks depths.now (length d.tasks))
        least) }
{
    let mut least = None;
    for number in 0..design.processes.len() {
        least = lost_at(alloc, design, number as u32, depths, least)?;
    }
    Ok(least)
}
