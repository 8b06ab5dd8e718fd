// Written lists that leave out what their bodies read.

ghost use Rattle.std.specs.Prelude.{◌≡◌, ◌<◌, ◌++◌, Some, length, IfOk, OnOk};
ghost use Rattle.std.specs.List.{slice_get};
ghost use Rattle.rtl_flat.specs.Process.{doing, Task, task};
ghost use Rattle.rtl_flat.specs.Flats.{flat};
ghost use Rattle.check_found.specs.Gathered.{Gets, signal_numbers, task_sites};
ghost use Rattle.check_found.specs.Scanned.{AreScans};
ghost use Rattle.check_sense.specs.Sense.{AreSenseMissing, IsSenseMissing, sense_missing_at};
ghost use Rattle.check_sense.specs.Telling.{has_items, lacking_in, lacks};

use check_found::rtl_scan::bits::{BitSet, Row};
use check_found::scans::Scans;
use rtl_flat::act::{Does, Listed, ProcId, Process};
use rtl_rule::finding::Finding;
use rtl_rule::rule::Rule;
use std::alloc::Global;
use text_ground::memory::Memory;

/// Whether a process has a written list without an edge.
fn has_items(does: &Does) -> bool
    ensures { result ≡ has_items (doing does.now) }
{
    match does {
        Does::Assign {
            target: _,
            value: _,
        } => false,
        Does::Comb { list, body: _ } => match list {
            Listed::Star => false,
            Listed::Items(_) => true,
        },
        Does::Edge { events: _, body: _ } => false,
    }
}

/// Whether a set lacks a bit of a row.
fn lacks(listed: &BitSet, row: Row) -> bool
    ensures { result ≡ lacks listed.now.masks row }
{
    row.mask & (row.mask ^ listed.mask(row.signal)) != 0
}

/// Tells of each row with a bit that isn't listed.
#[tactic(auto, using(std::proofs::lemmas::List::append_assoc))]
fn push_lacking(
    process: &Process,
    read: &[Row],
    listed: &BitSet,
    found: &mut Vec<Finding>,
) -> Result<(), Memory>
    ensures { OnOk result (found.new.items
        ≡ found.old.items ++ lacking_in (task process.now) listed.now.masks read.now) }
{
    for row in read {
        if lacks(listed, *row) {
            found.push(Finding {
                rule: Rule::SenseMissing,
                signal: Some(row.signal),
                instance: process.instance,
                spot: process.spot,
            })?;
        }
    }
    Ok(())
}

fn push_missing(
    alloc: Global,
    scans: &Scans,
    p: ProcId,
    found: &mut Vec<Finding>,
) -> Result<(), Memory>
    requires scans { AreScans scans.now }
    requires there { p.0 < length scans.now.design.now.processes.items }
    ensures { let d = flat scans.now.design.now in
        OnOk result ((task : Task) → slice_get d.tasks p.0 ≡ Some task
        → Gets (IsSenseMissing d) sense_missing_at
        (task_sites (signal_numbers d) p.0 task) found.old.items found.new.items) }
{
    let process = &scans.design.processes[p.0 as usize];
    if !has_items(&process.does) {
        return Ok(());
    }
    let read = scans.read_outside(p);
    let masks = BitSet::of(alloc, &scans.listed(p).rows)?;
    push_lacking(process, &read.rows, &masks, found)
}

/// Processes with a written list that leaves out a bit which their body reads before it has written
/// it: a finding for each signal.
pub fn sense_missing(alloc: Global, scans: &Scans) -> Result<Vec<Finding>, Memory>
    requires { AreScans scans.now }
    ensures { IfOk result (λ found. AreSenseMissing (flat scans.now.design.now) found.items) }
{
    let mut found = Vec::new(alloc);
    for number in 0..scans.design.processes.len() {
        push_missing(alloc, scans, ProcId(number as u32), &mut found)?;
    }
    Ok(found)
}
