// Findings at places in a process.

ghost use Rattle.std.specs.Prelude.{◌≡◌, ◌<◌, ◌++◌, map, length, Some, OnOk};
ghost use Rattle.std.specs.List.{slice_get};
ghost use Rattle.rtl_flat.specs.Process.{Task};
ghost use Rattle.rtl_flat.specs.Flats.{flat};
ghost use Rattle.check_unknown.specs.Lists.{at_spot, at_spots};

use check_chains::check_found::sets::first_written;
use rtl_flat::act::ProcId;
use rtl_flat::design::Design;
use rtl_flat::expr::SigId;
use rtl_rule::finding::Finding;
use rtl_rule::rule::Rule;
use std::alloc::Global;
use text_ground::memory::Memory;
use text_ground::text::Spot;

/// Adds a finding at each place, about one signal in one instance.
fn push_each(
    found: &mut Vec<Finding>,
    rule: Rule,
    signal: Option<SigId>,
    instance: u32,
    spots: &[Spot],
) -> Result<(), Memory>
    ensures { OnOk result (found.new.items ≡ found.old.items ++ map
        (at_spot rule signal instance) spots.now) }
{
    for spot in spots {
        found.push(Finding {
            rule,
            signal,
            instance,
            spot: *spot,
        })?;
    }
    Ok(())
}

/// Adds a finding at each place in a process, about the least signal that it may write.
pub(crate) fn push_all(
    alloc: Global,
    design: &Design,
    p: ProcId,
    rule: Rule,
    spots: &[Spot],
    found: &mut Vec<Finding>,
) -> Result<(), Memory>
    requires { p.0 < length design.now.processes.items }
    ensures { OnOk result ((task : Task) → slice_get (flat design.now).tasks p.0 ≡ Some task
        → found.new.items ≡ found.old.items ++ at_spots rule (flat design.now) spots.now task) }
{
    if spots.is_empty() {
        return Ok(());
    }
    let signal = first_written(alloc, design, p)?;
    let instance = design.processes[p.0 as usize].instance;
    push_each(found, rule, signal, instance, spots)
}
