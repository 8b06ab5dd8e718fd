// Processes on a cycle without a register.

ghost use Rattle.std.specs.Prelude.{◌≡◌, ◌<◌, ◌↔◌, [], ◌∷◌, true, length, Some, IfOk, OnOk};
ghost use Rattle.std.specs.List.{slice_get};
ghost use Rattle.rtl_flat.specs.Process.{Task};
ghost use Rattle.rtl_flat.specs.Flats.{flat};
ghost use Rattle.check_loops.specs.check_found.Gathered.{Gets, task_sites};
ghost use Rattle.check_loops.specs.Loops.{IsOnLevelCycle};
ghost use Rattle.check_loops.specs.check_found.Scanned.{AreScans};
ghost use Rattle.check_assign.specs.Assigned.{AreCombLoop, IsCombLoop, comb_loop_at};

use check_loops::check_found::scans::Scans;
use check_loops::check_found::sets::first_written;
use check_loops::loops;
use rtl_flat::act::ProcId;
use rtl_flat::design::Design;
use rtl_rule::finding::Finding;
use rtl_rule::rule::Rule;
use std::alloc::Global;
use text_ground::memory::Memory;

/// Adds the finding of a process if it is on a cycle.
fn push_loop(
    alloc: Global,
    design: &Design,
    p: ProcId,
    on_cycle: bool,
    found: &mut Vec<Finding>,
) -> Result<(), Memory>
    requires inside { p.0 < length design.now.processes.items }
    requires on_cycle { let d = flat design.now in
        on_cycle ≡ true ↔ IsOnLevelCycle d.signals d.tasks p.0 }
    ensures { let d = flat design.now in
        OnOk result ((task : Task) → slice_get d.tasks p.0 ≡ Some task →
        Gets (IsCombLoop d) (comb_loop_at d) (task_sites (λ does. does ∷ []) p.0 task)
        found.old.items found.new.items) }
{
    if !on_cycle {
        return Ok(());
    }
    let process = &design.processes[p.0 as usize];
    let signal = first_written(alloc, design, p)?;
    found.push(Finding {
        rule: Rule::CombLoop,
        signal,
        instance: process.instance,
        spot: process.spot,
    })?;
    Ok(())
}

/// Processes on a cycle of the level graph.
///
/// Fails where memory runs out.
pub fn comb_loop(alloc: Global, scans: &Scans) -> Result<Vec<Finding>, Memory>
    requires { AreScans scans.now }
    ensures { IfOk result (λ found. AreCombLoop (flat scans.now.design.now) found.items) }
{
    let on_cycle = loops(alloc, scans)?;
    let mut found = Vec::new(alloc);
    for number in 0..scans.design.processes.len() {
        push_loop(
            alloc,
            scans.design,
            ProcId(number as u32),
            on_cycle[number],
            &mut found,
        )?;
    }
    Ok(found)
}
