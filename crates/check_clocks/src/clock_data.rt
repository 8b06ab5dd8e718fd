//! A8: signals of the control cone that a process lists without an edge or reads as data, but for the
//! gate of a latch.

ghost use Rattle.std.specs.Prelude.{ℕ, ◌≡◌, ◌<◌, ◌↔◌, Some, true, length, IfOk, OnOk};
ghost use Rattle.std.specs.List.{slice_get};
ghost use Rattle.rtl_flat.specs.Flats.{flat};
ghost use Rattle.net_model.specs.Gates.{InCone};
ghost use Rattle.rtl_flat.specs.Process.{Task};
ghost use Rattle.check_gates.specs.check_chains.check_found.Gathered.{Gets, signal_numbers, task_sites};
ghost use Rattle.check_gates.specs.check_chains.check_found.Scanned.{AreScans};
ghost use Rattle.check_gates.specs.Admitted.{AreGates, gates_of};
ghost use Rattle.check_clocks.specs.Clocks.{AreClockAsData, IsClockAsData, clock_as_data_at};

use crate::cone::cone;
use crate::data::uses_of;
use crate::uses::{firsts_of, ungated};
use check_gates::Gate;
use check_gates::check_chains::check_found::marks::Among;
use check_gates::check_chains::check_found::scans::Scans;
use rtl_flat::act::ProcId;
use rtl_flat::design::Design;
use rtl_rule::finding::Finding;
use rtl_rule::rule::Rule;
use std::alloc::Global;
use text_ground::memory::Memory;

/// Adds the findings at a process.
fn push_process(
    alloc: Global,
    design: &Design,
    in_cone: &[bool],
    gates: &[Gate],
    p: ProcId,
    found: &mut Vec<Finding>,
) -> Result<(), Memory>
    requires size { length in_cone.now ≡ length design.now.signals.items }
    requires marks { (s : ℕ) → slice_get in_cone.now s ≡ Some true ↔ InCone (flat design.now) s }
    requires gates { AreGates (flat design.now) (gates_of gates.now) }
    requires inside { p.0 < length design.now.processes.items }
    ensures { let d = flat design.now in
        let breaks = IsClockAsData (InCone (flat design.now)) d in
        OnOk result ((task : Task) → slice_get d.tasks p.0 ≡ Some task →
        Gets breaks (clock_as_data_at d) (task_sites (signal_numbers d) p.0 task)
        found.old.items found.new.items) }
{
    let process = &design.processes[p.0 as usize];
    let uses = uses_of(alloc, design, process)?;
    let others = ungated(alloc, &uses, gates, p)?;
    let firsts = firsts_of(alloc, &others)?;
    let listed = Among::Listed(in_cone);
    firsts.push(Rule::ClockAsData, process, listed, found)
}

/// The findings at all processes.
pub(crate) fn findings(
    alloc: Global,
    design: &Design,
    in_cone: &[bool],
    gates: &[Gate],
) -> Result<Vec<Finding>, Memory>
    requires size { length in_cone.now ≡ length design.now.signals.items }
    requires marks { (s : ℕ) → slice_get in_cone.now s ≡ Some true ↔ InCone (flat design.now) s }
    requires gates { AreGates (flat design.now) (gates_of gates.now) }
    ensures { let d = flat design.now in
        IfOk result (λ found. AreClockAsData (InCone (flat design.now)) d found.items) }
{
    let mut found = Vec::new(alloc);
    for number in 0..design.processes.len() {
        push_process(
            alloc,
            design,
            in_cone,
            gates,
            ProcId(number as u32),
            &mut found,
        )?;
    }
    Ok(found)
}

/// The signals of the control cone, which clocks, resets and gates come from or go to by ports, that
/// a process lists without an edge or reads as data, but for the gate of a latch.
///
/// Fails where memory runs out.
pub fn clock_as_data(alloc: Global, scans: &Scans, gates: &[Gate]) -> Result<Vec<Finding>, Memory>
    requires scans { AreScans scans.now }
    requires gates { AreGates (flat scans.now.design.now) (gates_of gates.now) }
    ensures { let d = flat scans.now.design.now in
        IfOk result (λ found. AreClockAsData (InCone (flat scans.now.design.now)) d found.items) }
{
    let in_cone = cone(alloc, scans, gates)?;
    findings(alloc, scans.design, &in_cone, gates)
}
