// The control cone: what clocks, resets and gates go to.

ghost use Rattle.std.specs.Prelude.{ℕ, ◌≡◌, ◌<◌, ◌↔◌, true, Some, length, IfOk, OnOk};
ghost use Rattle.std.specs.List.{slice_get};
ghost use Rattle.rtl_flat.specs.Flats.{flat};
ghost use Rattle.net_model.specs.Gates.{InCone};
ghost use Rattle.check_gates.specs.check_chains.check_found.Scanned.{AreScans};
ghost use Rattle.check_gates.specs.Admitted.{AreGates, gates_of};
ghost use Rattle.check_clocks.specs.Cone.{AreConed, IsSpread, is_control};

use check_gates::check_chains::check_found::scans::Scans;
use check_gates::links::rows_of;
use check_gates::passed::passing_links;
use check_gates::reach::reached;
use check_gates::tops::{is_marked, is_top, mark_all};
use check_gates::waits::{any_marked, mark_all_waited};
use check_gates::{Gate, gate_inputs};
use rtl_flat::expr::SigId;
use std::alloc::Global;
use text_ground::memory::Memory;

/// Whether a top input is a gate, or an edge of something that is reached from it is waited for.
pub fn is_control(gate: bool, edges: &[bool], found: &[u32]) -> bool
    ensures { result ≡ is_control gate edges.now found.now }
{
    gate || any_marked(edges, found)
}

/// Marks all that is reached from a top input, if it is a gate or an edge of some of it is waited for.
fn spread(
    alloc: Global,
    rows: &[Vec<u32>],
    edges: &[bool],
    gate: bool,
    top: u32,
    cone: &mut [bool],
) -> Result<(), Memory>
    requires { top < length rows.now }
    ensures { OnOk result (IsSpread rows.now edges.now gate top cone.old cone.new) }
{
    let found = reached(alloc, rows, top)?;
    if is_control(gate, edges, &found) {
        mark_all(cone, &found);
    }
    Ok(())
}

/// Marks the control cone: what is reached from the clocks, resets and gates of the top through input
/// ports.
pub fn cone(alloc: Global, scans: &Scans, gates: &[Gate]) -> Result<Vec<bool>, Memory>
    requires scans { AreScans scans.now }
    requires gates { AreGates (flat scans.now.design.now) (gates_of gates.now) }
    ensures length { IfOk result (λ marks.
        length marks.items ≡ length scans.now.design.now.signals.items) }
    ensures each { IfOk result (λ marks. (s : ℕ) →
        slice_get marks.items s ≡ Some true ↔ InCone (flat scans.now.design.now) s) }
{
    let marks = coned(alloc, scans, gates)?;
    Ok(marks)
}

fn coned(alloc: Global, scans: &Scans, gates: &[Gate]) -> Result<Vec<bool>, Memory>
    requires scans { AreScans scans.now }
    requires gates { AreGates (flat scans.now.design.now) (gates_of gates.now) }
    ensures { let d = flat scans.now.design.now in
        IfOk result (λ marks. AreConed d (length d.signals) marks.items) }
{
    let count = scans.design.signals.len();
    let links = passing_links(alloc, scans)?;
    let rows = rows_of(alloc, count, &links)?;
    let inputs = gate_inputs(alloc, scans.design, gates)?;
    let mut edges = vec![in alloc; false; count]?;
    mark_all_waited(&mut edges, &scans.design.processes);
    let mut cone = vec![in alloc; false; count]?;
    for top in 0..count {
        if is_top(scans.design, SigId(top as u32)) {
            let gate = is_marked(&inputs, top as u32);
            spread(alloc, &rows, &edges, gate, top as u32, &mut cone)?;
        }
    }
    Ok(cone)
}
