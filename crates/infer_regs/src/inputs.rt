// The inputs that are clocks, resets or gates.

ghost use Rattle.std.specs.Prelude.{◌≡◌, ◌<◌, ◌↔◌, length, map, true, IfOk};
ghost use Rattle.rtl_flat.specs.Flats.{flat};
ghost use Rattle.net_list.specs.check_clocks.Cone.{ReachesControl};
ghost use Rattle.infer_regs.specs.Forms.{AreControls};

use net_list::check_clocks::cone::is_control;
use net_list::check_found::scans::Scans;
use net_list::check_gates::links::rows_of;
use net_list::check_gates::passed::passing_links;
use net_list::check_gates::reach::reached;
use net_list::check_gates::tops::{is_marked, is_top};
use net_list::check_gates::waits::mark_all_waited;
use net_list::check_gates::{gate_inputs, gates};
use rtl_flat::design::Design;
use rtl_flat::expr::SigId;
use std::alloc::Global;
use text_ground::memory::Memory;

/// Whether a top input is a gate, or an edge of something that is reached from it is waited for.
fn reaches_control(
    alloc: Global,
    rows: &[Vec<u32>],
    marks: &[bool],
    gate: bool,
    start: u32,
) -> Result<bool, Memory>
    requires { start < length rows.now }
    ensures { IfOk result (λ reaches.
        reaches ≡ true ↔ ReachesControl rows.now marks.now gate start) }
{
    let found = reached(alloc, rows, start)?;
    Ok(is_control(gate, marks, &found))
}

/// The top inputs that are clocks, resets or gates, in order.
///
/// Fails where memory runs out.
pub fn controls(alloc: Global, design: &Design) -> Result<Vec<SigId>, Memory>
    ensures { IfOk result (λ found.
        AreControls (flat design.now) (map (λ one. one.0) found.items)) }
{
    let count = design.signals.len();
    let scans = Scans::of(alloc, design)?;
    let links = passing_links(alloc, &scans)?;
    let rows = rows_of(alloc, count, &links)?;
    let mut edges = vec![in alloc; false; count]?;
    mark_all_waited(&mut edges, &design.processes);
    let gates = gates(alloc, &scans)?;
    let inputs = gate_inputs(alloc, design, &gates)?;
    let mut found = Vec::new(alloc);
    for number in 0..count {
        let top = SigId(number as u32);
        let gate = is_marked(&inputs, top.0);
        if is_top(design, top) && reaches_control(alloc, &rows, &edges, gate, top.0)? {
            found.push(top)?;
        }
    }
    Ok(found)
}
