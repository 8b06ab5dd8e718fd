// Cycles of the level graph.

ghost use Rattle.std.specs.Prelude.{IfOk};
ghost use Rattle.rtl_flat.specs.Flats.{flat};
ghost use Rattle.check_found.specs.Scanned.{AreScans};
ghost use Rattle.check_loops.specs.Loops.{AreLevelLoops};

use crate::on_cycles;
use check_found::rtl_scan::feeds::Waits;
use check_found::scans::Scans;
use std::alloc::Global;
use text_ground::memory::Memory;

/// Whether each process is on a cycle of the level graph: one feeds the next by a bit that it may write, and that the
/// next reads before it has written it, or lists.
pub fn loops(alloc: Global, scans: &Scans) -> Result<Vec<bool>, Memory>
    requires { AreScans scans.now }
    ensures { let d = flat scans.now.design.now in
        IfOk result (λ answers. AreLevelLoops d.signals d.tasks answers.items) }
{
    let rows = scans.accessed().arrows(alloc, Waits::ReadsAndLists)?;
    on_cycles(alloc, &rows)
}
