// All rules over a design.

ghost use Rattle.std.specs.Prelude.{IfOk};
ghost use Rattle.rtl_flat.specs.Flats.{parts};
ghost use Rattle.check_all.specs.Findings.{AreAllFindings};

use check_clocks::check_gates::gates;
use check_sense::check_found::order::merged;
use check_sense::check_found::scans::Scans;
use rtl_flat::design::Design;
use rtl_rule::finding::Finding;
use std::alloc::Global;
use text_ground::memory::Memory;

/// All findings of a design, over all rules, in their order.
///
/// Fails where memory runs out.
pub fn check(alloc: Global, design: &Design) -> Result<Vec<Finding>, Memory>
    ensures { IfOk result (λ all. AreAllFindings (parts design.now) all.items) }
{
    let scans = Scans::of(alloc, design)?;
    let gates = gates(alloc, &scans)?;
    let sense = check_sense::check(alloc, &scans)?;
    let assigned = check_assign::check(alloc, &scans, &gates)?;
    let clocked = check_clocks::check(alloc, &scans, &gates)?;
    let reset = check_clocks::check_chains::check(alloc, &scans)?;
    let cases = check_case::check(alloc, &scans)?;
    let unknown = check_unknown::check(alloc, &scans, &gates)?;
    let readings = check_readings::check(alloc, design)?;
    let two = merged(alloc, &sense, &assigned)?;
    let three = merged(alloc, &two, &clocked)?;
    let four = merged(alloc, &three, &reset)?;
    let five = merged(alloc, &four, &cases)?;
    let six = merged(alloc, &five, &unknown)?;
    merged(alloc, &six, &readings)
}
