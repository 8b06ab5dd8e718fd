//! Signals that are marked.

ghost use Rattle.std.specs.Prelude.{◌≡◌, IfOk, length};
ghost use Rattle.netlist_eval.specs.net_start.Stored.{places};
ghost use Rattle.vcd_check.specs.Checks.{AreMarks};

use netlist_eval::check_gates::tops::mark_all;
use rtl_flat::design::Design;
use rtl_flat::expr::SigId;
use std::alloc::Global;
use text_ground::memory::Memory;

/// The numbers of signals.
fn places_of(alloc: Global, signals: &[SigId]) -> Result<Vec<u32>, Memory>
    ensures { IfOk result (λ found. found.items ≡ places signals.now) }
{
    let mut found = Vec::new(alloc);
    for signal in signals {
        found.push(signal.0)?;
    }
    Ok(found)
}

/// Of each signal of a design whether it is one of some.
pub(crate) fn marks_of(
    alloc: Global,
    design: &Design,
    signals: &[SigId],
) -> Result<Vec<bool>, Memory>
    ensures { IfOk result (λ marks. AreMarks (length design.now.signals.items) (places signals.now) marks.items) }
{
    let places = places_of(alloc, signals)?;
    let mut marks = vec![in alloc; false; design.signals.len()]?;
    mark_all(&mut marks, &places);
    Ok(marks)
}
