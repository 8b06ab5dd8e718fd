// Which inputs are clocks and resets, and at which values the latches of an input are open.

ghost use Rattle.std.specs.Prelude.{◌≡◌, ◌<◌, ◌↔◌, true, false, length, slice_index_or, IfOk};
ghost use Rattle.std.specs.List.{flat_map};
ghost use Rattle.rtl_flat.specs.Flats.{flat};
ghost use Rattle.check_chains.specs.check_found.Scanned.{AreScans};
ghost use Rattle.check_gates.specs.Admitted.{gates_of};
ghost use Rattle.check_gates.specs.Latches.{AreClocks, AreInputs, admits, is_opposed, open_input};
ghost use Rattle.check_gates.specs.Tops.{AreMarkedAlso};
ghost use Rattle.check_gates.specs.Waits.{ReachesMarked};

use crate::gate::Gate;
use crate::links::rows_of;
use crate::passed::passing_links;
use crate::reach::reached;
use crate::tops::{is_marked, is_top, mark};
use crate::waits::{any_marked, mark_all_waited};
use check_chains::check_found::scans::Scans;
use rtl_bits::Bit;
use rtl_flat::expr::SigId;
use std::alloc::Global;
use text_ground::memory::Memory;

/// Marks of inputs.
#[derive(Drop)]
pub(crate) struct Inputs {
    /// The clocks and resets.
    clocks: Vec<bool>,
    /// Those with a latch that is open at 1.
    high: Vec<bool>,
    /// Those with a latch that is open at 0.
    low: Vec<bool>,
}

impl Inputs {
    /// Works them out for some latches.
    pub(crate) fn of(alloc: Global, scans: &Scans, gates: &[Gate]) -> Result<Inputs, Memory>
        requires { AreScans scans.now }
        ensures { IfOk result (AreInputs (flat scans.now.design.now) (gates_of gates.now)) }
    {
        let count = scans.design.signals.len();
        let mut high = vec![in alloc; false; count]?;
        let mut low = vec![in alloc; false; count]?;
        mark_open(&mut high, gates, Bit::One);
        mark_open(&mut low, gates, Bit::Zero);
        Ok(Inputs {
            clocks: clocks(alloc, scans)?,
            high,
            low,
        })
    }

    /// Whether a latch is open at one value and another with its input at the other.
    fn is_opposed(&self, gate: &Gate) -> bool
        ensures { result ≡ is_opposed self.now gate.now.opens_at gate.now.input.0 }
    {
        match gate.opens_at {
            Bit::One => is_marked(&self.low, gate.input.0),
            Bit::Zero => is_marked(&self.high, gate.input.0),
            Bit::X => true,
            Bit::Z => true,
        }
    }

    /// Whether a latch is admitted.
    pub(crate) fn admits(&self, gate: &Gate) -> bool
        ensures { result ≡ admits self.now gate.now }
    {
        !is_marked(&self.clocks, gate.input.0) && !self.is_opposed(gate)
    }
}

/// Marks the input of a latch that is open at a value.
fn mark_if_open(marks: &mut [bool], gate: &Gate, opens: Bit)
    ensures { AreMarkedAlso (open_input opens gate.now) marks.old marks.new }
{
    if gate.opens_at == opens {
        mark(marks, gate.input.0);
    }
}

/// Marks the inputs of latches that are open at a value.
fn mark_open(marks: &mut [bool], gates: &[Gate], opens: Bit)
    ensures { AreMarkedAlso (flat_map (open_input opens) gates.now) marks.old marks.new }
{
    for gate in gates {
        mark_if_open(marks, gate, opens);
    }
}

/// Whether something that is reached from a number is marked.
fn reaches_marked(
    alloc: Global,
    rows: &[Vec<u32>],
    marks: &[bool],
    start: u32,
) -> Result<bool, Memory>
    requires { start < length rows.now }
    ensures { IfOk result (λ reaches. reaches ≡ true ↔ ReachesMarked rows.now marks.now start) }
{
    let found = reached(alloc, rows, start)?;
    Ok(any_marked(marks, &found))
}

/// A mark for each signal, whether it is a clock or a reset of the top.
///
/// Fails where memory runs out.
pub fn clocks(alloc: Global, scans: &Scans) -> Result<Vec<bool>, Memory>
    requires { AreScans scans.now }
    ensures { let d = flat scans.now.design.now in
        IfOk result (λ marks. AreClocks d (length d.signals) marks.items) }
{
    let count = scans.design.signals.len();
    let links = passing_links(alloc, scans)?;
    let rows = rows_of(alloc, count, &links)?;
    let mut edges = vec![in alloc; false; count]?;
    mark_all_waited(&mut edges, &scans.design.processes);
    let mut marks = vec![in alloc; false; count]?;
    for number in 0..count {
        let top = SigId(number as u32);
        if is_top(scans.design, top) && reaches_marked(alloc, &rows, &edges, top.0)? {
            mark(&mut marks, top.0);
        }
    }
    Ok(marks)
}
