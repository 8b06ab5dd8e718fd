//! Which processes are latches with a gate from outside, and which signals are gates.

ghost use Rattle.std.specs.Prelude.{ℕ, ◌≡◌, ◌≤◌, ◌<◌, ◌↔◌, true, Some, length, IfOk};
ghost use Rattle.std.specs.List.{flat_map, slice_get};
ghost use Rattle.rtl_flat.specs.Flats.{Flat, flat};
ghost use Rattle.net_model.specs.Gates.{IsGateInput, IsGateOf};
ghost use Rattle.check_gates.specs.Admitted.{AreGates, AreInOrder, IsGatedProcess, gates_of};
ghost use Rattle.check_gates.specs.Latches.{IsPlaceOf, own_input, own_process};
ghost use Rattle.check_gates.specs.Tops.{AreMarkedAlso};

use crate::gate::Gate;
use crate::tops::mark;
use rtl_flat::act::ProcId;
use rtl_flat::design::Design;
use rtl_flat::expr::SigId;
use std::alloc::Global;
use text_ground::memory::Memory;

fn mark_processes(marks: &mut [bool], gates: &[Gate])
    ensures { AreMarkedAlso (flat_map own_process gates.now) marks.old marks.new }
{
    for gate in gates {
        mark(marks, gate.process.0);
    }
}

fn mark_inputs(marks: &mut [bool], gates: &[Gate])
    ensures { AreMarkedAlso (flat_map own_input gates.now) marks.old marks.new }
{
    for gate in gates {
        mark(marks, gate.input.0);
    }
}

/// A mark for each process, whether it is such a latch. Fails where memory runs out.
pub fn gated(alloc: Global, design: &Design, gates: &[Gate]) -> Result<Vec<bool>, Memory>
    requires { AreGates (flat design.now) (gates_of gates.now) }
    ensures length { IfOk result (λ marks. length marks.items ≡ length design.now.processes.items) }
    ensures each { IfOk result (λ marks. (p : ℕ) →
        slice_get marks.items p ≡ Some true ↔ IsGatedProcess (flat design.now) p) }
{
    let mut marks = vec![in alloc; false; design.processes.len()]?;
    mark_processes(&mut marks, gates);
    Ok(marks)
}

/// A mark for each signal, whether it is an input that is the gate of some latch. Fails where memory runs out.
pub fn gate_inputs(alloc: Global, design: &Design, gates: &[Gate]) -> Result<Vec<bool>, Memory>
    requires { AreGates (flat design.now) (gates_of gates.now) }
    ensures length { IfOk result (λ marks. length marks.items ≡ length design.now.signals.items) }
    ensures each { IfOk result (λ marks. (s : ℕ) →
        slice_get marks.items s ≡ Some true ↔ IsGateInput (flat design.now) s) }
{
    let mut marks = vec![in alloc; false; design.signals.len()]?;
    mark_inputs(&mut marks, gates);
    Ok(marks)
}

/// The place of the first gate whose process isn't below a number, where gates are in order.
fn place_of(gates: &[Gate], process: u32) -> usize
    ensures inside { result ≤ length gates.now }
    ensures place { AreInOrder (gates_of gates.now) → IsPlaceOf gates.now process result }
{
    let mut low = 0;
    let mut high = gates.len();
    while low < high {
        let middle = low + (high - low) / 2;
        if gates[middle].process.0 < process {
            low = middle + 1;
        } else {
            high = middle;
        }
    }
    low
}

/// Whether a signal is the one that a process tests as its gate.
pub fn is_gate_of(gates: &[Gate], process: ProcId, signal: SigId) -> bool
    ensures { (d : Flat) → AreGates d (gates_of gates.now) →
        result ≡ true ↔ IsGateOf d process.0 signal.0 }
{
    let mut place = place_of(gates, process.0);
    while place < gates.len() && gates[place].process == process {
        if gates[place].signal == signal {
            return true;
        }
        place += 1;
    }
    false
}
