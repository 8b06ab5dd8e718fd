// Latches with a gate that comes from outside.

ghost use Rattle.std.specs.Prelude.{ℕ, ◌≡◌, ◌↔◌, ◌++◌, length, IfOk, OnOk};
ghost use Rattle.rtl_flat.specs.Flats.{flat};
ghost use Rattle.check_chains.specs.rtl_scan.Arrows.{Among, AreRising};
ghost use Rattle.check_gates.specs.Admitted.{gates_of};
ghost use Rattle.check_gates.specs.Forms.{AreForms};
ghost use Rattle.check_gates.specs.Latches.{AddsGates, AreLatches, gates_at};

use crate::form::Form;
use crate::gate::Gate;
use crate::tops::{row_at, tops_of};
use rtl_flat::act::ProcId;
use rtl_flat::design::Design;
use rtl_flat::expr::SigId;
use std::alloc::Global;
use text_ground::memory::Memory;

/// Some numbers in order, each once.
fn rising(alloc: Global, all: &[u32]) -> Result<Vec<u32>, Memory>
    ensures rising { IfOk result (λ found. AreRising found.items) }
    ensures each { IfOk result (λ found. (k : ℕ) → Among found.items k ↔ Among all.now k) }
{
    let mut found = Vec::new(alloc);
    found.extend_from_slice(all)?;
    found.sort_unstable();
    found.dedup();
    Ok(found)
}

/// Adds the gates of a process, one for each input.
fn push_inputs(p: ProcId, form: Form, inputs: &[u32], gates: &mut Vec<Gate>) -> Result<(), Memory>
    ensures { OnOk result (gates_of gates.new.items
        ≡ gates_of gates.old.items ++ gates_at p.0 form inputs.now) }
{
    for input in inputs {
        gates.push(Gate {
            process: p,
            signal: form.signal,
            input: SigId(*input),
            opens_at: form.opens_at,
        })?;
    }
    Ok(())
}

/// Adds the gates of a process, one for each top input that its signal comes from.
fn push_gates(
    alloc: Global,
    p: ProcId,
    form: Form,
    tops: &[u32],
    gates: &mut Vec<Gate>,
) -> Result<(), Memory>
    ensures { OnOk result (AddsGates p.0 form tops.now (gates_of gates.old.items)
        (gates_of gates.new.items)) }
{
    let inputs = rising(alloc, tops)?;
    push_inputs(p, form, &inputs, gates)
}

/// All latches with a gate from outside, admitted or not.
pub(crate) fn latches(
    alloc: Global,
    design: &Design,
    forms: &[Option<Form>],
) -> Result<Vec<Gate>, Memory>
    requires { AreForms (flat design.now) (length (flat design.now).tasks) forms.now }
    ensures { let d = flat design.now in
        IfOk result (λ gates. AreLatches d (length d.tasks) (gates_of gates.items)) }
{
    let tops = tops_of(alloc, design)?;
    let mut gates = Vec::new(alloc);
    for number in 0..forms.len() {
        if let Some(form) = forms[number] {
            let p = ProcId(number as u32);
            push_gates(alloc, p, form, row_at(&tops, form.signal), &mut gates)?;
        }
    }
    Ok(gates)
}
