//! The latches with a gate from outside that a design has.

ghost use Rattle.std.specs.Prelude.{◌≡◌, ◌++◌, IfOk, OnOk};
ghost use Rattle.std.specs.List.{filter_map, list_any};
ghost use Rattle.std.specs.Option.{is_some};
ghost use Rattle.rtl_flat.specs.Flats.{flat};
ghost use Rattle.check_chains.specs.check_found.Scanned.{AreScans};
ghost use Rattle.check_gates.specs.Admitted.{AreGates, gates_of};
ghost use Rattle.check_gates.specs.Latches.{kept};

use crate::form::{Form, forms};
use crate::gate::Gate;
use crate::inputs::Inputs;
use crate::latches::latches;
use check_chains::check_found::scans::Scans;
use std::alloc::Global;
use text_ground::memory::Memory;

/// Those of some latches that are admitted.
fn admitted(alloc: Global, inputs: &Inputs, gates: &[Gate]) -> Result<Vec<Gate>, Memory>
    ensures { IfOk result (λ found. found.items ≡ filter_map (kept inputs.now) gates.now) }
{
    let mut found = Vec::new(alloc);
    for gate in gates {
        if inputs.admits(gate) {
            found.push(*gate)?;
        }
    }
    Ok(found)
}

/// The latches of a design whose gate is an input of the top that is no clock and no reset, where all latches of that
/// input are open at one value: by process, and by input.
///
/// Fails where memory runs out.
pub fn gates(alloc: Global, scans: &Scans) -> Result<Vec<Gate>, Memory>
    requires { AreScans scans.now }
    ensures { IfOk result (λ gates. AreGates (flat scans.now.design.now) (gates_of gates.items)) }
{
    let forms = forms(alloc, scans)?;
    // Most designs have no latch: then neither connections nor clocks are looked at.
    if !have_some(&forms) {
        return Ok(Vec::new(alloc));
    }
    let latches = latches(alloc, scans.design, &forms)?;
    let inputs = Inputs::of(alloc, scans, &latches)?;
    admitted(alloc, &inputs, &latches)
}

/// Whether some process has the form of a latch.
fn have_some(forms: &[Option<Form>]) -> bool
    ensures { result ≡ list_any is_some forms.now }
{
    forms.iter().any(|form| form.is_some())
}
