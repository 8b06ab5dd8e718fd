// The lists of findings of the rules on assignments and drivers, put together.

ghost use Rattle.std.specs.Prelude.{◌≡◌, ◌++◌, IfOk};
ghost use Rattle.rtl_flat.specs.Flats.{flat};
ghost use Rattle.check_gates.specs.Admitted.{AreGates, gates_of};
ghost use Rattle.check_loops.specs.check_found.Scanned.{AreScans};
ghost use Rattle.check_assign.specs.Findings.{AreAssignFindings};
ghost use Rattle.check_assign.specs.Lists.{AreAssigned, AreDriven, AreHeld};

use crate::drivers::{Drivers, undriven_beside};
use crate::kinds::{blocking_state, mixed_assign, nonblocking_comb};
use crate::latches::latch_inferred;
use crate::literals::tristate;
use crate::loops::comb_loop;
use check_gates::Gate;
use check_loops::check_found::order::ranked;
use check_loops::check_found::scans::Scans;
use rtl_rule::finding::Finding;
use std::alloc::Global;
use text_ground::memory::Memory;

fn joined(mut found: Vec<Finding>, more: Vec<Finding>) -> Result<Vec<Finding>, Memory>
    ensures { IfOk result (λ all. all.items ≡ found.items ++ more.items) }
{
    found.extend_from_slice(&more)?;
    Ok(found)
}

/// Which kinds of assignments there are.
fn assigned(alloc: Global, scans: &Scans) -> Result<Vec<Finding>, Memory>
    requires { AreScans scans.now }
    ensures { IfOk result (λ found. AreAssigned (flat scans.now.design.now) found.items) }
{
    let blocking = blocking_state(alloc, scans)?;
    let nonblocking = nonblocking_comb(alloc, scans.design)?;
    let mixed = mixed_assign(alloc, scans.design)?;
    let found = joined(blocking, nonblocking)?;
    joined(found, mixed)
}

/// What drives signals.
fn driven(alloc: Global, scans: &Scans) -> Result<Vec<Finding>, Memory>
    requires { AreScans scans.now }
    ensures { IfOk result (λ found. AreDriven (flat scans.now.design.now) found.items) }
{
    let Drivers { several, driven } = Drivers::of(alloc, scans)?;
    let none = undriven_beside(alloc, scans.design, &driven)?;
    let looped = comb_loop(alloc, scans)?;
    let found = joined(several, none)?;
    joined(found, looped)
}

/// What keeps its value without a clock, or lets go of it.
fn held(alloc: Global, scans: &Scans, gates: &[Gate]) -> Result<Vec<Finding>, Memory>
    requires scans { AreScans scans.now }
    requires gates { AreGates (flat scans.now.design.now) (gates_of gates.now) }
    ensures { IfOk result (λ found. AreHeld (flat scans.now.design.now) found.items) }
{
    let latches = latch_inferred(alloc, scans, gates)?;
    let literals = tristate(alloc, scans.design)?;
    joined(latches, literals)
}

/// All findings about assignments and drivers, in the order of findings.
///
/// Fails where memory runs out.
pub fn check(alloc: Global, scans: &Scans, gates: &[Gate]) -> Result<Vec<Finding>, Memory>
    requires scans { AreScans scans.now }
    requires gates { AreGates (flat scans.now.design.now) (gates_of gates.now) }
    ensures { IfOk result (λ found. AreAssignFindings (flat scans.now.design.now) found.items) }
{
    let assigned = assigned(alloc, scans)?;
    let driven = driven(alloc, scans)?;
    let held = held(alloc, scans, gates)?;
    let first = joined(assigned, driven)?;
    let found = joined(first, held)?;
    ranked(found)
}
