// All findings about x, z and what synthesis ignores.

ghost use Rattle.std.specs.Prelude.{◌≡◌, IfOk, OnOk};
ghost use Rattle.rtl_flat.specs.Flats.{flat, parts};
ghost use Rattle.check_chains.specs.check_found.Scanned.{AreScans};
ghost use Rattle.check_gates.specs.Admitted.{AreGates, gates_of};
ghost use Rattle.check_unknown.specs.Parts.{AreOfChoices, AreOfDropped, AreOfExpressions};
ghost use Rattle.check_unknown.specs.Unknowns.{AreUnknownFindings};

use crate::choices::{wild_selector, x_optimism};
use crate::doubt::doubtful;
use crate::dropped::{delay_ignored, initial_ignored, translate_off};
use crate::node_rules::node_findings;
use check_chains::check_found::order::ranked;
use check_chains::check_found::scans::Scans;
use check_gates::Gate;
use rtl_flat::design::Design;
use rtl_rule::finding::Finding;
use std::alloc::Global;
use text_ground::memory::Memory;

/// The findings of literals, selects and operators.
fn of_expressions(alloc: Global, design: &Design) -> Result<Vec<Finding>, Memory>
    ensures { IfOk result (λ found. AreOfExpressions (flat design.now) found.items) }
{
    let all = node_findings(alloc, design)?;
    let mut found = all.literals;
    found.extend_from_slice(&all.ranges)?;
    found.extend_from_slice(&all.divisions)?;
    found.extend_from_slice(&all.equalities)?;
    Ok(found)
}

/// Adds the findings of what synthesis ignores.
fn push_dropped(alloc: Global, design: &Design, found: &mut Vec<Finding>) -> Result<(), Memory>
    ensures { OnOk result (AreOfDropped (parts design.now) found.old.items found.new.items) }
{
    let delay = delay_ignored(alloc, design)?;
    let initial = initial_ignored(alloc, design)?;
    let region = translate_off(alloc, design)?;
    found.extend_from_slice(&delay)?;
    found.extend_from_slice(&initial)?;
    found.extend_from_slice(&region)?;
    Ok(())
}

/// Adds the findings of what may be x.
fn push_choices(
    alloc: Global,
    scans: &Scans,
    gates: &[Gate],
    found: &mut Vec<Finding>,
) -> Result<(), Memory>
    requires scans { AreScans scans.now }
    requires gates { AreGates (flat scans.now.design.now) (gates_of gates.now) }
    ensures { let d = flat scans.now.design.now in
        OnOk result (AreOfChoices d found.old.items found.new.items) }
{
    let marks = doubtful(alloc, scans, gates)?;
    let optimism = x_optimism(alloc, scans.design, &marks)?;
    let wild = wild_selector(alloc, scans.design, &marks)?;
    found.extend_from_slice(&optimism)?;
    found.extend_from_slice(&wild)?;
    Ok(())
}

/// All findings about x, z and what synthesis ignores, in their order.
///
/// Fails where memory runs out.
pub fn check(alloc: Global, scans: &Scans, gates: &[Gate]) -> Result<Vec<Finding>, Memory>
    requires scans { AreScans scans.now }
    requires gates { AreGates (flat scans.now.design.now) (gates_of gates.now) }
    ensures { IfOk result (λ found. AreUnknownFindings (parts scans.now.design.now) found.items) }
{
    let mut found = of_expressions(alloc, scans.design)?;
    push_dropped(alloc, scans.design, &mut found)?;
    push_choices(alloc, scans, gates, &mut found)?;
    ranked(found)
}
