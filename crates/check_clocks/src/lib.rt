//! Findings about clocks and resets as signals.
#![tactic(auto)]

ghost use Rattle.std.specs.Prelude.{IfOk};
ghost use Rattle.rtl_flat.specs.Flats.{flat};
ghost use Rattle.net_model.specs.Gates.{InCone};
ghost use Rattle.check_gates.specs.check_chains.check_found.Scanned.{AreScans};
ghost use Rattle.check_gates.specs.Admitted.{AreGates, gates_of};
ghost use Rattle.check_clocks.specs.Findings.{AreClockFindings};

mod clock_data;
pub mod cone;
mod data;
pub mod derived;
pub mod roles;
mod uses;

use check_gates::Gate;
use check_gates::check_chains::check_found::order::ranked;
use check_gates::check_chains::check_found::scans::Scans;
pub use clock_data::clock_as_data;
pub use derived::derived_clock;
use rtl_rule::finding::Finding;
use std::alloc::Global;
use text_ground::memory::Memory;

/// All findings about clocks, in the order of findings.
///
/// Fails where memory runs out.
pub fn check(alloc: Global, scans: &Scans, gates: &[Gate]) -> Result<Vec<Finding>, Memory>
    requires scans { AreScans scans.now }
    requires gates { AreGates (flat scans.now.design.now) (gates_of gates.now) }
    ensures { let d = flat scans.now.design.now in
        IfOk result (λ found. AreClockFindings (InCone d) d found.items) }
{
    let mut found = derived_clock(alloc, scans.design)?;
    let data = clock_as_data(alloc, scans, gates)?;
    found.extend_from_slice(&data)?;
    ranked(found)
}

// Passed on to the crates above.
pub use check_gates;
pub use check_gates::check_chains;
pub use check_gates::check_chains::check_parts;
