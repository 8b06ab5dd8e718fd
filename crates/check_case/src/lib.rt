//! Findings about case statements.
#![tactic(auto)]

mod claims;
mod disjoint;
mod first;
mod unknown;

ghost use Rattle.std.specs.Prelude.{IfOk};
ghost use Rattle.rtl_flat.specs.Flats.{flat};
ghost use Rattle.check_found.specs.Scanned.{AreScans};
ghost use Rattle.check_case.specs.Cases.{AreCaseFindings};

use check_found::order::ranked;
use check_found::scans::Scans;
pub use claims::{full_case, parallel_case};
use rtl_rule::finding::Finding;
use std::alloc::Global;
use text_ground::memory::Memory;
pub use unknown::unknown_item;

/// All findings about case statements, in their order.
///
/// Fails where memory runs out.
pub fn check(alloc: Global, scans: &Scans) -> Result<Vec<Finding>, Memory>
    requires { AreScans scans.now }
    ensures { IfOk result (λ found. AreCaseFindings (flat scans.now.design.now) found.items) }
{
    let mut found = full_case(alloc, scans.design)?;
    let parallel = parallel_case(alloc, scans.design)?;
    let unknown = unknown_item(alloc, scans)?;
    found.extend_from_slice(&parallel)?;
    found.extend_from_slice(&unknown)?;
    ranked(found)
}
