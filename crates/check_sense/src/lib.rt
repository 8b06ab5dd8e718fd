//! Findings about sensitivity lists.
#![tactic(auto)]

mod edges;
mod missing;
mod waking;

ghost use Rattle.std.specs.Prelude.{IfOk};
ghost use Rattle.rtl_flat.specs.Flats.{flat};
ghost use Rattle.check_found.specs.Scanned.{AreScans};
ghost use Rattle.check_sense.specs.Sense.{AreSenseFindings};

use check_found::order::ranked;
use check_found::scans::Scans;
pub use edges::mixed_edges;
pub use missing::sense_missing;
use rtl_rule::finding::Finding;
use std::alloc::Global;
use text_ground::memory::Memory;
pub use waking::never_wakes;

/// All findings about sensitivity lists, in their order.
pub fn check(alloc: Global, scans: &Scans) -> Result<Vec<Finding>, Memory>
    requires { AreScans scans.now }
    ensures { IfOk result (λ found. AreSenseFindings (flat scans.now.design.now) found.items) }
{
    let mut found = sense_missing(alloc, scans)?;
    let never = never_wakes(alloc, scans)?;
    let mixed = mixed_edges(alloc, scans.design)?;
    found.extend_from_slice(&never)?;
    found.extend_from_slice(&mixed)?;
    ranked(found)
}

// Passed on to the crates above.
pub use check_found;
