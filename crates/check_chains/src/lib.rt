//! The chain of resets of a clocked process, and findings about it.
#![tactic(auto)]

ghost use Rattle.std.specs.Prelude.{IfOk};
ghost use Rattle.rtl_flat.specs.Flats.{flat};
ghost use Rattle.check_found.specs.Scanned.{AreScans};
ghost use Rattle.check_chains.specs.Findings.{AreResetFindings};

pub mod branches;
pub mod chain;
mod choice;
pub mod constants;
pub mod shapes;
mod telling;
pub mod tested;

pub use branches::reset_value;
use check_found::order::ranked;
use check_found::scans::Scans;
use rtl_rule::finding::Finding;
pub use shapes::{async_pair, reset_polarity, reset_shape};
use std::alloc::Global;
use text_ground::memory::Memory;

/// All findings about resets, in the order of findings.
///
/// Fails where memory runs out.
pub fn check(alloc: Global, scans: &Scans) -> Result<Vec<Finding>, Memory>
    requires { AreScans scans.now }
    ensures { IfOk result (λ found. AreResetFindings (flat scans.now.design.now) found.items) }
{
    let mut found = reset_shape(alloc, scans.design)?;
    let polarity = reset_polarity(alloc, scans.design)?;
    let pair = async_pair(alloc, scans.design)?;
    let value = reset_value(alloc, scans)?;
    found.extend_from_slice(&polarity)?;
    found.extend_from_slice(&pair)?;
    found.extend_from_slice(&value)?;
    ranked(found)
}

// Passed on to the crates above.
pub use check_found;
pub use check_parts;
pub use check_parts::rtl_scan;
