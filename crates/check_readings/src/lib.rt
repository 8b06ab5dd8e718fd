//! Findings about texts that the desk reads in one way and other tools in another.
#![tactic(auto)]

mod lists;
mod notes;
mod order;
mod selects;
mod targets;

ghost use Rattle.std.specs.Prelude.{IfOk};
ghost use Rattle.rtl_flat.specs.Flats.{parts};
ghost use Rattle.check_readings.specs.Readings.{AreReadingFindings};

use crate::lists::list_index;
use crate::notes::{push_comments, push_notes};
use crate::order::once;
use crate::selects::whole_select;
use crate::targets::target_index;
use rtl_flat::design::Design;
use rtl_rule::finding::Finding;
use std::alloc::Global;
use text_ground::memory::Memory;

/// All findings about texts that other tools read otherwise, in their order, equal ones once.
///
/// Fails where memory runs out.
pub fn check(alloc: Global, design: &Design) -> Result<Vec<Finding>, Memory>
    ensures { IfOk result (λ found. AreReadingFindings (parts design.now) found.items) }
{
    let mut found = target_index(alloc, design)?;
    let listed = list_index(alloc, design)?;
    let selects = whole_select(alloc, design)?;
    found.extend_from_slice(&listed)?;
    found.extend_from_slice(&selects)?;
    push_comments(&design.dropped, &mut found)?;
    push_notes(&design.notes, &mut found)?;
    once(found)
}
