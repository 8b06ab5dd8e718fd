//! The nodes of a graph that are on a cycle, and so the processes that feed themselves over others.
#![tactic(auto)]

mod certificate;
mod groups;
mod level;
mod order;
mod spread;
mod turned;

ghost use Rattle.std.specs.Prelude.{IfOk};
ghost use Rattle.check_found.specs.rtl_scan.Graph.{AreRows};
ghost use Rattle.check_loops.specs.Rounds.{AreOnCycles};

use crate::certificate::certified;
use crate::groups::groups_of;
use crate::order::finishing_order;
use crate::spread::searched;
use crate::turned::turned;
use std::alloc::Global;
use text_ground::memory::Memory;

/// Whether each node is on a cycle. A row has the nodes from which arrows come to its node.
///
/// Two searches put the nodes into groups that reach one another, and a look at each arrow shows that none leads
/// back to an earlier group. That takes time in proportion to the arrows. Were a group wrong, which no proof rules
/// out, each node would be searched by itself.
pub(crate) fn on_cycles(alloc: Global, rows: &[Vec<u32>]) -> Result<Vec<bool>, Memory>
    requires { AreRows rows.now }
    ensures { IfOk result (λ answers. AreOnCycles rows.now answers.items) }
{
    let turned = turned(alloc, rows)?;
    let order = finishing_order(alloc, rows)?;
    let forth = groups_of(alloc, &turned, &order, &[])?;
    let back = groups_of(alloc, rows, &order, &forth)?;
    match certified(alloc, rows, &turned, &forth, &back)? {
        Some(answers) => Ok(answers),
        None => searched(alloc, rows),
    }
}

pub use level::loops;

// Passed on to the crates above.
pub use check_found;
pub use check_found::rtl_scan;
pub use check_found::rtl_scan::rtl_expr;
