//! The order of processes without edges.

ghost use Rattle.std.specs.Prelude.{IfOk};
ghost use Rattle.rtl_flat.specs.Flats.{flat};
ghost use Rattle.net_order.specs.Order.{IsRanking};

use crate::rank::{lost, ranked};
use check_found::rtl_scan::feeds::{Waits, arrows};
use check_found::rtl_scan::graph::depths;
use rtl_flat::act::ProcId;
use rtl_flat::design::Design;
use rtl_flat::expr::SigId;
use std::alloc::Global;
use text_ground::memory::Memory;

/// The answer of `order`.
#[derive(Drop)]
pub enum Ranking {
    /// All processes without edges, each behind those that feed it.
    Order(Vec<ProcId>),
    /// The least signal that a process on or behind a cycle may write a bit of.
    Cyclic(SigId),
}

/// In which order processes without edges are worked out: one feeds another by a bit that it may write, and that the other
/// reads before it has written it.
pub fn order(alloc: Global, design: &Design) -> Result<Ranking, Memory>
    ensures { IfOk result (λ ranking. IsRanking (flat design.now) ranking) }
{
    let rows = arrows(alloc, design, Waits::Reads)?;
    let depths = depths(alloc, &rows)?;
    match lost(alloc, design, &depths)? {
        Some(signal) => Ok(Ranking::Cyclic(signal)),
        None => Ok(Ranking::Order(ranked(alloc, design, &depths)?)),
    }
}
