// The rules that look at all expressions of a process, in one pass over the processes.

ghost use Rattle.std.specs.Prelude.{◌≡◌, ◌<◌, length, Some, IfOk, OnOk};
ghost use Rattle.std.specs.List.{slice_get};
ghost use Rattle.rtl_flat.specs.Process.{Task};
ghost use Rattle.rtl_flat.specs.Flats.{flat};
ghost use Rattle.check_chains.specs.check_parts.Reads.{AreUnknowns};
ghost use Rattle.check_unknown.specs.Parts.{AddsProcess, AreNodeFindings};

use crate::divisors::push_divisions;
use crate::expressions::{process_nodes, push_equalities, push_literal};
use crate::selects::push_misses;
use check_chains::check_parts::reads::unknowns;
use rtl_bits::Vec4;
use rtl_flat::act::ProcId;
use rtl_flat::design::Design;
use rtl_rule::finding::Finding;
use std::alloc::Global;
use text_ground::memory::Memory;

/// The findings of each of these rules.
#[derive(Drop)]
pub(crate) struct NodeFindings {
    pub(crate) literals: Vec<Finding>,
    pub(crate) ranges: Vec<Finding>,
    pub(crate) divisions: Vec<Finding>,
    pub(crate) equalities: Vec<Finding>,
}

impl NodeFindings {
    /// Adds those of a process, whose expressions are listed once for all rules.
    fn add(
        &mut self,
        alloc: Global,
        design: &Design,
        unknowns: &[Vec4],
        p: ProcId,
    ) -> Result<(), Memory>
        requires unknown { AreUnknowns (flat design.now) unknowns.now }
        requires there { p.0 < length design.now.processes.items }
        ensures { let d = flat design.now in
            OnOk result ((task : Task) → slice_get d.tasks p.0 ≡ Some task
            → AddsProcess d p.0 task self.old self.new) }
    {
        let all = process_nodes(alloc, design, p)?;
        push_literal(alloc, design, p, &all, &mut self.literals)?;
        push_misses(alloc, design, p, &all, &mut self.ranges)?;
        push_divisions(alloc, design, unknowns, p, &all, &mut self.divisions)?;
        push_equalities(alloc, design, p, &all, &mut self.equalities)
    }
}

/// The findings of these rules in a design.
///
/// Fails where memory runs out.
pub(crate) fn node_findings(alloc: Global, design: &Design) -> Result<NodeFindings, Memory>
    ensures { IfOk result (λ found. AreNodeFindings (flat design.now) found) }
{
    let unknowns = unknowns(alloc, design)?;
    let mut found = NodeFindings {
        literals: Vec::new(alloc),
        ranges: Vec::new(alloc),
        divisions: Vec::new(alloc),
        equalities: Vec::new(alloc),
    };
    for p in 0..design.processes.len() {
        found.add(alloc, design, &unknowns, ProcId(p as u32))?;
    }
    Ok(found)
}
