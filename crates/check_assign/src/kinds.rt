// Assignments of the wrong kind: blocking ones to what a clock stores, nonblocking ones without a
// clock, and both to one variable.

ghost use Rattle.std.specs.Prelude.{ℕ, ◌≡◌, IfOk, OnOk};
ghost use Rattle.rtl_flat.specs.Process.{doing, task};
ghost use Rattle.rtl_flat.specs.Flats.{flat};
ghost use Rattle.check_loops.specs.check_found.Scanned.{AreScans};
ghost use Rattle.rtl_rule.specs.Parts.{is_clocked};
ghost use Rattle.check_assign.specs.Assigned.{AreBlockingState, AreMixedAssign, AreNonblockingComb, IsBlockingState, IsMixedAssign, IsNonblockingComb, blocking_state_at, is_comb, mixed_assign_at, nonblocking_comb_at};
ghost use Rattle.check_loops.specs.check_found.Gathered.{Gets, signal_numbers, task_sites};
ghost use Rattle.check_assign.specs.Kept.{AreTemporaries};

use crate::targets::first_targets;
use check_loops::check_found::marks::Among;
use check_loops::check_found::scans::Scans;
use rtl_flat::act::{Does, Process};
use rtl_flat::design::Design;
use rtl_rule::finding::Finding;
use rtl_rule::rule::Rule;
use std::alloc::Global;
use text_ground::memory::Memory;

/// Whether a process is a body with a level list.
pub(crate) fn is_comb(does: &Does) -> bool
    ensures { result ≡ is_comb (doing does.now) }
{
    match does {
        Does::Assign {
            target: _,
            value: _,
        } => false,
        Does::Comb { list: _, body: _ } => true,
        Does::Edge { events: _, body: _ } => false,
    }
}

/// Whether a process is a body with an edge.
fn is_clocked(does: &Does) -> bool
    ensures { result ≡ is_clocked (doing does.now) }
{
    match does {
        Does::Assign {
            target: _,
            value: _,
        } => false,
        Does::Comb { list: _, body: _ } => false,
        Does::Edge { events: _, body: _ } => true,
    }
}

fn push_blocking(
    alloc: Global,
    design: &Design,
    temporaries: &[bool],
    process: &Process,
    found: &mut Vec<Finding>,
) -> Result<(), Memory>
    requires { AreTemporaries (flat design.now) temporaries.now }
    ensures { let d = flat design.now in OnOk result ((p : ℕ) →
        Gets (IsBlockingState d) (blocking_state_at d)
        (task_sites (signal_numbers d) p (task process.now))
        found.old.items found.new.items) }
{
    if !is_clocked(&process.does) {
        return Ok(());
    }
    let now = first_targets(alloc, design, &process.does, false)?;
    now.push(
        Rule::BlockingState,
        process,
        Among::Kept(temporaries),
        found,
    )
}

/// Variables that a clocked body writes by blocking assignments and that aren't temporaries.
///
/// Fails where memory runs out.
pub fn blocking_state(alloc: Global, scans: &Scans) -> Result<Vec<Finding>, Memory>
    requires { AreScans scans.now }
    ensures { IfOk result (λ found. AreBlockingState (flat scans.now.design.now) found.items) }
{
    let temporaries = scans.temporaries();
    let mut found = Vec::new(alloc);
    for process in &scans.design.processes {
        push_blocking(alloc, scans.design, temporaries, process, &mut found)?;
    }
    Ok(found)
}

fn push_nonblocking(
    alloc: Global,
    design: &Design,
    process: &Process,
    found: &mut Vec<Finding>,
) -> Result<(), Memory>
    ensures { let d = flat design.now in OnOk result ((p : ℕ) →
        Gets (IsNonblockingComb d) (nonblocking_comb_at d)
        (task_sites (signal_numbers d) p (task process.now))
        found.old.items found.new.items) }
{
    if !is_comb(&process.does) {
        return Ok(());
    }
    let late = first_targets(alloc, design, &process.does, true)?;
    late.push(Rule::NonblockingComb, process, Among::All, found)
}

/// Variables that a body with a level list writes by nonblocking assignments.
///
/// Fails where memory runs out.
pub fn nonblocking_comb(alloc: Global, design: &Design) -> Result<Vec<Finding>, Memory>
    ensures { IfOk result (λ found. AreNonblockingComb (flat design.now) found.items) }
{
    let mut found = Vec::new(alloc);
    for process in &design.processes {
        push_nonblocking(alloc, design, process, &mut found)?;
    }
    Ok(found)
}

fn push_mixed(
    alloc: Global,
    design: &Design,
    process: &Process,
    found: &mut Vec<Finding>,
) -> Result<(), Memory>
    ensures { let d = flat design.now in OnOk result ((p : ℕ) →
        Gets (IsMixedAssign d) (mixed_assign_at d)
        (task_sites (signal_numbers d) p (task process.now))
        found.old.items found.new.items) }
{
    let late = first_targets(alloc, design, &process.does, true)?;
    // Most processes assign in one way alone.
    if late.is_empty() {
        return Ok(());
    }
    let now = first_targets(alloc, design, &process.does, false)?;
    now.push(Rule::MixedAssign, process, Among::Marked(&late), found)
}

/// Variables that a process writes in both ways.
///
/// Fails where memory runs out.
pub fn mixed_assign(alloc: Global, design: &Design) -> Result<Vec<Finding>, Memory>
    ensures { IfOk result (λ found. AreMixedAssign (flat design.now) found.items) }
{
    let mut found = Vec::new(alloc);
    for process in &design.processes {
        push_mixed(alloc, design, process, &mut found)?;
    }
    Ok(found)
}
