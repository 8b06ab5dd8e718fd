// Findings at processes.

ghost use Rattle.std.specs.Prelude.{◌≡◌, ◌<◌, ◌++◌, ◌∷◌, [], Some, if◌then◌else◌, length, IfOk, OnOk};
ghost use Rattle.std.specs.List.{slice_get};
ghost use Rattle.rtl_flat.specs.Process.{Task};
ghost use Rattle.rtl_flat.specs.Flats.{flat};
ghost use Rattle.check_chains.specs.Inner.{finding_of};

use check_found::sets::first_written;
use rtl_flat::act::ProcId;
use rtl_flat::design::Design;
use rtl_rule::finding::Finding;
use rtl_rule::rule::Rule;
use std::alloc::Global;
use text_ground::memory::Memory;

/// The finding of a rule at a process, with the first signal that the process may write.
fn finding_of(alloc: Global, design: &Design, rule: Rule, p: ProcId) -> Result<Finding, Memory>
    requires { p.0 < length design.now.processes.items }
    ensures { IfOk result (λ finding. (task : Task) → slice_get (flat design.now).tasks p.0
        ≡ Some task
        → finding ≡ finding_of (flat design.now) rule p.0 task) }
{
    let process = &design.processes[p.0 as usize];
    let signal = first_written(alloc, design, p)?;
    Ok(Finding {
        rule,
        signal,
        instance: process.instance,
        spot: process.spot,
    })
}

/// Adds the finding of a rule that a process breaks.
pub(crate) fn push_if(
    alloc: Global,
    design: &Design,
    rule: Rule,
    p: ProcId,
    broken: bool,
    found: &mut Vec<Finding>,
) -> Result<(), Memory>
    requires { p.0 < length design.now.processes.items }
    ensures { OnOk result ((task : Task) → slice_get (flat design.now).tasks p.0 ≡ Some task
        → found.new.items ≡ found.old.items
        ++ (if broken then finding_of (flat design.now) rule p.0 task ∷ [] else [])) }
{
    if !broken {
        return Ok(());
    }
    let finding = finding_of(alloc, design, rule, p)?;
    found.push(finding)?;
    Ok(())
}
