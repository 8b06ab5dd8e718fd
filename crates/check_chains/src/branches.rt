// Branches of resets: each register gets one constant, and nothing else is done.

ghost use Rattle.std.specs.Prelude.{ℕ, ◌≡◌, ◌<◌, ◌==◌, ◌↔◌, ◌&&◌, cond, true, not, Some, length, map, IfOk, OnOk};
ghost use Rattle.std.specs.List.{slice_get};
ghost use Rattle.std.specs.Ordering.{nat_cmp};
ghost use Rattle.std.specs.BTreeSet.{contains};
ghost use Rattle.rtl_flat.specs.PathSets.{IsTemporary};
ghost use Rattle.rtl_flat.specs.Process.{Doing, Task, action, body_of};
ghost use Rattle.rtl_flat.specs.WellFormed.{IsBody};
ghost use Rattle.net_model.specs.Cycle as cycle;
ghost use Rattle.rtl_rule.specs.Parts.{all_of, within};
ghost use Rattle.rtl_flat.specs.Flats.{flat};
ghost use Rattle.check_found.specs.Scanned.{AreScans};
ghost use Rattle.check_parts.specs.Reads.{AreUnknowns};
ghost use Rattle.check_chains.specs.Chains as spec;
ghost use Rattle.check_chains.specs.Branches.{AreRegisters, HasBad, has_kept, is_marked};
ghost use Rattle.check_chains.specs.Views.{guard_view};

use crate::chain::{Guard, chain_of};
use crate::constants::reset_of;
use crate::telling::push_if;
use check_found::scans::Scans;
use check_found::sets::written;
use check_parts::reads::unknowns;
use check_parts::rtl_scan::bits::Row;
use check_parts::statements::statements_of;
use rtl_bits::Vec4;
use rtl_flat::act::{Act, ProcId};
use rtl_flat::design::Design;
use rtl_flat::expr::SigId;
use rtl_rule::finding::Finding;
use rtl_rule::rule::Rule;
use std::alloc::Global;
use std::collections::BTreeSet;
use text_ground::memory::Memory;

fn is_marked(marks: &[bool], signal: SigId) -> bool
    ensures { result ≡ is_marked marks.now signal.0 }
{
    marks.get(signal.0 as usize).copied().unwrap_or(false)
}

/// Adds a signal, and tells whether it is new.
fn add(found: &mut BTreeSet<u32>, signal: SigId) -> Result<bool, Memory>
    ensures new { IfOk result (λ new. new ≡ not (contains nat_cmp found.old signal.0)) }
    ensures added { OnOk result ((s : ℕ)
        → contains nat_cmp found.new s ≡ cond (s == signal.0) true (contains nat_cmp found.old s)) }
{
    let new = found.insert(signal.0)?;
    Ok(new)
}

/// Adds a signal that isn't marked.
fn keep(found: &mut BTreeSet<u32>, marks: &[bool], signal: SigId) -> Result<(), Memory>
    ensures { OnOk result ((s : ℕ) → contains nat_cmp found.new s
        ≡ cond (not (is_marked marks.now signal.0) && (s == signal.0)) true
        (contains nat_cmp found.old s)) }
{
    if is_marked(marks, signal) {
        return Ok(());
    }
    add(found, signal)?;
    Ok(())
}

/// The signals of rows that aren't marked.
fn kept(alloc: Global, rows: &[Row], marks: &[bool]) -> Result<BTreeSet<u32>, Memory>
    ensures { IfOk result (λ found. (s : ℕ)
        → contains nat_cmp found s ≡ has_kept marks.now rows.now s) }
{
    let mut found = BTreeSet::new(alloc);
    for row in rows {
        keep(&mut found, marks, row.signal)?;
    }
    Ok(found)
}

/// The registers of a process: what it may write, but for temporaries.
fn registers(
    alloc: Global,
    design: &Design,
    temporaries: &[bool],
    p: ProcId,
) -> Result<BTreeSet<u32>, Memory>
    requires there { p.0 < length design.now.processes.items }
    requires marked { (s : ℕ) → slice_get temporaries.now s ≡ Some true
        ↔ IsTemporary (flat design.now).signals (flat design.now).tasks s }
    ensures { IfOk result (λ found. (task : Task) → slice_get (flat design.now).tasks p.0
        ≡ Some task → AreRegisters (flat design.now) task.does found) }
{
    let bits = written(alloc, design, p)?;
    kept(alloc, &bits.rows, temporaries)
}

/// Whether a branch gives each register one constant, and does nothing else.
fn is_reset_branch(
    alloc: Global,
    design: &Design,
    unknowns: &[Vec4],
    registers: &BTreeSet<u32>,
    branch: &[Act],
) -> Result<bool, Memory>
    requires unknown { AreUnknowns (flat design.now) unknowns.now }
    requires lawful { IsBody design.now.signals.items (body_of (map action branch.now)) }
    ensures { IfOk result (λ good. (does : Doing)
        → AreRegisters (flat design.now) does registers.now
        → good ≡ true ↔ spec.IsResetBranch (flat design.now) does
        (all_of (body_of (map action branch.now)))) }
{
    let statements = statements_of(alloc, branch)?;
    let mut seen = BTreeSet::new(alloc);
    for one in &statements {
        let Some(signal) = reset_of(alloc, design, unknowns, one)? else {
            return Ok(false);
        };
        if !registers.contains(&signal.0) {
            return Ok(false);
        }
        if !add(&mut seen, signal)? {
            return Ok(false);
        }
    }
    Ok(registers.is_subset(&seen))
}

/// Whether one of some resets has another branch.
fn has_bad(
    alloc: Global,
    design: &Design,
    unknowns: &[Vec4],
    registers: &BTreeSet<u32>,
    resets: &[Guard],
) -> Result<bool, Memory>
    requires unknown { AreUnknowns (flat design.now) unknowns.now }
    requires lawful { (k : ℕ) (guard : cycle.Guard) → slice_get (map guard_view resets.now) k
        ≡ Some guard → IsBody design.now.signals.items guard.branch }
    ensures { IfOk result (λ bad. (does : Doing) → AreRegisters (flat design.now) does registers.now
        → bad ≡ true ↔ HasBad (flat design.now) does (map guard_view resets.now)) }
{
    for guard in resets {
        if !is_reset_branch(alloc, design, unknowns, registers, guard.branch)? {
            return Ok(true);
        }
    }
    Ok(false)
}

/// Whether a process has such a reset, given the signals that are temporaries, and all with every bit x.
pub fn has_bad_reset(
    alloc: Global,
    design: &Design,
    temporaries: &[bool],
    unknowns: &[Vec4],
    p: ProcId,
) -> Result<bool, Memory>
    requires there { p.0 < length design.now.processes.items }
    requires marked { (s : ℕ) → slice_get temporaries.now s ≡ Some true
        ↔ IsTemporary (flat design.now).signals (flat design.now).tasks s }
    requires unknown { AreUnknowns (flat design.now) unknowns.now }
    ensures { IfOk result (λ bad. (task : Task) → slice_get (flat design.now).tasks p.0 ≡ Some task
        → bad ≡ true ↔ spec.IsResetValue (flat design.now) (within (p.0, task) task.does)) }
{
    let does = &design.processes[p.0 as usize].does;
    match chain_of(alloc, design, does)? {
        None => Ok(false),
        Some(chain) => {
            let registers = registers(alloc, design, temporaries, p)?;
            has_bad(alloc, design, unknowns, &registers, &chain.resets)
        }
    }
}

/// Processes with a reset that doesn't give each register one constant, or does something else.
pub fn reset_value(alloc: Global, scans: &Scans) -> Result<Vec<Finding>, Memory>
    requires { AreScans scans.now }
    ensures { IfOk result (λ found. spec.AreResetValue (flat scans.now.design.now) found.items) }
{
    let unknowns = unknowns(alloc, scans.design)?;
    let mut found = Vec::new(alloc);
    for number in 0..scans.design.processes.len() {
        let p = ProcId(number as u32);
        let broken = has_bad_reset(alloc, scans.design, scans.temporaries(), &unknowns, p)?;
        push_if(alloc, scans.design, Rule::ResetValue, p, broken, &mut found)?;
    }
    Ok(found)
}
