// Labels with a bit that never matches.

ghost use Rattle.std.specs.Prelude.{ℕ, ◌≡◌, ◌<◌, [], ◌∷◌, Some, length, map, IfOk, OnOk};
ghost use Rattle.std.specs.List.{list_any, slice_get};
ghost use Rattle.rtl_flat.specs.Expression.{tree};
ghost use Rattle.rtl_flat.specs.Process.{Task, action, task};
ghost use Rattle.rtl_rule.specs.Parts.{first_of, is_literal_with, within, written};
ghost use Rattle.rtl_flat.specs.Flats.{Flat, flat};
ghost use Rattle.check_found.specs.Gathered.{task_sites};
ghost use Rattle.check_found.specs.Scanned.{AreScans};
ghost use Rattle.check_case.specs.Cases.{AreUnknownItem, label_in, never_matches, own_kinds};
ghost use Rattle.check_case.specs.Claims.{GetsUnknown, kinds_in, kinds_of};

use check_found::scans::Scans;
use check_parts::expressions::own_labels;
use check_parts::rtl_scan::values::literal_of;
use check_parts::statements::statements;
use rtl_bits::{Bit, Vec4};
use rtl_flat::act::{Act, CaseKind, ProcId, Process};
use rtl_flat::expr::{SigId, SizedExpr};
use rtl_rule::finding::Finding;
use rtl_rule::rule::Rule;
use std::alloc::Global;
use text_ground::memory::Memory;

/// Whether a bit of a label matches no known bit.
fn never_matches(kind: CaseKind, bit: Bit) -> bool
    ensures { result ≡ never_matches kind bit }
{
    match kind {
        CaseKind::Plain => matches!(bit, Bit::X | Bit::Z),
        CaseKind::Z => matches!(bit, Bit::X),
        CaseKind::X => false,
    }
}

fn has_unmatched(kind: CaseKind, bits: Vec4) -> bool
    ensures { result ≡ list_any (never_matches kind) bits }
{
    for at in 0..bits.width() {
        if never_matches(kind, bits.bit(at)) {
            return true;
        }
    }
    false
}

/// Whether a label is a literal with such a bit.
fn is_unknown_item(kind: CaseKind, label: &SizedExpr) -> bool
    ensures { result ≡ is_literal_with (never_matches kind) (tree label.now) }
{
    match literal_of(label) {
        None => false,
        Some(bits) => has_unmatched(kind, bits),
    }
}

fn push_label(
    process: &Process,
    signal: Option<SigId>,
    kind: CaseKind,
    label: &SizedExpr,
    found: &mut Vec<Finding>,
) -> Result<(), Memory>
    ensures { OnOk result ((d : Flat) (p : ℕ)
        → signal ≡ first_of d (written d (task process.now).does)
        → GetsUnknown d (within (p, task process.now) (label_in kind (tree label.now)) ∷ [])
        found.old.items found.new.items) }
{
    if !is_unknown_item(kind, label) {
        return Ok(());
    }
    found.push(Finding {
        rule: Rule::UnknownItem,
        signal,
        instance: process.instance,
        spot: label.spot,
    })?;
    Ok(())
}

fn push_labels(
    process: &Process,
    signal: Option<SigId>,
    kind: CaseKind,
    labels: &[&SizedExpr],
    found: &mut Vec<Finding>,
) -> Result<(), Memory>
    ensures { OnOk result ((d : Flat) (p : ℕ)
        → signal ≡ first_of d (written d (task process.now).does)
        → let labels = map (label_in kind) (map (λ e. tree e.now) labels.now) in
        GetsUnknown d (map (within (p, task process.now)) labels)
        found.old.items found.new.items) }
{
    for label in labels {
        push_label(process, signal, kind, label, found)?;
    }
    Ok(())
}

/// The kind of a case, and no matter what of another statement.
fn kind_of(one: &Act) -> CaseKind
    ensures { kinds_of result (action one.now) ≡ own_kinds (action one.now) }
{
    match one {
        Act::Set {
            target: _,
            value: _,
            delayed: _,
            spot: _,
        } => CaseKind::Plain,
        Act::If {
            test: _,
            yes: _,
            no: _,
            spot: _,
        } => CaseKind::Plain,
        Act::Case {
            kind,
            full: _,
            parallel: _,
            selector: _,
            items: _,
            fallback: _,
            spot: _,
        } => *kind,
        Act::Block(_) => CaseKind::Plain,
    }
}

fn push_statement(
    alloc: Global,
    process: &Process,
    signal: Option<SigId>,
    one: &Act,
    found: &mut Vec<Finding>,
) -> Result<(), Memory>
    ensures { OnOk result ((d : Flat) (p : ℕ)
        → signal ≡ first_of d (written d (task process.now).does)
        → GetsUnknown d (map (within (p, task process.now)) (own_kinds (action one.now)))
        found.old.items found.new.items) }
{
    let labels = own_labels(alloc, one)?;
    push_labels(process, signal, kind_of(one), &labels, found)
}

fn push_unknown(
    alloc: Global,
    scans: &Scans,
    p: ProcId,
    found: &mut Vec<Finding>,
) -> Result<(), Memory>
    requires scans { AreScans scans.now }
    requires there { p.0 < length scans.now.design.now.processes.items }
    ensures { let d = flat scans.now.design.now in
        OnOk result ((task : Task) → slice_get d.tasks p.0 ≡ Some task
        → GetsUnknown d (task_sites kinds_in p.0 task)
        found.old.items found.new.items) }
{
    let process = &scans.design.processes[p.0 as usize];
    let all = statements(alloc, &process.does)?;
    let signal = scans.first_written(p);
    for one in &all {
        push_statement(alloc, process, signal, one, found)?;
    }
    Ok(())
}

/// Labels that are a literal with a bit which matches nothing.
pub fn unknown_item(alloc: Global, scans: &Scans) -> Result<Vec<Finding>, Memory>
    requires { AreScans scans.now }
    ensures { IfOk result (λ found. AreUnknownItem (flat scans.now.design.now) found.items) }
{
    let mut found = Vec::new(alloc);
    for number in 0..scans.design.processes.len() {
        push_unknown(alloc, scans, ProcId(number as u32), &mut found)?;
    }
    Ok(found)
}
