// Conditions, selectors, labels and indices that may read x.

ghost use Rattle.std.specs.Prelude.{ℕ, ◌≡◌, ◌<◌, ◌↔◌, ◌++◌, true, false, slice_index_or, map, length, Some, IfOk, OnOk};
ghost use Rattle.std.specs.List.{flat_map, slice_get};
ghost use Rattle.rtl_flat.specs.Expression.{tree};
ghost use Rattle.rtl_flat.specs.Process.{Task, action, piece};
ghost use Rattle.rtl_rule.specs.Parts.{own_labels, own_reads, own_trees};
ghost use Rattle.rtl_flat.specs.Flats.{flat, widths};
ghost use Rattle.check_unknown.specs.Doubts.{AreSought, any_meets, choice_spots, choices_found, choices_of, is_plain, meets, rule_of, seeks};
ghost use Rattle.check_unknown.specs.Unknowns.{AreWildSelector, AreXOptimism, IsDoubtful, choice, index_choice};

use crate::places::push_all;
use check_chains::check_parts::expressions::{nodes, own_labels, own_trees};
use check_chains::check_parts::reads::own_signal;
use check_chains::check_parts::statements::statements;
use rtl_flat::act::{Act, CaseKind, ProcId, TargetPart};
use rtl_flat::design::Design;
use rtl_flat::expr::{Index, Select, SigId, SizedExpr};
use rtl_rule::finding::Finding;
use rtl_rule::rule::Rule;
use std::alloc::Global;
use text_ground::memory::Memory;
use text_ground::text::Spot;

/// Whether a signal is marked.
pub(crate) fn is_marked(marks: &[bool], signal: SigId) -> bool
    ensures { result ≡ slice_index_or marks.now signal.0 false }
{
    match marks.get(signal.0 as usize) {
        Some(mark) => *mark,
        None => false,
    }
}

/// Whether an expression without its operands reads a signal that is marked.
fn reads_mark(design: &Design, marks: &[bool], e: &SizedExpr) -> bool
    ensures { result ≡ meets (widths (flat design.now)) marks.now (own_reads (widths
        (flat design.now)) (tree e.now)) }
{
    match own_signal(design, e) {
        Some(signal) => is_marked(marks, signal),
        None => false,
    }
}

/// Whether some expressions read a signal that is marked.
fn any_mark(
    alloc: Global,
    design: &Design,
    marks: &[bool],
    all: &[&SizedExpr],
) -> Result<bool, Memory>
    ensures { IfOk result (λ reads. reads ≡ any_meets (widths (flat design.now)) marks.now (map
        (λ e. tree e.now) all.now)) }
{
    let all = nodes(alloc, all)?;
    for e in &all {
        if reads_mark(design, marks, e) {
            return Ok(true);
        }
    }
    Ok(false)
}

/// Adds a place where some expressions read a signal that is marked.
fn push_if(
    alloc: Global,
    design: &Design,
    marks: &[bool],
    all: &[&SizedExpr],
    spot: Spot,
    spots: &mut Vec<Spot>,
) -> Result<(), Memory>
    ensures { OnOk result (spots.new.items ≡ spots.old.items ++ choice_spots (widths
        (flat design.now)) marks.now (choice spot (map (λ e. tree e.now) all.now))) }
{
    if any_mark(alloc, design, marks, all)? {
        spots.push(spot)?;
    }
    Ok(())
}

/// Adds the place of a target's index that reads a signal which is marked.
fn push_index(
    alloc: Global,
    design: &Design,
    marks: &[bool],
    part: &TargetPart,
    spots: &mut Vec<Spot>,
) -> Result<(), Memory>
    ensures { OnOk result (spots.new.items ≡ spots.old.items ++ choice_spots (widths
        (flat design.now)) marks.now (index_choice (piece part.now))) }
{
    match &part.select {
        Select::Whole => Ok(()),
        Select::Part { low: _, width: _ } => Ok(()),
        Select::Bit { low: _, index } => match index {
            Index::Fixed(_) => Ok(()),
            Index::Computed(index) => {
                let index: &SizedExpr = index;
                push_if(alloc, design, marks, &[index], part.spot, spots)
            }
        },
    }
}

/// Adds the places of the indices of a target that read a signal which is marked.
fn push_indices(
    alloc: Global,
    design: &Design,
    marks: &[bool],
    target: &[TargetPart],
    spots: &mut Vec<Spot>,
) -> Result<(), Memory>
    ensures { OnOk result (spots.new.items ≡ spots.old.items ++ choice_spots (widths
        (flat design.now)) marks.now (flat_map index_choice (map piece target.now))) }
{
    for part in target {
        push_index(alloc, design, marks, part, spots)?;
    }
    Ok(())
}

/// Adds the place of a statement whose own expressions read a signal that is marked.
fn push_own(
    alloc: Global,
    design: &Design,
    marks: &[bool],
    one: &Act,
    spot: Spot,
    spots: &mut Vec<Spot>,
) -> Result<(), Memory>
    ensures { OnOk result (spots.new.items ≡ spots.old.items ++ choice_spots (widths
        (flat design.now)) marks.now (choice spot (own_trees (action one.now) ++ own_labels
        (action one.now)))) }
{
    let mut all = own_trees(alloc, one)?;
    let labels = own_labels(alloc, one)?;
    all.extend_from_slice(&labels)?;
    push_if(alloc, design, marks, &all, spot, spots)
}

/// Which choices a rule is about.
#[derive(Clone, Copy)]
enum Sought {
    /// Conditions, the selectors and labels of plain cases, and the indices of targets.
    Plain,
    /// The selectors and labels of `casez` and `casex`.
    Wild,
}

impl Sought {
    /// Whether the cases of a kind are among them.
    fn has(self, kind: CaseKind) -> bool
        ensures { result ≡ seeks self kind }
    {
        match self {
            Sought::Plain => match kind {
                CaseKind::Plain => true,
                CaseKind::Z => false,
                CaseKind::X => false,
            },
            Sought::Wild => match kind {
                CaseKind::Plain => false,
                CaseKind::Z => true,
                CaseKind::X => true,
            },
        }
    }

    /// Whether conditions and indices are among them.
    fn is_plain(self) -> bool
        ensures { result ≡ is_plain self }
    {
        match self {
            Sought::Plain => true,
            Sought::Wild => false,
        }
    }

    fn rule(self) -> Rule
        ensures { result ≡ rule_of self }
    {
        match self {
            Sought::Plain => Rule::XOptimism,
            Sought::Wild => Rule::WildSelector,
        }
    }

    /// Adds the places of a statement's choices that read a signal which is marked.
    fn push(
        self,
        alloc: Global,
        design: &Design,
        marks: &[bool],
        one: &Act,
        spots: &mut Vec<Spot>,
    ) -> Result<(), Memory>
        ensures { OnOk result (spots.new.items ≡ spots.old.items ++ choice_spots (widths
            (flat design.now)) marks.now (choices_of self (action one.now))) }
    {
        match one {
            Act::Set {
                target,
                value: _,
                delayed: _,
                spot: _,
            } => {
                if self.is_plain() {
                    push_indices(alloc, design, marks, &target.parts, spots)
                } else {
                    Ok(())
                }
            }
            Act::If {
                test: _,
                yes: _,
                no: _,
                spot,
            } => {
                if self.is_plain() {
                    push_own(alloc, design, marks, one, *spot, spots)
                } else {
                    Ok(())
                }
            }
            Act::Case {
                kind,
                full: _,
                parallel: _,
                selector: _,
                items: _,
                fallback: _,
                spot,
            } => {
                if self.has(*kind) {
                    push_own(alloc, design, marks, one, *spot, spots)
                } else {
                    Ok(())
                }
            }
            Act::Block(_) => Ok(()),
        }
    }

    /// Adds the findings of a process.
    fn push_process(
        self,
        alloc: Global,
        design: &Design,
        marks: &[bool],
        p: ProcId,
        found: &mut Vec<Finding>,
    ) -> Result<(), Memory>
        requires { p.0 < length design.now.processes.items }
        ensures { OnOk result ((task : Task) → slice_get (flat design.now).tasks p.0 ≡ Some task
            → found.new.items ≡ found.old.items ++ choices_found (rule_of self) (choices_of self)
            (flat design.now) marks.now task) }
    {
        let all = statements(alloc, &design.processes[p.0 as usize].does)?;
        let mut spots = Vec::new(alloc);
        for one in &all {
            self.push(alloc, design, marks, one, &mut spots)?;
        }
        push_all(alloc, design, p, self.rule(), &spots, found)
    }

    /// The findings of all processes.
    fn findings(
        self,
        alloc: Global,
        design: &Design,
        marks: &[bool],
    ) -> Result<Vec<Finding>, Memory>
        requires { (s : ℕ) → slice_get marks.now s ≡ Some true ↔ IsDoubtful (flat design.now) s }
        ensures { IfOk result (λ found. AreSought self (flat design.now) found.items) }
    {
        let mut found = Vec::new(alloc);
        for p in 0..design.processes.len() {
            self.push_process(alloc, design, marks, ProcId(p as u32), &mut found)?;
        }
        Ok(found)
    }
}

/// The conditions, plain cases and indices that may read x after power-up, as `doubtful` marks
/// signals.
///
/// Fails where memory runs out.
pub fn x_optimism(alloc: Global, design: &Design, marks: &[bool]) -> Result<Vec<Finding>, Memory>
    requires { (s : ℕ) → slice_get marks.now s ≡ Some true ↔ IsDoubtful (flat design.now) s }
    ensures { IfOk result (λ found. AreXOptimism (flat design.now) found.items) }
{
    Sought::Plain.findings(alloc, design, marks)
}

/// The `casez` and `casex` whose selector or labels may read x after power-up, as `doubtful` marks
/// signals.
///
/// Fails where memory runs out.
pub fn wild_selector(alloc: Global, design: &Design, marks: &[bool]) -> Result<Vec<Finding>, Memory>
    requires { (s : ℕ) → slice_get marks.now s ≡ Some true ↔ IsDoubtful (flat design.now) s }
    ensures { IfOk result (λ found. AreWildSelector (flat design.now) found.items) }
{
    Sought::Wild.findings(alloc, design, marks)
}
