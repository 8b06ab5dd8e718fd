// Cases that say more of themselves than is so.

ghost use Rattle.std.specs.Prelude.{ℕ, Bool, ◌≡◌, ◌&&◌, not, [], ◌∷◌, IfOk, OnOk};
ghost use Rattle.text_ground.specs.declared.text.Spot.{Spot};
ghost use Rattle.rtl_flat.specs.Expression.{tree};
ghost use Rattle.rtl_flat.specs.Process.{Case, action, task};
ghost use Rattle.rtl_rule.specs.Parts.{statements, within};
ghost use Rattle.rtl_flat.specs.Flats.{flat, widths};
ghost use Rattle.check_parts.specs.rtl_scan.Bodies.{branches_of, other_of};
ghost use Rattle.check_found.specs.Gathered.{task_sites};
ghost use Rattle.check_case.specs.Cases.{AreFullCase, AreParallelCase, all_disjoint, is_false_full, spot_of};
ghost use Rattle.check_case.specs.Claims.{AreClaims, GetsClaims, claims_falsely, rule_of};

use crate::disjoint::are_disjoint;
use crate::first::first_in;
use check_parts::rtl_scan::is_complete_by_labels;
use check_parts::statements::statements;
use rtl_flat::act::{Act, CaseItem, CaseKind, Process};
use rtl_flat::design::Design;
use rtl_flat::expr::SizedExpr;
use rtl_rule::finding::Finding;
use rtl_rule::rule::Rule;
use std::alloc::Global;
use text_ground::memory::Memory;
use text_ground::text::Spot;

/// What a case may say of itself.
#[derive(Clone, Copy)]
pub(crate) enum Claim {
    /// `full_case`
    Full,
    /// `parallel_case`
    Parallel,
}

impl Claim {
    /// The rule that a false claim breaks.
    fn rule(self) -> Rule
        ensures { result ≡ rule_of self }
    {
        match self {
            Claim::Full => Rule::FullCase,
            Claim::Parallel => Rule::ParallelCase,
        }
    }
}

/// Whether a case that may say `full_case` is not complete.
fn is_false_full(
    alloc: Global,
    design: &Design,
    kind: CaseKind,
    full: bool,
    selector: &SizedExpr,
    items: &[CaseItem],
    fallback: &Option<Vec<Act>>,
) -> Result<bool, Memory>
    ensures { IfOk result (λ wrong. (parallel : Bool) (spot : Spot)
        → let items = branches_of items.now in
        wrong ≡ is_false_full (widths (flat design.now))
        (Case kind full parallel (tree selector.now) items (other_of fallback.now) spot)) }
{
    match fallback {
        Some(_) => Ok(false),
        None => {
            if !full {
                return Ok(false);
            }
            let complete = is_complete_by_labels(alloc, design, kind, selector, items)?;
            Ok(!complete)
        }
    }
}

/// Whether a case that may say `parallel_case` has items that aren't shown disjoint.
fn is_false_parallel(
    alloc: Global,
    parallel: bool,
    width: u8,
    items: &[CaseItem],
) -> Result<bool, Memory>
    ensures { IfOk result (λ wrong.
        wrong ≡ (parallel && not (all_disjoint (branches_of items.now)))) }
{
    if !parallel {
        return Ok(false);
    }
    let disjoint = are_disjoint(alloc, width, items)?;
    Ok(!disjoint)
}

/// Whether a statement makes a claim that isn't so.
fn is_false(alloc: Global, design: &Design, claim: Claim, one: &Act) -> Result<bool, Memory>
    ensures { IfOk result (λ wrong.
        wrong ≡ claims_falsely (flat design.now) claim (action one.now)) }
{
    match one {
        Act::Set {
            target: _,
            value: _,
            delayed: _,
            spot: _,
        } => Ok(false),
        Act::If {
            test: _,
            yes: _,
            no: _,
            spot: _,
        } => Ok(false),
        Act::Case {
            kind,
            full,
            parallel,
            selector,
            items,
            fallback,
            spot: _,
        } => match claim {
            Claim::Full => is_false_full(alloc, design, *kind, *full, selector, items, fallback),
            Claim::Parallel => is_false_parallel(alloc, *parallel, selector.width, items),
        },
        Act::Block(_) => Ok(false),
    }
}

/// Where a statement stands, for a block elsewhere.
fn place(one: &Act, otherwise: Spot) -> Spot
    ensures { result ≡ spot_of otherwise (action one.now) }
{
    match one {
        Act::Set {
            target: _,
            value: _,
            delayed: _,
            spot,
        } => *spot,
        Act::If {
            test: _,
            yes: _,
            no: _,
            spot,
        } => *spot,
        Act::Case {
            kind: _,
            full: _,
            parallel: _,
            selector: _,
            items: _,
            fallback: _,
            spot,
        } => *spot,
        Act::Block(_) => otherwise,
    }
}

fn push_claim(
    alloc: Global,
    design: &Design,
    claim: Claim,
    process: &Process,
    one: &Act,
    found: &mut Vec<Finding>,
) -> Result<(), Memory>
    ensures { OnOk result ((p : ℕ) → GetsClaims (flat design.now) claim
        (within (p, task process.now) (action one.now) ∷ []) found.old.items found.new.items) }
{
    let wrong = is_false(alloc, design, claim, one)?;
    if !wrong {
        return Ok(());
    }
    found.push(Finding {
        rule: claim.rule(),
        signal: first_in(design, one),
        instance: process.instance,
        spot: place(one, process.spot),
    })?;
    Ok(())
}

fn push_claims(
    alloc: Global,
    design: &Design,
    claim: Claim,
    process: &Process,
    found: &mut Vec<Finding>,
) -> Result<(), Memory>
    ensures { OnOk result ((p : ℕ) → GetsClaims (flat design.now) claim
        (task_sites statements p (task process.now)) found.old.items found.new.items) }
{
    let all = statements(alloc, &process.does)?;
    for one in &all {
        push_claim(alloc, design, claim, process, one, found)?;
    }
    Ok(())
}

fn false_claims(alloc: Global, design: &Design, claim: Claim) -> Result<Vec<Finding>, Memory>
    ensures { IfOk result (λ found. AreClaims (flat design.now) claim found.items) }
{
    let mut found = Vec::new(alloc);
    for process in &design.processes {
        push_claims(alloc, design, claim, process, &mut found)?;
    }
    Ok(found)
}

/// Cases that say `full_case`, have no `default` and aren't complete by their labels.
pub fn full_case(alloc: Global, design: &Design) -> Result<Vec<Finding>, Memory>
    ensures { IfOk result (λ found. AreFullCase (flat design.now) found.items) }
{
    false_claims(alloc, design, Claim::Full)
}

/// Cases that say `parallel_case`, of which two items aren't shown disjoint.
pub fn parallel_case(alloc: Global, design: &Design) -> Result<Vec<Finding>, Memory>
    ensures { IfOk result (λ found. AreParallelCase (flat design.now) found.items) }
{
    false_claims(alloc, design, Claim::Parallel)
}
