// What synthesis ignores: delays, `initial`, and what pragmas hide.

ghost use Rattle.std.specs.Prelude.{◌≡◌, ◌<◌, ◌++◌, ◌∷◌, [], length, IfOk, OnOk};
ghost use Rattle.rtl_flat.specs.Flats.{flat, parts};
ghost use Rattle.check_unknown.specs.Lists.{AreFirsts, delays_found, is_kind, regions};
ghost use Rattle.check_unknown.specs.Unknowns.{AreDelayIgnored, AreInitialIgnored, AreTranslateOff};

use check_chains::check_found::sets::first_written;
use rtl_flat::act::ProcId;
use rtl_flat::design::Design;
use rtl_flat::expr::SigId;
use rtl_flat::instance::{Delay, DroppedRegion};
use rtl_rule::finding::Finding;
use rtl_rule::rule::Rule;
use std::alloc::Global;
use text_ground::dropped::DropKind;
use text_ground::memory::Memory;

/// Whether a region was dropped for a reason.
fn is_kind(one: DropKind, other: DropKind) -> bool
    ensures { result ≡ is_kind one other }
{
    match (one, other) {
        (DropKind::Initial, DropKind::Initial) => true,
        (DropKind::TranslateOff, DropKind::TranslateOff) => true,
        (DropKind::Comment, DropKind::Comment) => true,
        _ => false,
    }
}

/// A finding for each region that was dropped for a reason.
fn regions(
    alloc: Global,
    dropped: &[DroppedRegion],
    kind: DropKind,
    rule: Rule,
) -> Result<Vec<Finding>, Memory>
    ensures { IfOk result (λ found. found.items ≡ regions rule kind dropped.now) }
{
    let mut found = Vec::new(alloc);
    for one in dropped {
        if is_kind(one.kind, kind) {
            found.push(Finding {
                rule,
                signal: None,
                instance: one.instance,
                spot: one.spot,
            })?;
        }
    }
    Ok(found)
}

/// The `initial` constructs, which synthesis drops.
///
/// Fails where memory runs out.
pub fn initial_ignored(alloc: Global, design: &Design) -> Result<Vec<Finding>, Memory>
    ensures { IfOk result (λ found. AreInitialIgnored (parts design.now) found.items) }
{
    regions(
        alloc,
        &design.dropped,
        DropKind::Initial,
        Rule::InitialIgnored,
    )
}

/// The regions that the pragmas `translate_off` and `translate_on` hide from synthesis.
///
/// Fails where memory runs out.
pub fn translate_off(alloc: Global, design: &Design) -> Result<Vec<Finding>, Memory>
    ensures { IfOk result (λ found. AreTranslateOff (parts design.now) found.items) }
{
    regions(
        alloc,
        &design.dropped,
        DropKind::TranslateOff,
        Rule::TranslateOff,
    )
}

/// The least signal that each process may write.
fn firsts(alloc: Global, design: &Design) -> Result<Vec<Option<SigId>>, Memory>
    ensures { IfOk result (λ firsts. AreFirsts (flat design.now)
        (length design.now.processes.items) firsts.items) }
{
    let mut firsts = Vec::new(alloc);
    for p in 0..design.processes.len() {
        firsts.push(first_written(alloc, design, ProcId(p as u32))?)?;
    }
    Ok(firsts)
}

/// Adds the finding of a delay.
fn push_delay(
    design: &Design,
    firsts: &[Option<SigId>],
    delay: &Delay,
    found: &mut Vec<Finding>,
) -> Result<(), Memory>
    requires { AreFirsts (flat design.now) (length design.now.processes.items) firsts.now }
    ensures { OnOk result (found.new.items ≡ found.old.items ++ delays_found (flat design.now)
        (delay.now ∷ [])) }
{
    let p = delay.process.0 as usize;
    let Some(process) = design.processes.get(p) else {
        return Ok(());
    };
    found.push(Finding {
        rule: Rule::DelayIgnored,
        signal: firsts[p],
        instance: process.instance,
        spot: delay.spot,
    })?;
    Ok(())
}

/// The delays, which synthesis ignores.
///
/// Fails where memory runs out.
pub fn delay_ignored(alloc: Global, design: &Design) -> Result<Vec<Finding>, Memory>
    ensures { IfOk result (λ found. AreDelayIgnored (parts design.now) found.items) }
{
    let mut found = Vec::new(alloc);
    if design.delays.is_empty() {
        return Ok(found);
    }
    let firsts = firsts(alloc, design)?;
    for delay in &design.delays {
        push_delay(design, &firsts, delay, &mut found)?;
    }
    Ok(found)
}
