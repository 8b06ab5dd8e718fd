// The first difference that trials show for findings.

ghost use Rattle.std.specs.Prelude.{◌≡◌, ◌+◌, ◌≤◌, None, length, map, replicate, IfOk, OnOk};
ghost use Rattle.std.specs.Bool.{OnFalse};
ghost use Rattle.rtl_flat.specs.Flats.{flat};
ghost use Rattle.demo_replay.specs.Compared.{is_trial_of};
ghost use Rattle.demo_replay.specs.Firsts.{AreFirsts, IsFirst, told};
ghost use Rattle.demo_replay.specs.Tables.{AreShownBelow, AreSkipped, IsCourseOf, IsOf, IsUnwanted, compared, first_in, told_of};

use crate::compare::{Difference, clocked_signals, first_among, is_unwoken, skipped_signals};
use crate::course::course_of;
use crate::setup::Setup;
use crate::start::POWER_UP;
use demo_told::{Demo, Shown};
use demo_trials::Trial;
use rtl_flat::design::Design;
use rtl_rule::finding::Finding;
use rtl_rule::rule::Rule;
use std::alloc::Global;
use text_ground::memory::Memory;

/// Whether a trial is run for findings of a rule: the last for those on lists that never wake their
/// process, and all others for any other.
fn is_trial_of(rule: Rule, trial: Trial) -> bool
    ensures { result ≡ is_trial_of rule trial.number }
{
    (trial.number() == POWER_UP) == is_unwoken(rule)
}

/// Whether a trial is run for some finding for which nothing is shown yet.
fn is_wanted(trial: Trial, findings: &[Finding], found: &[Option<(Demo, Shown)>]) -> bool
    requires { length found.now ≡ length findings.now }
    ensures { OnFalse result (IsUnwanted trial.number findings.now found.now) }
{
    for at in 0..findings.len() {
        if found[at].is_none() && is_trial_of(findings[at].rule, trial) {
            return true;
        }
    }
    false
}

/// The first difference that a trial shows for a finding.
fn first_in(
    setup: &Setup,
    clocked: &[bool],
    finding: &Finding,
    trial: Trial,
    steps: &[Vec<Difference>],
) -> Option<(Demo, Shown)>
    requires { length steps.now ≤ 16 }
    ensures { told result ≡ told_of trial.number
        (first_in (compared setup.now clocked.now finding.now) 1 steps.now) }
{
    for (before, differences) in steps.iter().enumerate() {
        if let Some(first) = first_among(setup, clocked, finding, differences) {
            let demo = Demo {
                trial: trial.number(),
                step: before as u8 + 1,
                signal: first.signal,
            };
            return Some((demo, first.shown));
        }
    }
    None
}

/// Takes what a trial shows for each finding for which it is run and nothing is shown yet.
fn show(
    setup: &Setup,
    clocked: &[bool],
    skipped: &[bool],
    trial: Trial,
    steps: &[Vec<Difference>],
    findings: &[Finding],
    found: &mut [Option<(Demo, Shown)>],
)
    requires course { IsCourseOf setup.now.design.now setup.now skipped.now trial.number steps.now }
    requires skipped { AreSkipped setup.now clocked.now findings.now skipped.now }
    requires below { AreShownBelow setup.now.design.now setup.now clocked.now findings.now
        trial.number found.old }
    ensures { AreShownBelow setup.now.design.now setup.now clocked.now findings.now
        (trial.number + 1) found.new }
{
    for at in 0..findings.len() {
        if found[at].is_none() && is_trial_of(findings[at].rule, trial) {
            found[at] = first_in(setup, clocked, &findings[at], trial, steps);
        }
    }
}

/// Runs a trial, if it is wanted.
fn run_trial(
    alloc: Global,
    setup: &Setup<'_>,
    clocked: &[bool],
    skipped: &[bool],
    trial: Trial,
    findings: &[Finding],
    found: &mut [Option<(Demo, Shown)>],
) -> Result<(), Memory>
    requires is_of { IsOf setup.now.design.now setup.now }
    requires skipped { AreSkipped setup.now clocked.now findings.now skipped.now }
    requires below { AreShownBelow setup.now.design.now setup.now clocked.now findings.now
        trial.number found.old }
    ensures { OnOk result (AreShownBelow setup.now.design.now setup.now clocked.now findings.now
        (trial.number + 1) found.new) }
{
    if !is_wanted(trial, findings, found) {
        return Ok(());
    }
    let steps = course_of(alloc, setup, trial, skipped)?;
    show(setup, clocked, skipped, trial, &steps, findings, found);
    Ok(())
}

/// Nothing for each of so many findings.
fn nothing(alloc: Global, count: usize) -> Result<Vec<Option<(Demo, Shown)>>, Memory>
    ensures { IfOk result (λ found. found.items ≡ replicate count None) }
{
    let found = vec![in alloc; None; count]?;
    Ok(found)
}

/// The same of findings for which trials are to be run.
fn attach_some(
    alloc: Global,
    design: &Design,
    findings: &[Finding],
) -> Result<Vec<Option<(Demo, Shown)>>, Memory>
    ensures { IfOk result (λ found.
        AreFirsts (flat design.now) findings.now (map told found.items)) }
{
    let Some(setup) = Setup::of(alloc, design)? else {
        return nothing(alloc, findings.len());
    };
    let clocked = clocked_signals(alloc, design)?;
    let skipped = skipped_signals(alloc, &setup, &clocked, findings)?;
    let mut found = nothing(alloc, findings.len())?;
    for number in 0..POWER_UP + 1 {
        if let Some(trial) = Trial::new(number) {
            run_trial(
                alloc, &setup, &clocked, &skipped, trial, findings, &mut found,
            )?;
        }
    }
    Ok(found)
}

/// The first difference that the trials show for each of some findings. A trial is run once for all
/// of them, and none where there is no finding.
///
/// Fails where memory runs out.
pub fn attach_all(
    alloc: Global,
    design: &Design,
    findings: &[Finding],
) -> Result<Vec<Option<(Demo, Shown)>>, Memory>
    ensures { IfOk result (λ found.
        AreFirsts (flat design.now) findings.now (map told found.items)) }
{
    if findings.is_empty() {
        return Ok(Vec::new(alloc));
    }
    attach_some(alloc, design, findings)
}

/// The first difference that the trials show for a finding. None exactly where they show none.
///
/// Fails where memory runs out.
pub fn attach(
    alloc: Global,
    design: &Design,
    finding: &Finding,
) -> Result<Option<(Demo, Shown)>, Memory>
    ensures { IfOk result (λ found. IsFirst (flat design.now) finding.now (told found)) }
{
    let found = attach_all(alloc, design, &[*finding])?;
    Ok(found[0])
}
