// A demonstration that is run again.

ghost use Rattle.std.specs.Prelude.{◌≡◌, ◌<◌, ◌≤◌, ◌⊎◌, [], List, length, IfErr, IfOk, MatchBool, OnOk};
ghost use Rattle.rtl_flat.specs.Flats.{flat};
ghost use Rattle.net_model.specs.Solution.{IsLasting};
ghost use Rattle.rtl_flat.specs.PathSets.{IsTemporary};
ghost use Rattle.demo_replay.specs.Progress.{IsAt, IsStepFault, count_of, trial_of};
ghost use Rattle.demo_replay.specs.Replays.{IsLegal, IsReplayFault, IsReplayed};
ghost use Rattle.demo_replay.specs.Runs.{Moment};
ghost use Rattle.demo_replay.specs.Tables.{IsOf};

use crate::fault::{Part, ReplayFault};
use crate::run::{Progress, Run};
use crate::setup::{Setup, is_marked};
use demo_told::{Demo, Shown};
use demo_trials::Trial;
use event_queue::rtl_scan::temporaries;
use netlist_eval::net_start::stored::top_inputs;
use rtl_flat::design::Design;
use rtl_flat::expr::SigId;
use std::alloc::Global;
use text_ground::memory::Memory;

/// The trial of a demonstration that names a step of it, and a signal of the design.
///
/// Fails with `Illegal` of the first part that names nothing, and where memory runs out.
pub fn legal_trial(alloc: Global, design: &Design, demo: &Demo) -> Result<Trial, ReplayFault>
    ensures legal { IfOk result (λ trial. IsLegal (flat design.now) demo.now) }
    ensures trial { IfOk result (λ trial. trial.number ≡ demo.now.trial) }
    ensures fault { IfErr result (IsReplayFault (flat design.now) demo.now) }
{
    let Some(trial) = Trial::new(demo.trial) else {
        return Err(ReplayFault::Illegal(Part::Trial));
    };
    let tops = top_inputs(alloc, design)?;
    if demo.step == 0 || demo.step > trial.steps(tops.len()) {
        return Err(ReplayFault::Illegal(Part::Step));
    }
    if !is_lasting(alloc, design, demo.signal)? {
        return Err(ReplayFault::Illegal(Part::Signal));
    }
    Ok(trial)
}

/// Whether a signal is one of the design, and no temporary.
fn is_lasting(alloc: Global, design: &Design, signal: SigId) -> Result<bool, Memory>
    ensures { IfOk result (λ lasting. MatchBool lasting
        ((signal.0 < length design.now.signals.items) × IsLasting (flat design.now) signal.0)
        ((length design.now.signals.items ≤ signal.0)
        ⊎ IsTemporary (flat design.now).signals (flat design.now).tasks signal.0)) }
{
    if signal.0 as usize >= design.signals.len() {
        return Ok(false);
    }
    let temporaries = temporaries(alloc, design)?;
    Ok(!is_marked(&temporaries, signal))
}

/// Takes the steps of a trial up to one.
fn take_steps(alloc: Global, run: &mut Run<'_>, last: u8) -> Result<(), ReplayFault>
    requires begun { IsAt run.old [] }
    requires there { last ≤ count_of run.old }
    ensures taken { OnOk result ((moments : List Moment)
        × IsAt run.new moments × (length moments ≡ last)) }
    ensures fault { IfErr result (IsStepFault run.old last) }
    ensures setup { run.new.setup.now ≡ run.old.setup.now }
    ensures trial { trial_of run.new ≡ trial_of run.old }
{
    for step in 1..last + 1 {
        if run.next(alloc)? == Progress::Unsettled {
            return Err(ReplayFault::Unsettled(step));
        }
    }
    Ok(())
}

/// What is there of the signal of a demonstration after its step: two values that differ.
fn shown_by(
    alloc: Global,
    setup: &Setup<'_>,
    trial: Trial,
    demo: &Demo,
) -> Result<Shown, ReplayFault>
    requires is_of { IsOf setup.now.design.now setup.now }
    requires legal { IsLegal (flat setup.now.design.now) demo.now }
    requires trial { trial.number ≡ demo.now.trial }
    ensures shown { IfOk result (IsReplayed (flat setup.now.design.now) demo.now) }
    ensures fault { IfErr result (IsReplayFault (flat setup.now.design.now) demo.now) }
{
    let mut run = Run::begin(alloc, setup, trial)?;
    take_steps(alloc, &mut run, demo.step)?;
    let shown = run.shown(demo.signal);
    if shown.differs() {
        Ok(shown)
    } else {
        Err(ReplayFault::Same(shown.simulated))
    }
}

/// What a demonstration shows when its trial is run again: two values that differ.
///
/// Fails with `Illegal` of the first part that names nothing; then with `NoNetlist` where the
/// design has none; with `Unsettled` of the first step that does not settle, up to that of the
/// demonstration; with `Same` where both have one value; and where memory runs out.
pub fn replay(alloc: Global, design: &Design, demo: &Demo) -> Result<Shown, ReplayFault>
    ensures shown { IfOk result (IsReplayed (flat design.now) demo.now) }
    ensures fault { IfErr result (IsReplayFault (flat design.now) demo.now) }
{
    let trial = legal_trial(alloc, design, demo)?;
    let Some(setup) = Setup::of(alloc, design)? else {
        return Err(ReplayFault::NoNetlist);
    };
    shown_by(alloc, &setup, trial, demo)
}
