// A trial of a design, step by step: the simulator beside the netlist.

ghost use Rattle.std.specs.Prelude.{◌≡◌, ◌==◌, ◌++◌, ◌∷◌, [], cond, false, IfOk, OnOk};
ghost use Rattle.rtl_flat.specs.declared.design.Design.{Design};
ghost use Rattle.rtl_flat.specs.Flats.{flat};
ghost use Rattle.netlist_eval.specs.Sims.{flat_of, netlist_of, shown};
ghost use Rattle.demo_trials.specs.Trials.{fill_of};
ghost use Rattle.demo_replay.specs.Progress.{IsFirstNet, TurnsLawfully};
ghost use Rattle.demo_replay.specs.Runs.{GoOn};
ghost use Rattle.demo_replay.specs.Tables.{IsNetlistOf, IsOf};

use crate::compare::Difference;
use crate::setup::{Setup, is_marked};
use crate::start::{POWER_UP, first_values, inputs_of, start_of};
use demo_told::Shown;
use demo_trials::Trial;
use event_model::setting::Setting;
use event_queue::sim::{EventSim, Unsettled};
use netlist_eval::fault::NetFault;
use netlist_eval::sim::NetSim;
use rtl_flat::expr::SigId;
use std::alloc::Global;
use text_ground::memory::Memory;

/// How a trial goes on.
#[derive(Clone, Copy, PartialEq, Eq, Debug)]
pub(crate) enum Progress {
    /// A step came to rest.
    Rested,
    /// A step doesn't come to rest within its budget.
    Unsettled,
    /// No step is left.
    Ended,
}

/// A trial under way.
#[derive(Drop)]
pub(crate) struct Run<'d> {
    setup: &'d Setup<'d>,
    trial: Trial,
    sim: EventSim<'d>,
    net: NetSim<'d>,
    /// How many steps were taken.
    taken: u8,
}

/// The netlist where a trial begins.
fn netlist_at<'d>(alloc: Global, setup: &'d Setup<'d>, trial: Trial) -> Result<NetSim<'d>, Memory>
    requires { IsOf setup.now.design.now setup.now }
    ensures { IfOk result (IsFirstNet setup.now trial.number) }
{
    let registers = first_values(alloc, setup.design, trial, &setup.basis.holders)?;
    let inputs = first_values(alloc, setup.design, trial, &setup.basis.tops)?;
    let netlist = setup.netlist(trial.fill());
    match NetSim::on(alloc, netlist, &setup.basis, &registers, &inputs) {
        Ok(net) => Ok(net),
        // Where there is a basis there is no cycle, and no trial begins with an unknown bit.
        Err(NetFault::Cyclic(_)) => unreachable!(),
        Err(NetFault::NotKnown(_)) => unreachable!(),
        Err(NetFault::Memory) => Err(Memory),
    }
}

impl<'d> Run<'d> {
    ghost use Rattle.std.specs.Prelude.{◌≡◌, ◌==◌, ◌<◌, ◌+◌, List, [], false, length, Ok, IfOk};
    ghost use Rattle.rtl_flat.specs.Flats.{flat};
    ghost use Rattle.event_queue.specs.Offers.{AreAllowed};
    ghost use Rattle.netlist_eval.specs.Sims.{shown};
    ghost use Rattle.demo_replay.specs.Progress.{Goes, IsAt, TurnsLawfully, design_of, moment_of, steps_left, trial_of};
    ghost use Rattle.demo_replay.specs.Runs.{Moment, settings_of};
    ghost use Rattle.demo_replay.specs.Tables.{IsOf, differences, plain};

    /// A trial of a design before its first step.
    pub(crate) fn begin(
        alloc: Global,
        setup: &'d Setup<'d>,
        trial: Trial,
    ) -> Result<Run<'d>, Memory>
        requires { IsOf setup.now.design.now setup.now }
        ensures at { IfOk result (λ run. IsAt run []) }
        ensures setup { IfOk result (λ run. run.setup.now ≡ setup.now) }
        ensures trial { IfOk result (λ run. trial_of run ≡ trial.number) }
    {
        let net = netlist_at(alloc, setup, trial)?;
        let start = start_of(alloc, setup, &net, trial)?;
        let sim = EventSim::on(alloc, setup.design, &setup.levels, &start)?;
        Ok(Run {
            setup,
            trial,
            sim,
            net,
            taken: 0,
        })
    }

    /// What the next step sets.
    fn settings(&self, alloc: Global) -> Result<Vec<Setting>, Memory>
        requires at { (moments : List Moment) × IsAt self.now moments }
        requires left { self.now.taken < 16 }
        ensures exact { IfOk result (λ settings. settings.items
            ≡ settings_of (flat (design_of self.now)) (plain self.now.setup.now)
            (trial_of self.now) (self.now.taken + 1) (shown self.now.net)) }
        ensures allowed { IfOk result (λ settings.
            AreAllowed (flat (design_of self.now)) settings.items) }
        ensures lawful { IfOk result (λ settings. (trial_of self.now == 32) ≡ false
            → TurnsLawfully (flat (design_of self.now)) (shown self.now.net) settings.items) }
    {
        let inputs = inputs_of(alloc, self.setup, &self.net)?;
        self.trial.step(alloc, self.taken + 1, &inputs)
    }

    /// Takes the next step, if one is left.
    pub(crate) fn next(&mut self, alloc: Global) -> Result<Progress, Memory>
        requires { (moments : List Moment) × IsAt self.old moments }
        ensures goes { (moments : List Moment) → IsAt self.old moments
            → Goes self.old self.new result moments }
        ensures fewer { result ≡ Ok Progress.Rested → steps_left self.new < steps_left self.old }
        ensures setup { self.new.setup.now ≡ self.old.setup.now }
        ensures trial { trial_of self.new ≡ trial_of self.old }
    {
        if self.taken == self.trial.steps(self.setup.basis.tops.len()) {
            return Ok(Progress::Ended);
        }
        let settings = self.settings(alloc)?;
        match self.sim.step(&settings, self.trial.policy()) {
            Ok(()) => {
                turn(&mut self.net, self.trial, &settings);
                self.taken += 1;
                Ok(Progress::Rested)
            }
            Err(Unsettled) => Ok(Progress::Unsettled),
        }
    }

    /// What is there of a signal.
    pub(crate) fn shown(&self, signal: SigId) -> Shown
        requires at { (moments : List Moment) × IsAt self.now moments }
        requires inside { signal.0 < length (design_of self.now).signals.items }
        ensures simulated { result.simulated
            ≡ (moment_of self.now.sim self.now.net).simulated signal.0 }
        ensures synthesised { result.synthesised
            ≡ (moment_of self.now.sim self.now.net).synthesised signal.0 }
    {
        Shown {
            simulated: self.sim.value(signal),
            synthesised: self.net.value(signal),
        }
    }

    /// The signals that differ, but for those that are marked, in order.
    pub(crate) fn differences(
        &self,
        alloc: Global,
        skipped: &[bool],
    ) -> Result<Vec<Difference>, Memory>
        requires { (moments : List Moment) × IsAt self.now moments }
        ensures { IfOk result (λ found. found.items
            ≡ differences (length (design_of self.now).signals.items)
            skipped.now (moment_of self.now.sim self.now.net)) }
    {
        let mut found = Vec::new(alloc);
        for number in 0..self.setup.design.signals.len() {
            let signal = SigId(number as u32);
            let shown = self.shown(signal);
            let differs = !is_marked(skipped, signal) && shown.differs();
            push_if(&mut found, differs, signal, shown)?;
        }
        Ok(found)
    }
}

/// Puts a signal behind others, where it is one that differs.
fn push_if(
    found: &mut Vec<Difference>,
    differs: bool,
    signal: SigId,
    shown: Shown,
) -> Result<(), Memory>
    ensures { OnOk result (found.new.items ≡ found.old.items
        ++ cond differs (record { signal = signal; shown = shown } ∷ []) []) }
{
    if differs {
        found.push(Difference { signal, shown })?;
    }
    Ok(())
}

/// Takes the step of a trial in the netlist, which stays as it begins where the trial begins at
/// power-up.
fn turn(net: &mut NetSim<'_>, trial: Trial, settings: &[Setting])
    requires lawful { (trial.number == 32) ≡ false
        → TurnsLawfully (flat_of net.old) (shown net.old) settings.now }
    ensures netlist { netlist_of net.new ≡ netlist_of net.old }
    ensures goes { let netlist = netlist_of net.old in
        (design : Design) → IsNetlistOf design (fill_of trial.number) netlist
        → GoOn (flat design) (trial.number == 32) trial.number settings.now
        (shown net.old) (shown net.new) }
{
    if trial.number() != POWER_UP {
        let step = net.step_of(settings);
        net.step(&step);
    }
}
