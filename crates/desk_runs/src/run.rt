//! The steps of a file, one after the other from power-up.

ghost use Rattle.std.specs.Prelude.{◌≡◌, ◌<◌, ℕ, List, [], IfOk, Ok};
ghost use Rattle.std.specs.List.{All};
ghost use Rattle.desk_steps.specs.Fitting.{AreFitting};
ghost use Rattle.desk_runs.specs.Progress.{Goes, IsAt, design_of, steps_left, steps_of};

use crate::lines::{push_rested, push_unsettled};
use desk_steps::Steps;
use event_queue::sim::{EventSim, Unsettled};
use event_queue::start::Start;
use rtl_flat::design::Design;
use std::alloc::Global;
use text_ground::memory::Memory;

/// How a run goes on.
#[derive(Clone, Copy, PartialEq, Eq, Debug)]
pub enum Progress {
    /// A step came to rest.
    Rested,
    /// A step didn't come to rest within its budget, and no step comes after it.
    Unsettled,
    /// No step is left.
    Ended,
}

/// A design that is run through the steps of a file, from power-up.
#[derive(Drop)]
pub struct Run<'d> {
    design: &'d Design,
    steps: &'d Steps,
    sim: EventSim<'d>,
    /// How many steps were taken.
    before: usize,
}

impl<'d> Run<'d> {
    ghost use Rattle.std.specs.Prelude.{◌≡◌, ◌<◌, ℕ, List, [], IfOk, Ok};
    ghost use Rattle.std.specs.List.{All};
    ghost use Rattle.desk_steps.specs.Fitting.{AreFitting};
    ghost use Rattle.desk_runs.specs.Progress.{Goes, IsAt, design_of, steps_left, steps_of};

    /// A run of a design before its first step. It fails only for want of memory.
    pub fn new(alloc: Global, design: &'d Design, steps: &'d Steps) -> Result<Run<'d>, Memory>
        requires { All (λ step. AreFitting design.now.signals.items step.items)
            steps.now.steps.items }
        ensures at { IfOk result (λ run. IsAt run []) }
        ensures design { IfOk result (λ run. design_of run ≡ design.now) }
        ensures steps { IfOk result (λ run. steps_of run ≡ steps.now) }
    {
        let sim = EventSim::new(alloc, design, &Start::PowerUp)?;
        Ok(Run {
            design,
            steps,
            sim,
            before: 0,
        })
    }

    /// Takes the next step, if one is left, and makes its line: `step K`, from 1, and ` NAME=VALUE` for each output of the
    /// top in the order of the signals; or `step K unsettled` where the step's events cost more than a step may cost.
    pub fn next(&mut self, alloc: Global, line: &mut Vec<u8>) -> Result<Progress, Memory>
        requires { (bytes : List ℕ) × IsAt self.old bytes }
        ensures goes { (bytes : List ℕ) → IsAt self.old bytes
            → Goes self.old self.new result bytes line.new.items }
        ensures fewer { result ≡ Ok Progress.Rested → steps_left self.new < steps_left self.old }
        ensures design { design_of self.new ≡ design_of self.old }
        ensures steps { steps_of self.new ≡ steps_of self.old }
    {
        line.clear();
        let Some(step) = self.steps.steps.get(self.before) else {
            return Ok(Progress::Ended);
        };
        match self.sim.step(step, self.steps.policy) {
            Ok(()) => {
                self.before += 1;
                push_rested(alloc, self.design, &self.sim, self.before, line)?;
                Ok(Progress::Rested)
            }
            Err(Unsettled) => {
                push_unsettled(line, self.before + 1)?;
                Ok(Progress::Unsettled)
            }
        }
    }
}
