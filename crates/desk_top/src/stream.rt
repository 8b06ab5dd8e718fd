// The lines of a simulation, written as they come.

ghost use Rattle.std.specs.Prelude.{◌≡◌, ◌≤◌, ◌<◌};
ghost use Rattle.std.specs.List.{All};
ghost use Rattle.desk_io.specs.Causes.{Rose};
ghost use Rattle.rtl_flat.specs.Flats.{flat_in};
ghost use Rattle.desk_steps.specs.Fitting.{AreFitting};
ghost use Rattle.desk_steps.specs.Steps.{steps as plain};
ghost use Rattle.desk_top.specs.Plans.{HasFitting, IsStreamed, Performs};

use crate::deliver::{DONE, Ending, NO_MEMORY, Stop, UNWRITTEN, deliver, write_whole};
use crate::simulate::Plan;
use desk_io::{Failed, Sink};
use desk_runs::{Progress, Run};
use desk_steps::Steps;
use rtl_flat::design::Design;
use std::alloc::Global;

/// Carries out a plan, and answers the exit status.
pub fn perform<S: Sink>(alloc: Global, plan: Result<Plan, Stop>, out: &mut S) -> u8
    requires { HasFitting plan }
    ensures performs { Performs plan result (S.taken out.old) (S.taken out.new) }
    ensures unwritten { result ≡ UNWRITTEN → Rose (S.faults out.old) (S.faults out.new) }
    ensures failed { S.faults out.old < S.faults out.new → result ≡ UNWRITTEN }
    ensures later { S.faults out.old ≤ S.faults out.new }
{
    match plan {
        Ok(Plan::Told(work)) => deliver(work.ending, &work.bytes, out),
        Ok(Plan::Run(design, steps)) => stream(alloc, &design, &steps, out),
        Err(stop) => stop.status(),
    }
}

/// Runs a design through steps, writes the line of each when the step is at rest, and answers the exit status.
pub fn stream<S: Sink>(alloc: Global, design: &Design, steps: &Steps, out: &mut S) -> u8
    requires { All (λ step. AreFitting design.now.signals.items step.items) steps.now.steps.items }
    ensures streamed { IsStreamed (flat_in design.now) (plain steps.now) result (S.taken out.old)
        (S.taken out.new) }
    ensures unwritten { result ≡ UNWRITTEN → Rose (S.faults out.old) (S.faults out.new) }
    ensures failed { S.faults out.old < S.faults out.new → result ≡ UNWRITTEN }
    ensures later { S.faults out.old ≤ S.faults out.new }
{
    let mut run = match Run::new(alloc, design, steps) {
        Ok(run) => run,
        Err(_) => return NO_MEMORY,
    };
    let mut line = Vec::new(alloc);
    loop {
        match run.next(alloc, &mut line) {
            Ok(Progress::Rested) => match write_whole(&line, out) {
                Ok(()) => {}
                Err(Failed) => return UNWRITTEN,
            },
            Ok(Progress::Unsettled) => return deliver(Ending::Unsettled, &line, out),
            Ok(Progress::Ended) => return DONE,
            Err(_) => return NO_MEMORY,
        }
    }
}
