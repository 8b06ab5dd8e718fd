// All that a trial shows.

ghost use Rattle.std.specs.Prelude.{IfOk};
ghost use Rattle.demo_replay.specs.Tables.{IsCourseOf, IsOf};

use crate::compare::Difference;
use crate::run::{Progress, Run};
use crate::setup::Setup;
use demo_trials::Trial;
use std::alloc::Global;
use text_ground::memory::Memory;

/// The signals that differ after each step of a trial, but for those that are marked, up to the
/// first step that doesn't settle.
pub(crate) fn course_of<'d>(
    alloc: Global,
    setup: &'d Setup<'d>,
    trial: Trial,
    skipped: &[bool],
) -> Result<Vec<Vec<Difference>>, Memory>
    requires { IsOf setup.now.design.now setup.now }
    ensures { IfOk result (λ steps.
        IsCourseOf setup.now.design.now setup.now skipped.now trial.number steps.items) }
{
    let mut run = Run::begin(alloc, setup, trial)?;
    let mut steps = Vec::new(alloc);
    'steps: loop {
        match run.next(alloc)? {
            Progress::Rested => steps.push(run.differences(alloc, skipped)?)?,
            Progress::Unsettled => return Ok(steps),
            Progress::Ended => return Ok(steps),
        }
    }
}
