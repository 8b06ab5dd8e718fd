//! A step, event by event.

ghost use Rattle.std.specs.Prelude.{◌≡◌, IfOk};
ghost use Rattle.rtl_flat.specs.Flats.{flat};
ghost use Rattle.event_queue.specs.Sims.{flat_of};

use crate::look::Stop;
use desk_report::push_value;
use desk_steps::read_steps;
use event_queue::sim::EventSim;
use event_queue::start::Start;
use rtl_flat::design::Design;
use std::alloc::Global;

/// A simulator from power-up, to which the settings of the first of some steps are offered.
fn offered<'d>(alloc: Global, design: &'d Design, lines: &[u8]) -> Result<EventSim<'d>, Stop>
    ensures { IfOk result (λ sim. flat_of sim ≡ flat design.now) }
{
    let Ok(file) = read_steps(alloc, design, lines) else {
        return Err(Stop::NoSteps);
    };
    let Some(settings) = file.steps.first() else {
        return Err(Stop::NoSteps);
    };
    let mut sim = EventSim::new(alloc, design, &Start::PowerUp)?;
    sim.offer(settings);
    Ok(sim)
}

/// How many events are taken, each the last of those that are active, until none is.
fn take_last(sim: &mut EventSim<'_>) -> Result<u32, Stop>
    ensures { flat_of sim.new ≡ flat_of sim.old }
{
    for taken in 0..1000 {
        let choices = sim.choices();
        if choices == 0 {
            return Ok(taken);
        }
        if sim.take(choices - 1).is_err() {
            return Err(Stop::Unsettled);
        }
    }
    Err(Stop::Unsettled)
}

/// Writes ` PATH=V` for the signal with a path.
fn put_value(
    alloc: Global,
    design: &Design,
    sim: &EventSim<'_>,
    path: &str,
    out: &mut Vec<u8>,
) -> Result<(), Stop>
    requires { flat_of sim.now ≡ flat design.now }
{
    let Some(signal) = design.signal(path) else {
        return Err(Stop::NoSignal);
    };
    out.extend_from_slice(format!(in alloc; " {path}=")?.as_bytes())?;
    push_value(alloc, sim.value(signal), out)?;
    Ok(())
}

/// How many events the first step of a file takes from power-up, and what some signals have then.
pub fn taken(
    alloc: Global,
    design: &Design,
    paths: &[String],
    lines: &[u8],
) -> Result<Vec<u8>, Stop> {
    let mut sim = offered(alloc, design, lines)?;
    let taken = take_last(&mut sim)?;
    let mut out = format!(in alloc; "events {taken}")?.into_bytes();
    for path in paths {
        put_value(alloc, design, &sim, path, &mut out)?;
    }
    out.push(b'\n')?;
    Ok(out)
}
