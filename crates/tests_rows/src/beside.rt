//! A netlist beside the event queue.

ghost use Rattle.std.specs.Prelude.{◌≡◌, [], IfOk, OnOk};
ghost use Rattle.std.specs.List.{All};
ghost use Rattle.desk_steps.specs.Fitting.{AreFitting};
ghost use Rattle.rtl_flat.specs.Flats.{flat};
ghost use Rattle.event_queue.specs.Offers.{AreAllowed};
ghost use Rattle.event_queue.specs.Sims as events;
ghost use Rattle.tests_netlists.specs.netlist_eval.Sims.{flat_of, netlist_of};

use crate::look::Stop;
use desk_steps::read_steps;
use event_model::policy::Policy;
use event_model::setting::Setting;
use event_queue::sim::EventSim;
use event_queue::start::Start;
use net_model::fill::Fill;
use rtl_flat::design::Design;
use rtl_flat::expr::SigId;
use std::alloc::Global;
use tests_netlists::net_list::netlist::Netlist;
use tests_netlists::netlist_eval::sim::NetSim;
use tests_netlists::{netlist, simulator, take};

/// An event queue at rest with the numbers of a netlist.
fn beside<'d>(alloc: Global, design: &'d Design, sim: &NetSim<'_>) -> Result<EventSim<'d>, Stop>
    requires { flat_of sim.now ≡ flat design.now }
    ensures design { IfOk result (λ made. events.flat_of made ≡ flat design.now) }
    ensures active { IfOk result (λ made. (events.state_of made).activated ≡ []) }
    ensures delayed { IfOk result (λ made. (events.state_of made).delayed ≡ []) }
{
    let mut values = Vec::new(alloc);
    for number in 0..design.signals.len() {
        values.push(sim.value(SigId(number as u32)))?;
    }
    let start = Start::Values(values);
    Ok(EventSim::new(alloc, design, &start)?)
}

/// Takes a step in both, which is lawful and settles.
fn take_both(
    sim: &mut NetSim<'_>,
    queue: &mut EventSim<'_>,
    settings: &[Setting],
) -> Result<(), Stop>
    requires allowed { AreAllowed (events.flat_of queue.old) settings.now }
    requires active { (events.state_of queue.old).activated ≡ [] }
    requires delayed { (events.state_of queue.old).delayed ≡ [] }
    ensures netlist { netlist_of sim.new ≡ netlist_of sim.old }
    ensures design { OnOk result (events.flat_of queue.new ≡ events.flat_of queue.old) }
    ensures active { OnOk result ((events.state_of queue.new).activated ≡ []) }
    ensures delayed { OnOk result ((events.state_of queue.new).delayed ≡ []) }
{
    take(sim, settings)?;
    match queue.step(settings, Policy::Level) {
        Ok(()) => Ok(()),
        Err(_) => Err(Stop::Unsettled),
    }
}

/// Whether all signals have the same values.
fn agree(design: &Design, sim: &NetSim<'_>, queue: &EventSim<'_>) -> bool
    requires sim { flat_of sim.now ≡ flat design.now }
    requires queue { events.flat_of queue.now ≡ flat design.now }
{
    for number in 0..design.signals.len() {
        let signal = SigId(number as u32);
        if !sim.value(signal).is_same(queue.value(signal)) {
            return false;
        }
    }
    true
}

/// Takes steps in both, and tells whether all signals have the same values behind each.
fn alike(
    design: &Design,
    sim: &mut NetSim<'_>,
    queue: &mut EventSim<'_>,
    steps: &[Vec<Setting>],
) -> Result<bool, Stop>
    requires sim { flat_of sim.old ≡ flat design.now }
    requires queue { events.flat_of queue.old ≡ flat design.now }
    requires active { (events.state_of queue.old).activated ≡ [] }
    requires delayed { (events.state_of queue.old).delayed ≡ [] }
    requires fitting { All (λ step. AreFitting design.now.signals.items step.items) steps.now }
{
    for settings in steps {
        take_both(sim, queue, settings)?;
        if !agree(design, sim, queue) {
            return Ok(false);
        }
    }
    Ok(true)
}

/// How many steps a file has, where a netlist and an event queue have the same values behind each.
fn steps_alike(alloc: Global, netlist: &Netlist<'_>, lines: &[u8]) -> Result<Vec<u8>, Stop> {
    let design = netlist.design;
    let Ok(file) = read_steps(alloc, design, lines) else {
        return Err(Stop::NoSteps);
    };
    let mut sim = simulator(alloc, netlist, &[], &[])?;
    let mut queue = beside(alloc, design, &sim)?;
    if alike(design, &mut sim, &mut queue, &file.steps)? {
        Ok(format!(in alloc; "steps {} alike\n", file.steps.len())?.into_bytes())
    } else {
        Ok(Vec::from_slice(alloc, b"not alike\n")?)
    }
}

/// The same of the netlist of a design.
pub fn compared(alloc: Global, design: &Design, lines: &[u8]) -> Result<Vec<u8>, Stop> {
    let netlist = netlist(alloc, design, Fill::Zero)?;
    steps_alike(alloc, &netlist, lines)
}
