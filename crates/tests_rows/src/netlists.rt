//! A netlist that runs, for what it costs and for a look at its numbers. Registers, latches and inputs begin with 0.

ghost use Rattle.std.specs.Prelude.{◌≡◌};
ghost use Rattle.rtl_flat.specs.Flats.{flat};
ghost use Rattle.tests_netlists.specs.netlist_eval.Sims.{flat_of};

use crate::look::Stop;
use desk_steps::read_steps;
use net_model::fill::Fill;
use rtl_flat::design::Design;
use rtl_flat::expr::SigId;
use std::alloc::Global;
use tests_netlists::net_list::netlist::Netlist;
use tests_netlists::netlist_eval::sim::NetSim;
use tests_netlists::{netlist, simulator, take};

/// How many processes and signals a design has.
pub fn size(alloc: Global, design: &Design) -> Result<Vec<u8>, Stop> {
    let processes = design.processes.len();
    let signals = design.signals.len();
    Ok(format!(in alloc; "processes {processes} signals {signals}\n")?.into_bytes())
}

/// All numbers, folded into one.
fn checksum(design: &Design, sim: &NetSim<'_>) -> u128
    requires { flat_of sim.now ≡ flat design.now }
{
    let mut folded = 0u128;
    for place in 0..design.signals.len() {
        folded = (folded << 7) ^ (folded >> 121) ^ sim.value(SigId(place as u32)).number();
    }
    folded
}

/// All numbers of a netlist before its first step.
fn begun_over(alloc: Global, netlist: &Netlist<'_>) -> Result<Vec<u8>, Stop> {
    let design = netlist.design;
    let sim = simulator(alloc, netlist, &[], &[])?;
    Ok(format!(in alloc; "checksum {:x}\n", checksum(design, &sim))?.into_bytes())
}

/// All numbers of a design's netlist before its first step.
pub fn begun(alloc: Global, design: &Design) -> Result<Vec<u8>, Stop> {
    let netlist = netlist(alloc, design, Fill::Zero)?;
    begun_over(alloc, &netlist)
}

/// Takes the steps of a file, and says how many they are and what all numbers are behind them.
fn stepped(
    alloc: Global,
    design: &Design,
    sim: &mut NetSim<'_>,
    lines: &[u8],
) -> Result<Vec<u8>, Stop>
    requires { flat_of sim.old ≡ flat design.now }
{
    let Ok(file) = read_steps(alloc, design, lines) else {
        return Err(Stop::NoSteps);
    };
    for settings in &file.steps {
        take(sim, settings)?;
    }
    Ok(format!(in alloc;
        "steps {} checksum {:x}\n",
        file.steps.len(),
        checksum(design, sim)
    )?
    .into_bytes())
}

/// All numbers of a netlist behind the steps of a file.
fn ran_over(alloc: Global, netlist: &Netlist<'_>, lines: &[u8]) -> Result<Vec<u8>, Stop> {
    let design = netlist.design;
    let mut sim = simulator(alloc, netlist, &[], &[])?;
    stepped(alloc, design, &mut sim, lines)
}

/// All numbers of a design's netlist behind the steps of a file.
pub fn ran(alloc: Global, design: &Design, lines: &[u8]) -> Result<Vec<u8>, Stop> {
    let netlist = netlist(alloc, design, Fill::Zero)?;
    ran_over(alloc, &netlist, lines)
}
