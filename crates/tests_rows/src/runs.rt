//! Runs of a netlist: what one signal has before the first step and after each.

ghost use Rattle.std.specs.Prelude.{◌≡◌};
ghost use Rattle.rtl_flat.specs.Flats.{flat};
ghost use Rattle.tests_netlists.specs.netlist_eval.Sims.{flat_of};

use crate::look::Stop;
use desk_steps::read_steps;
use net_model::fill::Fill;
use rtl_flat::design::Design;
use std::alloc::Global;
use tests_netlists::net_list::netlist::Netlist;
use tests_netlists::netlist_eval::sim::NetSim;
use tests_netlists::{netlist, simulator, take};

/// What registers and latches begin with, what inputs begin with, the lines of the steps, and the signal that is looked at.
#[derive(Clone, Copy)]
struct Run<'a> {
    held: &'a [u128],
    given: &'a [u128],
    steps: &'a [u8],
    signal: &'a str,
}

/// Writes the number of the signal with a path, behind a blank where others stand before it.
fn put_number(
    alloc: Global,
    design: &Design,
    sim: &NetSim<'_>,
    path: &str,
    out: &mut Vec<u8>,
) -> Result<(), Stop>
    requires { flat_of sim.now ≡ flat design.now }
{
    let Some(signal) = design.signal(path) else {
        return Err(Stop::NoSignal);
    };
    if !out.is_empty() {
        out.push(b' ')?;
    }
    let told = format!(in alloc; "{}", sim.value(signal).number())?;
    out.extend_from_slice(told.as_bytes())?;
    Ok(())
}

fn ran_over(alloc: Global, netlist: &Netlist<'_>, run: &Run<'_>) -> Result<Vec<u8>, Stop> {
    let design = netlist.design;
    let Ok(file) = read_steps(alloc, design, run.steps) else {
        return Err(Stop::NoSteps);
    };
    let mut sim = simulator(alloc, netlist, run.held, run.given)?;
    let mut out = Vec::new(alloc);
    put_number(alloc, design, &sim, run.signal, &mut out)?;
    for settings in &file.steps {
        take(&mut sim, settings)?;
        put_number(alloc, design, &sim, run.signal, &mut out)?;
    }
    Ok(out)
}

/// The numbers of a list with commas between them, or none of `-`.
fn numbers(alloc: Global, text: &str) -> Result<Vec<u128>, Stop> {
    let mut numbers = Vec::new(alloc);
    if text == "-" {
        return Ok(numbers);
    }
    for number in text.split(",") {
        let Ok(number) = number.parse::<u128>() else {
            return Err(Stop::NoLook);
        };
        numbers.push(number)?;
    }
    Ok(numbers)
}

/// The numbers of a signal, where words tell the fill, the signal, and what registers and latches and inputs begin with.
pub fn ran(
    alloc: Global,
    design: &Design,
    words: &[String],
    steps: &[u8],
) -> Result<Vec<u8>, Stop> {
    let [fill, signal, held, given] = words else {
        return Err(Stop::NoLook);
    };
    let fill = if fill.as_str() == "one" {
        Fill::One
    } else {
        Fill::Zero
    };
    let held = numbers(alloc, held)?;
    let given = numbers(alloc, given)?;
    let netlist = netlist(alloc, design, fill)?;
    let run = Run {
        held: &held,
        given: &given,
        steps,
        signal,
    };
    let mut out = ran_over(alloc, &netlist, &run)?;
    out.push(b'\n')?;
    Ok(out)
}
