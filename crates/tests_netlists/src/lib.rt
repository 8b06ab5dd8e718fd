//! Netlists of designs and their simulators, for tests and benches.
#![tactic(auto)]

ghost use Rattle.std.specs.Prelude.{◌≡◌, ◌≤◌, length, map, IfOk};
ghost use Rattle.rtl_flat.specs.Flats.{flat, widths};
ghost use Rattle.netlist_eval.specs.Sims.{netlist_of};
ghost use Rattle.netlist_eval.specs.net_start.Stored.{places};
ghost use Rattle.tests_netlists.specs.declared.NoRun.TheVariants as no;

use event_model::setting::Setting;
use event_write::stores::width_of;
use net_model::fill::Fill;
use netlist_eval::infer_regs::registers;
use netlist_eval::net_list::alone::blocks;
use netlist_eval::net_list::netlist::Netlist;
use netlist_eval::net_start::stored::{stored, top_inputs};
use netlist_eval::sim::NetSim;
use rtl_bits::Vec4;
use rtl_flat::design::Design;
use rtl_flat::expr::SigId;
use std::alloc::{AllocError, AllocFailed, Global};
use text_ground::memory::Memory;
use thiserror::Error;

/// Why a netlist doesn't run.
#[derive(Clone, Copy, Debug, Error)]
pub enum NoRun {
    #[error("the design has no netlist")]
    NoNetlist,
    #[error("no such signal")]
    NoSignal,
    #[error("the netlist isn't simulated")]
    NotSimulated,
    #[error("the step isn't lawful")]
    Unlawful,
    #[error("out of memory")]
    Memory,
}

impl From<AllocError> for NoRun {
    ghost from_gives = { λ _ e. e ≡ no.Memory };

    fn from(_error: AllocError) -> NoRun {
        NoRun::Memory
    }
}

impl From<Memory> for NoRun {
    ghost from_gives = { λ _ e. e ≡ no.Memory };

    fn from(_error: Memory) -> NoRun {
        NoRun::Memory
    }
}

impl<T: Drop> From<AllocFailed<T>> for NoRun {
    ghost from_gives = { λ _ e. e ≡ no.Memory };

    fn from(_error: AllocFailed<T>) -> NoRun {
        NoRun::Memory
    }
}

/// The netlist of a design.
pub fn netlist(alloc: Global, design: &Design, fill: Fill) -> Result<Netlist<'_>, NoRun>
    ensures { IfOk result (λ netlist. netlist.design.now ≡ design.now) }
{
    let Ok(registers) = registers(alloc, design) else {
        return Err(NoRun::NoNetlist);
    };
    let Ok(blocks) = blocks(alloc, design, fill) else {
        return Err(NoRun::NoNetlist);
    };
    Ok(Netlist::join(registers, blocks))
}

/// The width of a signal.
pub fn width(design: &Design, signal: SigId) -> Result<u8, NoRun>
    ensures width { IfOk result (λ width. width ≡ widths (flat design.now) signal.0) }
    ensures within { IfOk result (λ width. (1 ≤ width) × (width ≤ 128)) }
{
    if signal.0 as usize >= design.signals.len() {
        return Err(NoRun::NoSignal);
    }
    Ok(width_of(&design.signals, signal))
}

/// A number for each of some signals, 0 past the end.
fn values(
    alloc: Global,
    design: &Design,
    signals: &[SigId],
    numbers: &[u128],
) -> Result<Vec<Vec4>, NoRun>
    ensures { IfOk result (λ values. map length values.items
        ≡ map (widths (flat design.now)) (places signals.now)) }
{
    let mut values = Vec::new(alloc);
    for place in 0..signals.len() {
        let number = numbers.get(place).copied().unwrap_or(0);
        values.push(Vec4::of_number(width(design, signals[place])?, number))?;
    }
    Ok(values)
}

/// A simulator that begins with numbers for registers and latches, and for inputs.
pub fn simulator<'n>(
    alloc: Global,
    netlist: &'n Netlist<'n>,
    held: &[u128],
    given: &[u128],
) -> Result<NetSim<'n>, NoRun>
    ensures { IfOk result (λ sim. netlist_of sim ≡ netlist.now) }
{
    let design = netlist.design;
    let holders = stored(alloc, design)?;
    let tops = top_inputs(alloc, design)?;
    let registers = values(alloc, design, &holders, held)?;
    let inputs = values(alloc, design, &tops, given)?;
    match NetSim::new(alloc, netlist, &registers, &inputs) {
        Ok(sim) => Ok(sim),
        Err(_) => Err(NoRun::NotSimulated),
    }
}

/// Takes a step that is lawful.
pub fn take(sim: &mut NetSim<'_>, settings: &[Setting]) -> Result<(), NoRun>
    ensures { netlist_of sim.new ≡ netlist_of sim.old }
{
    let step = sim.step_of(settings);
    if !sim.lawful(&step) {
        return Err(NoRun::Unlawful);
    }
    sim.step(&step);
    Ok(())
}

// Passed on to the crates above.
pub use netlist_eval;
pub use netlist_eval::{infer_regs, net_list, net_start};
