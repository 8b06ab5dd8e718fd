// Where a trial begins.

ghost use Rattle.std.specs.Prelude.{◌≡◌, ◌==◌, ◌<◌, ◌≤◌, cond, length, map, replicate, IfOk};
ghost use Rattle.std.specs.List.{All};
ghost use Rattle.rtl_bits.specs.declared.Bit.TheVariants.{X};
ghost use Rattle.rtl_flat.specs.Value.{store};
ghost use Rattle.rtl_flat.specs.Flats.{flat, widths};
ghost use Rattle.event_queue.specs.Starts.{IsStart, start_of};
ghost use Rattle.event_queue.specs.event_write.Stored.{AreStored};
ghost use Rattle.netlist_eval.specs.Sims.{flat_of, shown};
ghost use Rattle.net_model.specs.Numbers.{AreNumbers};
ghost use Rattle.netlist_eval.specs.net_start.Stored.{places};
ghost use Rattle.demo_trials.specs.Steps.{input};
ghost use Rattle.demo_replay.specs.Setups.{first_value};
ghost use Rattle.demo_replay.specs.Runs.{AreTaken, IsFirstState, input_of};
ghost use Rattle.demo_replay.specs.Tables.{IsOf, plain, is_marked};

use crate::setup::Setup;
use demo_trials::{Input, Trial};
use event_queue::start::Start;
use netlist_eval::sim::NetSim;
use rtl_bits::{Bit, Vec4};
use rtl_flat::design::Design;
use rtl_flat::expr::SigId;
use std::alloc::Global;
use text_ground::memory::Memory;

/// The trial that begins at power-up.
pub(crate) const POWER_UP: u8 = 32;

/// What a register, a latch or an input begins with: where the trial begins at power-up, the
/// netlist has 0.
fn first_value(design: &Design, trial: Trial, signal: SigId) -> Vec4
    requires { signal.0 < length design.now.signals.items }
    ensures value { result ≡ first_value (flat design.now) trial.number signal.0 }
    ensures width { length result ≡ widths (flat design.now) signal.0 }
{
    let signal = &design.signals[signal.0 as usize];
    match trial.start(signal.path.as_bytes(), signal.width) {
        Some(value) => value,
        None => Vec4::filled(signal.width, Bit::Zero),
    }
}

/// What some signals begin with.
pub(crate) fn first_values(
    alloc: Global,
    design: &Design,
    trial: Trial,
    signals: &[SigId],
) -> Result<Vec<Vec4>, Memory>
    requires { All (λ signal. signal.0 < length design.now.signals.items) signals.now }
    ensures values { IfOk result (λ values.
        values.items ≡ map (first_value (flat design.now) trial.number) (places signals.now)) }
    ensures widths { IfOk result (λ values.
        map length values.items ≡ map (widths (flat design.now)) (places signals.now)) }
{
    let mut values = Vec::new(alloc);
    for signal in signals {
        values.push(first_value(design, trial, *signal))?;
    }
    Ok(values)
}

/// The value of a signal in the simulator, where it begins at the numbers of a netlist: a temporary
/// has none.
fn taken_value(setup: &Setup, net: &NetSim, signal: SigId, width: u8) -> Vec4
    requires there { signal.0 < length (flat_of net.now).signals }
    requires not_empty { 1 ≤ width }
    requires at_most { width ≤ 128 }
    ensures { result ≡ cond (is_marked setup.now.temporaries.items signal.0)
        (replicate width X) (shown net.now signal.0) }
{
    if setup.is_temporary(signal) {
        Vec4::filled(width, Bit::X)
    } else {
        net.value(signal)
    }
}

/// The values of all signals there.
fn taken_values(alloc: Global, setup: &Setup, net: &NetSim) -> Result<Vec<Vec4>, Memory>
    requires is_of { IsOf setup.now.design.now setup.now }
    requires design { flat_of net.now ≡ flat setup.now.design.now }
    requires numbers { AreNumbers (flat setup.now.design.now) (shown net.now) }
    ensures stored { IfOk result (λ values.
        AreStored setup.now.design.now.signals.items values.items) }
    ensures taken { IfOk result (λ values.
        AreTaken (flat setup.now.design.now) (shown net.now) (store values.items)) }
{
    let mut values = Vec::new(alloc);
    for (number, signal) in setup.design.signals.iter().enumerate() {
        values.push(taken_value(setup, net, SigId(number as u32), signal.width))?;
    }
    Ok(values)
}

/// Where the simulator of a trial begins: at power-up, or at the numbers of the netlist.
pub(crate) fn start_of(
    alloc: Global,
    setup: &Setup,
    net: &NetSim,
    trial: Trial,
) -> Result<Start, Memory>
    requires is_of { IsOf setup.now.design.now setup.now }
    requires design { flat_of net.now ≡ flat setup.now.design.now }
    requires numbers { AreNumbers (flat setup.now.design.now) (shown net.now) }
    ensures lawful { IfOk result (λ start. IsStart setup.now.design.now start) }
    ensures first { let d = flat setup.now.design.now in
        IfOk result (λ start.
        IsFirstState d (trial.number == 32) (shown net.now) (start_of d start)) }
{
    if trial.number() == POWER_UP {
        Ok(Start::PowerUp)
    } else {
        Ok(Start::Values(taken_values(alloc, setup, net)?))
    }
}

/// A top input as a step sees it.
fn input_of<'d>(setup: &Setup<'d>, net: &NetSim, top: SigId) -> Input<'d>
    requires inside { top.0 < length setup.now.design.now.signals.items }
    requires design { flat_of net.now ≡ flat setup.now.design.now }
    ensures { input result
        ≡ input_of (flat setup.now.design.now) (plain setup.now) (shown net.now) top.0 }
{
    Input {
        signal: top,
        path: setup.design.signals[top.0 as usize].path.as_bytes(),
        is_control: setup.is_control(top),
        value: net.value(top),
    }
}

/// The top inputs as a step sees them.
pub(crate) fn inputs_of<'d>(
    alloc: Global,
    setup: &Setup<'d>,
    net: &NetSim,
) -> Result<Vec<Input<'d>>, Memory>
    requires is_of { IsOf setup.now.design.now setup.now }
    requires design { flat_of net.now ≡ flat setup.now.design.now }
    ensures { IfOk result (λ inputs. map input inputs.items
        ≡ map (input_of (flat setup.now.design.now) (plain setup.now) (shown net.now))
        (plain setup.now).tops) }
{
    let inputs = setup
        .basis
        .tops
        .iter()
        .map(|top| input_of(setup, net, *top))
        .collect(alloc)?;
    Ok(inputs)
}
