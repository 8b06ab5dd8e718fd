//! The steps of a netlist up to a time of a dump.

ghost use Rattle.std.specs.Prelude.{◌≡◌, ◌∷◌, IfOk, map, not};
ghost use Rattle.std.specs.List.{All, filter, list_all};
ghost use Rattle.rtl_bits.specs.Bits.{has_unknown};
ghost use Rattle.rtl_flat.specs.Flats.{flat};
ghost use Rattle.net_model.specs.declared.fill.Fill.TheVariants.{Zero as ZeroFill};
ghost use Rattle.net_model.specs.Cycle as cycle;
ghost use Rattle.net_model.specs.Lawful.{SetsData, TurnsControl};
ghost use Rattle.netlist_eval.specs.Basis.{IsBasisOf};
ghost use Rattle.netlist_eval.specs.Sims.{flat_of, netlist_of, shown};
ghost use Rattle.netlist_eval.specs.net_settle.Settle.{setting_view};
ghost use Rattle.vcd_signals.specs.Recording.{IsRecorder};
ghost use Rattle.vcd_check.specs.Checks.{Follows, Takes, data_steps, is_marked, seen, watched_of};
ghost use Rattle.vcd_check.specs.Departure.{AreCycles, read_as};

use crate::sight::{changes, is_marked};
use event_model::setting::Setting;
use netlist_eval::basis::Basis;
use netlist_eval::sim::NetSim;
use netlist_eval::step::Step;
use std::alloc::Global;
use text_ground::memory::Memory;
use vcd_signals::Recorder;

/// Whether all values that are set are known.
fn are_known(settings: &[Setting]) -> bool
    ensures { result ≡ list_all (λ (setting : cycle.Setting). not (has_unknown setting.number))
        (map setting_view settings.now) }
{
    for setting in settings {
        if !setting.value.is_known() {
            return false;
        }
    }
    true
}

/// The settings of clocks, resets and gates.
fn controls_of(alloc: Global, marks: &[bool], settings: &[Setting]) -> Result<Vec<Setting>, Memory>
    ensures { IfOk result (λ made. map setting_view made.items
        ≡ filter (λ (setting : cycle.Setting). is_marked marks.now setting.input) (map setting_view settings.now)) }
{
    let mut made = Vec::new(alloc);
    for setting in settings {
        if is_marked(marks, setting.signal) {
            made.push(*setting)?;
        }
    }
    Ok(made)
}

/// The settings of all other inputs.
fn data_of(alloc: Global, marks: &[bool], settings: &[Setting]) -> Result<Vec<Setting>, Memory>
    ensures { IfOk result (λ made. map setting_view made.items
        ≡ filter (λ (setting : cycle.Setting). not (is_marked marks.now setting.input)) (map setting_view settings.now)) }
{
    let mut made = Vec::new(alloc);
    for setting in settings {
        if !is_marked(marks, setting.signal) {
            made.push(*setting)?;
        }
    }
    Ok(made)
}

/// Sets data inputs, if there are some.
fn set_data(net: &mut NetSim, settings: &[Setting])
    requires zero { (netlist_of net.old).fill ≡ ZeroFill }
    requires data { All (SetsData (flat_of net.old)) (map setting_view settings.now) }
    ensures cycles { AreCycles (flat_of net.old) (data_steps (map setting_view settings.now))
        (shown net.old) (shown net.new) }
    ensures netlist { netlist_of net.new ≡ netlist_of net.old }
{
    if !settings.is_empty() {
        net.step(&Step::Data(settings));
    }
}

/// Turns a clock, a reset or a gate, and then sets data inputs, if there are some.
fn turn(net: &mut NetSim, control: Setting, settings: &[Setting])
    requires zero { (netlist_of net.old).fill ≡ ZeroFill }
    requires control { TurnsControl (flat_of net.old) (shown net.old) (setting_view control) }
    requires data { All (SetsData (flat_of net.old)) (map setting_view settings.now) }
    ensures cycles { AreCycles (flat_of net.old)
        (cycle.Turn (setting_view control) ∷ data_steps (map setting_view settings.now))
        (shown net.old) (shown net.new) }
    ensures netlist { netlist_of net.new ≡ netlist_of net.old }
{
    net.step(&Step::Turn(control));
    set_data(net, settings);
}

/// Takes the steps that settings are read as, if there are such steps.
fn take_steps(net: &mut NetSim, controls: &[Setting], settings: &[Setting]) -> bool
    requires zero { (netlist_of net.old).fill ≡ ZeroFill }
    requires controls { All (TurnsControl (flat_of net.old) (shown net.old)) (map setting_view controls.now) }
    requires data { All (SetsData (flat_of net.old)) (map setting_view settings.now) }
    ensures taken { Takes (flat_of net.old) (read_as (map setting_view controls.now) (map setting_view settings.now))
        (shown net.old) result (shown net.new) }
    ensures netlist { netlist_of net.new ≡ netlist_of net.old }
{
    match controls {
        [] => {
            set_data(net, settings);
            true
        }
        [control] => {
            turn(net, *control, settings);
            true
        }
        _ => false,
    }
}

/// Takes the steps up to what is recorded now; false where there are none.
pub(crate) fn follow(
    alloc: Global,
    basis: &Basis,
    recorder: &Recorder,
    net: &mut NetSim,
) -> Result<bool, Memory>
    requires zero { (netlist_of net.old).fill ≡ ZeroFill }
    requires basis { IsBasisOf (flat_of net.old) basis.now }
    requires recorder { IsRecorder recorder.now }
    requires design { flat recorder.now.design.now ≡ flat_of net.old }
    ensures follows { IfOk result (λ followed. Follows (flat_of net.old) (watched_of basis.now)
        (shown net.old) (seen recorder.now) followed (shown net.new)) }
    ensures netlist { netlist_of net.new ≡ netlist_of net.old }
{
    let settings = changes(alloc, recorder, net, &basis.tops)?;
    if !are_known(&settings) {
        return Ok(false);
    }
    let controls = controls_of(alloc, &basis.controls, &settings)?;
    let data = data_of(alloc, &basis.controls, &settings)?;
    Ok(take_steps(net, &controls, &data))
}
