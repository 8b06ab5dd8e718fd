//! What a dump records at a time, beside the numbers of a netlist.

ghost use Rattle.std.specs.Prelude.{◌≡◌, ◌<◌, ◌≤◌, IfOk, MatchOption, length, map, not, true};
ghost use Rattle.std.specs.List.{All, list_all};
ghost use Rattle.std.specs.Option.{option_map};
ghost use Rattle.rtl_flat.specs.Flats.{flat, widths};
ghost use Rattle.netlist_eval.specs.Sims.{shown};
ghost use Rattle.netlist_eval.specs.Sims as sims;
ghost use Rattle.netlist_eval.specs.net_start.Stored.{places};
ghost use Rattle.netlist_eval.specs.net_settle.Settle.{setting_view};
ghost use Rattle.vcd_signals.specs.Recording.{IsRecorder, flat_of, kept, text_of};
ghost use Rattle.vcd_signals.specs.Signals.{is_recorded};
ghost use Rattle.vcd_check.specs.Checks.{AreNone, IsFirst, differs_from, is_compared, is_marked, seen};
ghost use Rattle.vcd_check.specs.Departure.{change_of, changed, is_known, or_none};

use event_model::setting::Setting;
use netlist_eval::sim::NetSim;
use rtl_bits::Vec4;
use rtl_flat::design::Design;
use rtl_flat::expr::SigId;
use std::alloc::Global;
use text_ground::memory::Memory;
use vcd_signals::Recorder;

/// Whether a signal is marked.
pub(crate) fn is_marked(marks: &[bool], signal: SigId) -> bool
    ensures { result ≡ is_marked marks.now signal.0 }
{
    marks.get(signal.0 as usize).copied().unwrap_or(false)
}

/// The first of the signals that are marked that isn't recorded.
pub(crate) fn first_missing(recorder: &Recorder, marks: &[bool]) -> Option<SigId>
    requires few { length marks.now ≤ 20000 }
    requires recorder { IsRecorder recorder.now }
    ensures { MatchOption result
        (AreNone (is_marked marks.now) (λ i. not (is_recorded (flat_of recorder.now)
        recorder.now.scope.now (text_of recorder.now) i)) (length marks.now))
        (λ signal. IsFirst (is_marked marks.now) (λ i. not (is_recorded (flat_of recorder.now)
        recorder.now.scope.now (text_of recorder.now) i)) (length marks.now) signal.0) }
{
    for number in 0..marks.len() {
        let signal = SigId(number as u32);
        if marks[number] && !recorder.is_recorded(signal) {
            return Some(signal);
        }
    }
    None
}

/// Whether a value is recorded and known.
fn is_known(value: Option<Vec4>) -> bool
    ensures { result ≡ is_known value }
{
    match value {
        None => false,
        Some(value) => value.is_known(),
    }
}

/// Whether all of some signals are known.
pub(crate) fn all_known(recorder: &Recorder, signals: &[SigId]) -> bool
    requires { IsRecorder recorder.now }
    ensures { result ≡ list_all (λ i. is_known (kept recorder.now i)) (places signals.now) }
{
    for signal in signals {
        if !is_known(recorder.value(*signal)) {
            return false;
        }
    }
    true
}

/// The values of signals that are known.
pub(crate) fn values(
    alloc: Global,
    recorder: &Recorder,
    signals: &[SigId],
) -> Result<Vec<Vec4>, Memory>
    requires recorder { IsRecorder recorder.now }
    requires known { list_all (λ i. is_known (kept recorder.now i)) (places signals.now) ≡ true }
    ensures values { IfOk result (λ made.
        made.items ≡ map (λ i. or_none (kept recorder.now i)) (places signals.now)) }
    ensures wide { IfOk result (λ made. map length made.items
        ≡ map (widths (flat_of recorder.now)) (places signals.now)) }
{
    let mut made = Vec::new(alloc);
    for signal in signals {
        if let Some(value) = recorder.value(*signal) {
            made.push(value)?;
        }
    }
    Ok(made)
}

/// An input whose value isn't its number, with that value.
fn change_of(net: &NetSim, input: SigId, value: Option<Vec4>) -> Option<Setting>
    requires { input.0 < length (sims.flat_of net.now).signals }
    ensures { option_map setting_view result ≡ change_of (shown net.now input.0) input.0 value }
{
    let value = value?;
    if value.is_same(net.value(input)) {
        return None;
    }
    Some(Setting {
        signal: input,
        value,
    })
}

/// All inputs whose value isn't their number, with that value.
pub(crate) fn changes(
    alloc: Global,
    recorder: &Recorder,
    net: &NetSim,
    inputs: &[SigId],
) -> Result<Vec<Setting>, Memory>
    requires recorder { IsRecorder recorder.now }
    requires inside { All (λ input. input.0 < length (sims.flat_of net.now).signals) inputs.now }
    ensures { IfOk result (λ made. map setting_view made.items
        ≡ changed (shown net.now) (seen recorder.now) (places inputs.now)) }
{
    let mut made = Vec::new(alloc);
    for input in inputs {
        if let Some(change) = change_of(net, *input, recorder.value(*input)) {
            made.push(change)?;
        }
    }
    Ok(made)
}

/// Whether a signal is compared: a top output, a register or a latch.
fn is_compared(design: &Design, stored: &[bool], signal: SigId) -> bool
    requires { signal.0 < length design.now.signals.items }
    ensures { result ≡ is_compared (flat design.now) stored.now signal.0 }
{
    design.signals[signal.0 as usize].top_output || is_marked(stored, signal)
}

/// Whether a value is recorded that isn't a number.
fn differs(value: Option<Vec4>, number: Vec4) -> bool
    ensures { result ≡ differs_from value number }
{
    match value {
        None => false,
        Some(value) => !value.is_same(number),
    }
}

/// The first signal that is compared and hasn't its number.
pub(crate) fn departure(
    design: &Design,
    stored: &[bool],
    recorder: &Recorder,
    net: &NetSim,
) -> Option<SigId>
    requires recorder { IsRecorder recorder.now }
    requires net { length (sims.flat_of net.now).signals ≡ length design.now.signals.items }
    ensures { MatchOption result
        (AreNone (is_compared (flat design.now) stored.now)
        (λ i. differs_from (kept recorder.now i) (shown net.now i)) (length design.now.signals.items))
        (λ signal. IsFirst (is_compared (flat design.now) stored.now)
        (λ i. differs_from (kept recorder.now i) (shown net.now i)) (length design.now.signals.items)
        signal.0) }
{
    for number in 0..design.signals.len() {
        let signal = SigId(number as u32);
        if is_compared(design, stored, signal)
            && differs(recorder.value(signal), net.value(signal))
        {
            return Some(signal);
        }
    }
    None
}
