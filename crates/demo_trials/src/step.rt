//! What the steps of trials set.

ghost use Rattle.std.specs.Prelude.{◌≡◌, ◌==◌, ◌%◌, ◌<◌, ◌&&◌, ◌||◌, ℕ, Bool, IfOk, map, nat_lt, not};
ghost use Rattle.std.specs.List.{count_by, filter, slice_get};
ghost use Rattle.std.specs.Option.{option_map};
ghost use Rattle.demo_trials.specs.Fitting.{AreInputsKnown, AreSettingsKnown, InputsMeet, SettingsMeet};
ghost use Rattle.demo_trials.specs.Steps.{complement_of, controls, data_inputs, drawn_setting, drawn_step, input, step_of, turning_step, zero_setting};

use crate::draw::drawn;
use crate::input::Input;
use crate::trial::{FIRST_DRAWN, POWER_UP, Trial};
use event_model::setting::Setting;
use std::alloc::Global;
use text_ground::memory::Memory;

impl Trial {
    /// What a step sets, where the inputs have these values before it. Inputs stand in the order of the header.
    pub fn step(self, alloc: Global, step: u8, inputs: &[Input<'_>]) -> Result<Vec<Setting>, Memory>
        ensures exact { IfOk result (λ settings. settings.items
            ≡ step_of self.number step (map input inputs.now)) }
        ensures fitting { IfOk result (λ settings. (test : ℕ → ℕ → Bool)
            → InputsMeet test inputs.now → SettingsMeet test settings.items) }
        ensures known { IfOk result (λ settings. (self.number < 32 → AreInputsKnown inputs.now)
            → AreSettingsKnown settings.items) }
    {
        settings_of(alloc, self.number, step, inputs)
    }
}

/// What a step of the trial with a number sets.
#[tactic(auto, using(crate::proofs::Sorts::zeros_of))]
fn settings_of(
    alloc: Global,
    trial: u8,
    step: u8,
    inputs: &[Input<'_>],
) -> Result<Vec<Setting>, Memory>
    ensures { IfOk result (λ settings. settings.items ≡ step_of trial step (map input inputs.now)) }
{
    if trial < FIRST_DRAWN {
        turning_step(alloc, trial, step, inputs)
    } else if trial < POWER_UP {
        drawn_step(alloc, trial, step, inputs)
    } else {
        zero_step(alloc, inputs)
    }
}

/// Complements one input.
fn turning_step(
    alloc: Global,
    trial: u8,
    step: u8,
    inputs: &[Input<'_>],
) -> Result<Vec<Setting>, Memory>
    ensures { IfOk result (λ settings. settings.items
        ≡ turning_step trial step (map input inputs.now)) }
{
    let mut settings = Vec::new(alloc);
    if !inputs.is_empty() {
        let at = (step.trailing_zeros() as usize + (trial / 2) as usize) % inputs.len();
        settings.push(inputs[at].complement())?;
    }
    Ok(settings)
}

/// Complements one control input, or draws all other inputs.
#[tactic(auto, using(crate::proofs::Sorts::same_test, crate::proofs::Sorts::counted, crate::proofs::Sorts::data_of))]
fn drawn_step(
    alloc: Global,
    trial: u8,
    step: u8,
    inputs: &[Input<'_>],
) -> Result<Vec<Setting>, Memory>
    ensures { IfOk result (λ settings. settings.items
        ≡ drawn_step trial step (map input inputs.now)) }
{
    let controls = count_controls(inputs);
    if is_control_step(step, controls, inputs.len()) {
        let at = drawn(trial, step, b"control") % controls as u128;
        complement_control(alloc, at as usize, inputs)
    } else {
        draw_data(alloc, trial, step, inputs)
    }
}

/// How many control inputs there are.
fn count_controls(inputs: &[Input<'_>]) -> usize
    ensures { result ≡ count_by (λ kept. kept.is_control) inputs.now }
{
    inputs.iter().filter(|input| input.is_control).count()
}

/// Whether a step complements a control input, where there are so many of them among so many inputs.
fn is_control_step(step: u8, controls: usize, inputs: usize) -> bool
    ensures { result ≡ (nat_lt 0 controls && ((step % 2 == 0) || (controls == inputs))) }
{
    controls > 0 && (step % 2 == 0 || controls == inputs)
}

/// Complements the control input before which so many stand.
fn complement_control(
    alloc: Global,
    before: usize,
    inputs: &[Input<'_>],
) -> Result<Vec<Setting>, Memory>
    ensures { IfOk result (λ settings. settings.items
        ≡ complement_of (slice_get (controls (map input inputs.now)) before)) }
{
    let mut settings = Vec::new(alloc);
    if let Some(input) = control_at(before, inputs) {
        settings.push(input.complement())?;
    }
    Ok(settings)
}

/// The control input before which so many stand.
fn control_at<'a, 'd>(before: usize, inputs: &'a [Input<'d>]) -> Option<&'a Input<'d>>
    ensures { option_map (λ found. input found.now) result
        ≡ slice_get (controls (map input inputs.now)) before }
{
    let mut left = before;
    for input in inputs {
        if input.is_control {
            if left == 0 {
                return Some(input);
            }
            left -= 1;
        }
    }
    None
}

/// Draws all inputs that are no control inputs.
fn draw_data(
    alloc: Global,
    trial: u8,
    step: u8,
    inputs: &[Input<'_>],
) -> Result<Vec<Setting>, Memory>
    ensures { IfOk result (λ settings. settings.items
        ≡ map (λ kept. drawn_setting trial step (input kept))
        (filter (λ kept. not kept.is_control) inputs.now)) }
{
    let settings = inputs
        .iter()
        .filter(|input| !input.is_control)
        .map(|input| input.draw(trial, step))
        .collect(alloc)?;
    Ok(settings)
}

/// Sets all inputs to 0.
fn zero_step(alloc: Global, inputs: &[Input<'_>]) -> Result<Vec<Setting>, Memory>
    ensures { IfOk result (λ settings. settings.items
        ≡ map (λ kept. zero_setting (input kept)) inputs.now) }
{
    let settings = inputs.iter().map(|input| input.zero()).collect(alloc)?;
    Ok(settings)
}
