//! Top inputs, as the steps of trials see them.

ghost use Rattle.std.specs.Prelude.{◌≡◌};
ghost use Rattle.demo_trials.specs.Steps.{complement, drawn_setting, input, zero_setting};

use crate::draw::drawn;
use event_model::setting::Setting;
use rtl_bits::{Bit, Vec4};
use rtl_flat::expr::SigId;

/// A top input.
#[derive(Clone, Copy)]
pub struct Input<'d> {
    pub signal: SigId,
    pub path: &'d [u8],
    /// Whether it is a control input: a clock, a reset or the gate of a latch.
    pub is_control: bool,
    /// The value that it has, of its width.
    pub value: Vec4,
}

impl<'d> Input<'d> {
    /// What complements every bit of the input.
    pub(crate) fn complement(&self) -> Setting
        ensures { result ≡ complement (input self.now) }
    {
        Setting {
            signal: self.signal,
            value: self.value.not(),
        }
    }

    /// What a trial draws in a step for the input.
    pub(crate) fn draw(&self, trial: u8, step: u8) -> Setting
        ensures { result ≡ drawn_setting trial step (input self.now) }
    {
        Setting {
            signal: self.signal,
            value: Vec4::of_number(self.value.width(), drawn(trial, step, self.path)),
        }
    }

    /// What sets every bit of the input to 0.
    pub(crate) fn zero(&self) -> Setting
        ensures { result ≡ zero_setting (input self.now) }
    {
        Setting {
            signal: self.signal,
            value: Vec4::filled(self.value.width(), Bit::Zero),
        }
    }
}
