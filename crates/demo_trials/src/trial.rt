//! A trial by its number.

ghost use Rattle.std.specs.Prelude.{◌≡◌, ◌≤◌, ◌<◌, ◌↔◌, false, length, IsSome, IfSome};
ghost use Rattle.rtl_bits.specs.Bits.{has_unknown};
ghost use Rattle.demo_trials.specs.Trials.{fill_of, policy_of, start_of, step_count};

use crate::draw::drawn;
use event_model::policy::Policy;
use net_model::fill::Fill;
use rtl_bits::{Bit, Vec4};

/// The trial that begins at power-up: it is the last.
pub(crate) const POWER_UP: u8 = 32;

/// The first trial whose values are drawn.
pub(crate) const FIRST_DRAWN: u8 = 8;

/// How many steps a trial has that doesn't begin at power-up.
pub(crate) const STEPS: u8 = 16;

/// One of the trials 0 to 32.
#[derive(Clone, Copy, PartialEq, Eq, Debug)]
pub struct Trial {
    pub(crate) number: u8,
    pub ghost in_range: { number ≤ 32 },
}

impl Trial {
    /// The trial with a number. None above 32.
    pub fn new(number: u8) -> Option<Trial>
        ensures some { IsSome result ↔ (number ≤ 32) }
        ensures number { IfSome result (λ trial. trial.number ≡ number) }
    {
        if number <= POWER_UP {
            Some(Trial { number })
        } else {
            None
        }
    }

    /// The trial's number, from 0 to 32.
    pub fn number(self) -> u8
        ensures exact { result ≡ self.number }
        ensures in_range { result ≤ 32 }
    {
        self.number
    }

    /// What stands for bits that have no number: 0 in even trials, 1 in odd ones.
    pub fn fill(self) -> Fill
        ensures { result ≡ fill_of self.number }
    {
        if self.number % 2 == 0 {
            Fill::Zero
        } else {
            Fill::One
        }
    }

    /// The order in which events are taken: the three in turn, and by level at power-up.
    pub fn policy(self) -> Policy
        ensures { result ≡ policy_of self.number }
    {
        if self.number == POWER_UP || self.number % 3 == 0 {
            Policy::Level
        } else if self.number % 3 == 1 {
            Policy::Ascending
        } else {
            Policy::Descending
        }
    }

    /// How many steps there are for so many inputs. They are numbered from 1.
    pub fn steps(self, inputs: usize) -> u8
        ensures { result ≡ step_count self.number inputs }
    {
        if self.number == POWER_UP {
            1
        } else if inputs == 0 {
            0
        } else {
            STEPS
        }
    }

    /// What an input, register or latch begins with, by its path and width. None at power-up, where signals have no
    /// values yet.
    pub fn start(self, path: &[u8], width: u8) -> Option<Vec4>
        requires not_empty { 1 ≤ width }
        requires at_most { width ≤ 128 }
        ensures exact { result ≡ start_of self.number path.now width }
        ensures given { IsSome result ↔ (self.number < 32) }
        ensures width { IfSome result (λ value. length value ≡ width) }
        ensures known { IfSome result (λ value. has_unknown value ≡ false) }
    {
        if self.number < FIRST_DRAWN {
            let bit = if self.number % 2 == 0 {
                Bit::Zero
            } else {
                Bit::One
            };
            Some(Vec4::filled(width, bit))
        } else if self.number < POWER_UP {
            Some(Vec4::of_number(width, drawn(self.number, 0, path)))
        } else {
            None
        }
    }
}
