//! Steps of the world around a netlist.

use event_model::setting::Setting;

/// A step.
#[derive(Clone, Copy)]
pub enum Step<'a> {
    /// Data inputs are set; of two settings of one input the last counts.
    Data(&'a [Setting]),
    /// One clock, reset or gate is set to the other value.
    Turn(Setting),
}
