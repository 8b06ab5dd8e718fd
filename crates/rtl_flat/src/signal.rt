//! Signals.

ghost use Rattle.std.specs.Prelude.{◌≡◌, position};
ghost use Rattle.std.specs.Str.{bytes_eq};

use text_ground::text::{Spot, Text};

/// What a signal is.
#[derive(Clone, Copy, PartialEq, Eq, Debug)]
pub enum Kind {
    /// An input of the top module.
    TopInput,
    Net,
    Var,
}

/// A net or a variable of an instance.
#[derive(Drop)]
pub struct Signal {
    /// The names of its instances and its own, with dots between them.
    pub path: Text,
    /// In bits, from 1 to 128.
    pub width: u8,
    pub signed: bool,
    /// The number that the declaration gives to the least significant bit.
    pub low: u32,
    pub kind: Kind,
    /// An output of the top module.
    pub top_output: bool,
    /// The number of its instance, from 0.
    pub instance: u32,
    pub spot: Spot,
}

/// The place of the first signal with a path.
pub(crate) fn place(signals: &[Signal], path: &str) -> Option<usize>
    ensures { result ≡ position (λ signal. bytes_eq signal.path path.now) signals.now }
{
    signals
        .iter()
        .position(|signal| signal.path.as_bytes() == path.as_bytes())
}
