//! Where a difference shows, and what it is.

ghost use Rattle.std.specs.Prelude.{◌≡◌, not};
ghost use Rattle.demo_told.specs.Same.{are_same};

use rtl_bits::Vec4;
use rtl_flat::expr::SigId;

/// Where the simulated design and the netlist differ.
#[derive(Clone, Copy)]
pub struct Demo {
    /// From 0 to 32.
    pub trial: u8,
    /// From 1.
    pub step: u8,
    pub signal: SigId,
}

/// What is there of a signal.
#[derive(Clone, Copy)]
pub struct Shown {
    /// In the simulator.
    pub simulated: Vec4,
    /// In the netlist.
    pub synthesised: Vec4,
}

impl Shown {
    /// Whether the two values differ.
    pub fn differs(&self) -> bool
        ensures { result ≡ not (are_same self.now.simulated self.now.synthesised) }
    {
        !self.simulated.is_same(self.synthesised)
    }
}
