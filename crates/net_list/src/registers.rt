//! The registers of a design.

ghost use Rattle.rtl_flat.specs.Flats.{flat};
ghost use Rattle.net_list.specs.Chosen.{AreClocked};
ghost use Rattle.net_list.specs.Faults.{AreFormed};

use crate::clocked::Clocked;
use rtl_flat::design::Design;

/// The registers of a design in which each process that waits for edges has a clock and resets.
#[derive(Drop)]
pub struct Registers<'d> {
    pub design: &'d Design,
    /// Each process that waits for edges, in order.
    pub clocked: Vec<Clocked<'d>>,
    pub ghost formed: { AreFormed (flat design.now) },
    pub ghost chosen: { ∥ AreClocked (flat design.now) clocked.items ∥₁ },
}
