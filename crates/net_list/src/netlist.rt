//! What is inferred of a design.

ghost use Rattle.rtl_flat.specs.Flats.{flat};
ghost use Rattle.net_list.specs.Chosen.{AreClocked};
ghost use Rattle.net_list.specs.Faults.{AreApart, AreFormed};

use crate::blocks::Blocks;
use crate::clocked::Clocked;
use crate::registers::Registers;
use net_model::fill::Fill;
use rtl_flat::design::Design;

/// The registers of a design and the blocks between them. No bit may be written by two processes.
#[derive(Drop)]
pub struct Netlist<'d> {
    pub design: &'d Design,
    /// What stands for bits that have no number.
    pub fill: Fill,
    /// Each process that waits for edges, in order.
    pub clocked: Vec<Clocked<'d>>,
    pub ghost formed: { AreFormed (flat design.now) },
    pub ghost apart: { AreApart (flat design.now) },
    pub ghost chosen: { ∥ AreClocked (flat design.now) clocked.items ∥₁ },
}

impl<'d> Netlist<'d> {
    ghost use Rattle.std.specs.Prelude.{◌≡◌};

    /// The registers and the blocks of one design together. It takes no memory.
    pub fn join(registers: Registers<'d>, blocks: Blocks<'d>) -> Netlist<'d>
        requires { registers.design.now ≡ blocks.design.now }
        ensures design { result.design.now ≡ registers.entry.design.now }
        ensures fill { result.fill ≡ blocks.entry.fill }
        ensures clocked { result.clocked.items ≡ registers.entry.clocked.items }
    {
        Netlist {
            design: registers.design,
            fill: blocks.fill,
            clocked: registers.clocked,
        }
    }
}
