//! The netlist of a design, and what its simulators begin with.

ghost use Rattle.std.specs.Prelude.{IfOk, IfSome, MatchOption};
ghost use Rattle.rtl_flat.specs.Flats.{flat};
ghost use Rattle.netlist_eval.specs.net_list.Faults.{AreAlone, AreFormed};
ghost use Rattle.netlist_eval.specs.Basis.{IsBasisOf};
ghost use Rattle.vcd_check.specs.Checks.{IsNetlistOf};
ghost use Rattle.vcd_check.specs.Verdicts.{LacksNetlist};

use net_model::fill::Fill;
use netlist_eval::basis::Basis;
use netlist_eval::fault::NetFault;
use netlist_eval::infer_regs::registers;
use netlist_eval::net_list::alone::blocks;
use netlist_eval::net_list::fault::InferFault;
use netlist_eval::net_list::netlist::Netlist;
use rtl_flat::design::Design;
use std::alloc::Global;
use text_ground::memory::Memory;

/// The netlist of a design, if it has one.
pub(crate) fn netlist_of(alloc: Global, design: &Design) -> Result<Option<Netlist<'_>>, Memory>
    ensures netlist { IfOk result (λ found.
        MatchOption found (LacksNetlist (flat design.now)) (IsNetlistOf design.now)) }
    ensures formed { IfOk result (λ found. IfSome found (λ _. AreFormed (flat design.now))) }
    ensures alone { IfOk result (λ found. IfSome found (λ _. AreAlone (flat design.now))) }
{
    let registers = match registers(alloc, design) {
        Ok(registers) => registers,
        Err(InferFault::Shape(_)) => return Ok(None),
        Err(InferFault::Memory) => return Err(Memory),
    };
    match blocks(alloc, design, Fill::Zero) {
        Ok(blocks) => Ok(Some(Netlist::join(registers, blocks))),
        Err(InferFault::Shape(_)) => Ok(None),
        Err(InferFault::Memory) => Err(Memory),
    }
}

/// What simulators of a design's netlist begin with; nothing where its blocks feed one another in a cycle.
pub(crate) fn basis_of(alloc: Global, design: &Design) -> Result<Option<Basis>, Memory>
    ensures { IfOk result (λ found.
        MatchOption found (LacksNetlist (flat design.now)) (IsBasisOf (flat design.now))) }
{
    match Basis::of(alloc, design) {
        Ok(basis) => Ok(Some(basis)),
        Err(NetFault::Cyclic(_)) => Ok(None),
        // It is made of no values.
        Err(NetFault::NotKnown(_)) => unreachable!(),
        Err(NetFault::Memory) => Err(Memory),
    }
}
