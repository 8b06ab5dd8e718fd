// What all trials of a design begin with.

ghost use Rattle.std.specs.Prelude.{◌≡◌, IfOk, IfSome, MatchOption};
ghost use Rattle.rtl_flat.specs.Flats.{flat};
ghost use Rattle.netlist_eval.specs.net_list.Faults.{AreAlone, AreFormed};
ghost use Rattle.netlist_eval.specs.Basis.{IsBasisOf};
ghost use Rattle.demo_replay.specs.Setups.{LacksNetlist};
ghost use Rattle.demo_replay.specs.Tables.{IsNetlistOf, is_marked};

use event_queue::rtl_scan::{levels, temporaries};
use net_model::fill::Fill;
use netlist_eval::basis::Basis;
use netlist_eval::fault::NetFault;
use netlist_eval::infer_regs::registers;
use netlist_eval::net_list::alone::blocks;
use netlist_eval::net_list::fault::InferFault;
use netlist_eval::net_list::netlist::Netlist;
use rtl_flat::design::Design;
use rtl_flat::expr::SigId;
use std::alloc::Global;
use text_ground::memory::Memory;

/// A design with what its trials begin with.
#[derive(Drop)]
pub(crate) struct Setup<'d> {
    pub design: &'d Design,
    /// Its netlist with 0 for bits that have no number, and with 1.
    zero: Netlist<'d>,
    one: Netlist<'d>,
    /// What simulators of both begin with.
    pub basis: Basis,
    /// Of each signal whether it is a temporary.
    pub temporaries: Vec<bool>,
    /// The level of each process.
    pub levels: Vec<Option<u32>>,
}

/// The netlist of a design, if it has one.
fn netlist_of<'d>(
    alloc: Global,
    design: &'d Design,
    fill: Fill,
) -> Result<Option<Netlist<'d>>, Memory>
    ensures netlist { IfOk result (λ found.
        MatchOption found (LacksNetlist (flat design.now)) (IsNetlistOf design.now fill)) }
    ensures formed { IfOk result (λ found. IfSome found (λ _. AreFormed (flat design.now))) }
    ensures alone { IfOk result (λ found. IfSome found (λ _. AreAlone (flat design.now))) }
{
    let registers = match registers(alloc, design) {
        Ok(registers) => registers,
        Err(InferFault::Shape(_)) => return Ok(None),
        Err(InferFault::Memory) => return Err(Memory),
    };
    match blocks(alloc, design, fill) {
        Ok(blocks) => Ok(Some(Netlist::join(registers, blocks))),
        Err(InferFault::Shape(_)) => Ok(None),
        Err(InferFault::Memory) => Err(Memory),
    }
}

/// What simulators of a design's netlists begin with; nothing where its blocks feed one another in
/// a cycle.
fn basis_of(alloc: Global, design: &Design) -> Result<Option<Basis>, Memory>
    ensures { IfOk result (λ found.
        MatchOption found (LacksNetlist (flat design.now)) (IsBasisOf (flat design.now))) }
{
    match Basis::of(alloc, design) {
        Ok(basis) => Ok(Some(basis)),
        Err(NetFault::Cyclic(_)) => Ok(None),
        // It is made of no values.
        Err(NetFault::NotKnown(_)) => unreachable!(),
        Err(NetFault::Memory) => Err(Memory),
    }
}

impl<'d> Setup<'d> {
    ghost use Rattle.std.specs.Prelude.{◌≡◌, IfOk, MatchOption};
    ghost use Rattle.demo_replay.specs.Setups.{LacksNetlist};
    ghost use Rattle.demo_replay.specs.Tables.{IsNetlistOf, IsOf, is_marked};

    /// That of a design, if the design has a netlist.
    pub(crate) fn of(alloc: Global, design: &'d Design) -> Result<Option<Setup<'d>>, Memory>
        ensures { IfOk result (λ found.
            MatchOption found (LacksNetlist (flat design.now)) (IsOf design.now)) }
    {
        let temporaries = temporaries(alloc, design)?;
        let levels = levels(alloc, design)?;
        let Some(basis) = basis_of(alloc, design)? else {
            return Ok(None);
        };
        let Some(zero) = netlist_of(alloc, design, Fill::Zero)? else {
            return Ok(None);
        };
        let Some(one) = netlist_of(alloc, design, Fill::One)? else {
            return Ok(None);
        };
        Ok(Some(Setup {
            design,
            zero,
            one,
            basis,
            temporaries,
            levels,
        }))
    }

    /// The netlist with a fill.
    pub(crate) fn netlist(&self, fill: Fill) -> &Netlist<'d>
        requires { IsOf self.now.design.now self.now }
        ensures { IsNetlistOf self.now.design.now fill result.now }
    {
        match fill {
            Fill::Zero => &self.zero,
            Fill::One => &self.one,
        }
    }

    /// Whether a signal is a clock, a reset or a gate among the top inputs.
    pub(crate) fn is_control(&self, signal: SigId) -> bool
        ensures { result ≡ is_marked self.now.basis.controls.items signal.0 }
    {
        is_marked(&self.basis.controls, signal)
    }

    /// Whether a signal is a temporary.
    pub(crate) fn is_temporary(&self, signal: SigId) -> bool
        ensures { result ≡ is_marked self.now.temporaries.items signal.0 }
    {
        is_marked(&self.temporaries, signal)
    }
}

/// Whether a signal is marked.
pub(crate) fn is_marked(marks: &[bool], signal: SigId) -> bool
    ensures { result ≡ is_marked marks.now signal.0 }
{
    match marks.get(signal.0 as usize) {
        Some(mark) => *mark,
        None => false,
    }
}
