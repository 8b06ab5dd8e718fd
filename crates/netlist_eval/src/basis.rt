//! What all simulators of a design's netlists begin with.

ghost use Rattle.std.specs.Prelude.{ℕ, ◌≡◌, ◌↔◌, false, true, slice_index_or, IfErr, IfOk};
ghost use Rattle.rtl_flat.specs.Flats.{flat};
ghost use Rattle.net_model.specs.Gates.{IsControl};
ghost use Rattle.net_order.specs.net_solve.Laws.{IsOrder};
ghost use Rattle.net_turn.specs.net_settle.Work.{numbers_of};
ghost use Rattle.net_start.specs.Stored.{places};
ghost use Rattle.netlist_eval.specs.Steps.{HasNoCycle, IsOrderFault};

use crate::fault::NetFault;
use infer_regs::check_gates::tops::mark_all;
use infer_regs::controls;
use net_order::order::{Ranking, order};
use net_start::kept::kept_bits;
use net_start::rtl_scan::bits::BitSet;
use net_start::stored::{stored, top_inputs};
use rtl_flat::act::ProcId;
use rtl_flat::design::Design;
use rtl_flat::expr::SigId;
use std::alloc::Global;
use text_ground::memory::Memory;

/// What all simulators of a design's netlists begin with, whatever their fill and their values.
#[derive(Drop)]
pub struct Basis {
    /// The processes without edges, each behind those that feed it.
    pub order: Vec<ProcId>,
    /// The registers and latches, and the top inputs, in order of number.
    pub holders: Vec<SigId>,
    pub tops: Vec<SigId>,
    /// The bits of registers and latches.
    pub kept: BitSet,
    /// Of each signal whether it is a clock, a reset or a gate among the top inputs.
    pub controls: Vec<bool>,
}

/// The numbers of signals.
fn places_of(alloc: Global, signals: &[SigId]) -> Result<Vec<u32>, Memory>
    ensures { IfOk result (λ found. found.items ≡ places signals.now) }
{
    let mut found = Vec::new(alloc);
    for signal in signals {
        found.push(signal.0)?;
    }
    Ok(found)
}

/// Of each signal whether it is a clock, a reset or a gate among the top inputs.
fn marked_controls(alloc: Global, design: &Design) -> Result<Vec<bool>, Memory>
    ensures { IfOk result (λ marks. (s : ℕ) →
        slice_index_or marks.items s false ≡ true ↔ IsControl (flat design.now) s) }
{
    let found = controls(alloc, design)?;
    let places = places_of(alloc, &found)?;
    let mut marks = vec![in alloc; false; design.signals.len()]?;
    mark_all(&mut marks, &places);
    Ok(marks)
}

/// The order of processes without edges.
fn order_of(alloc: Global, design: &Design) -> Result<Vec<ProcId>, NetFault>
    ensures order { IfOk result (λ order. IsOrder (flat design.now) (numbers_of order.items)) }
    ensures no_cycle { IfOk result (λ order. HasNoCycle (flat design.now)) }
    ensures cyclic { IfErr result (λ fault. IsOrderFault (flat design.now) fault) }
{
    match order(alloc, design)? {
        Ranking::Order(order) => Ok(order),
        Ranking::Cyclic(signal) => Err(NetFault::Cyclic(signal)),
    }
}

impl Basis {
    ghost use Rattle.std.specs.Prelude.{IfErr, IfOk};
    ghost use Rattle.rtl_flat.specs.Flats.{flat};
    ghost use Rattle.netlist_eval.specs.Basis.{IsBasisOf};
    ghost use Rattle.netlist_eval.specs.Steps.{IsOrderFault};

    /// That of a design.
    ///
    /// Fails with `Cyclic` of the least signal of a cycle, and where memory runs out.
    pub fn of(alloc: Global, design: &Design) -> Result<Basis, NetFault>
        ensures basis { IfOk result (λ basis. IsBasisOf (flat design.now) basis) }
        ensures fault { IfErr result (λ fault. IsOrderFault (flat design.now) fault) }
    {
        let order = order_of(alloc, design)?;
        let holders = stored(alloc, design)?;
        let tops = top_inputs(alloc, design)?;
        let kept = kept_bits(alloc, design)?;
        let controls = marked_controls(alloc, design)?;
        Ok(Basis {
            order,
            holders,
            tops,
            kept,
            controls,
        })
    }
}
