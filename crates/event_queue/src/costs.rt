//! What events cost, and what all events of one step may cost.

ghost use Rattle.std.specs.Prelude.{◌≡◌, ◌≤◌, ◌+◌, length, map, sum_by, IfOk, OnOk};
ghost use Rattle.rtl_flat.specs.Process.{doing, task};
ghost use Rattle.event_model.specs.Policies.{budget, one_if, nonblocking_of};
ghost use Rattle.event_model.specs.Queue.{is_assignment, is_input_kind};
ghost use Rattle.rtl_flat.specs.Flats.{flat};
ghost use Rattle.event_queue.specs.Costs.{AreCosts, IsEntered};
ghost use Rattle.event_queue.specs.Lates.{IsFew, room_in};

use crate::bodies::late_at;
use rtl_flat::act::Does;
use rtl_flat::design::Design;
use rtl_flat::signal::{Kind, Signal};
use std::alloc::Global;
use text_ground::memory::Memory;

/// What the processes of a design cost.
#[derive(Drop)]
pub(crate) struct Costs {
    /// The cost of a run of each process.
    pub(crate) runs: Vec<u64>,
    /// The nonblocking assignments of all bodies.
    pub(crate) late: u64,
    /// The continuous assignments.
    pub(crate) assignments: u64,
    /// How many parts the nonblocking assignments of a process have at most for each unit of its cost.
    pub(crate) share: u64,
}

/// Enters the costs of a process.
fn enter(costs: &mut Costs, does: &Does) -> Result<(), Memory>
    requires few { IsFew (nonblocking_of (doing does.now)) (room_in (doing does.now)) }
    requires late { costs.old.late ≤ 1000000000000 }
    requires assignments { costs.old.assignments ≤ 1000000000000 }
    ensures { OnOk result (IsEntered (doing does.now) costs.old costs.new) }
{
    let late = late_at(does);
    let cost = late.count + 1;
    costs.runs.push(cost)?;
    costs.late += late.count;
    costs.assignments += one_if_assignment(does);
    costs.share = costs.share.max(late.parts.div_ceil(cost));
    Ok(())
}

/// 1 for a continuous assignment.
fn one_if_assignment(does: &Does) -> u64
    ensures { result ≡ one_if (is_assignment (Some (doing does.now))) }
{
    match does {
        Does::Assign {
            target: _,
            value: _,
        } => 1,
        Does::Comb { list: _, body: _ } => 0,
        Does::Edge { events: _, body: _ } => 0,
    }
}

/// The costs of the processes of a design.
pub(crate) fn costs_of(alloc: Global, design: &Design) -> Result<Costs, Memory>
    ensures { IfOk result (λ costs. AreCosts (map task design.now.processes.items) costs) }
{
    let mut costs = Costs {
        runs: Vec::new(alloc),
        late: 0,
        assignments: 0,
        share: 0,
    };
    for process in &design.processes {
        enter(&mut costs, &process.does)?;
    }
    Ok(costs)
}

/// 1 for a top input.
fn one_if_input(kind: Kind) -> u64
    ensures { result ≡ one_if (is_input_kind kind) }
{
    match kind {
        Kind::TopInput => 1,
        Kind::Net => 0,
        Kind::Var => 0,
    }
}

/// How many signals are top inputs.
fn inputs_of(signals: &[Signal]) -> u64
    requires { length signals.now ≤ 20000 }
    ensures { result ≡ sum_by (λ signal. one_if (is_input_kind signal.kind)) signals.now }
{
    let mut count = 0;
    for signal in signals {
        count += one_if_input(signal.kind);
    }
    count
}

/// What all events of one step may cost.
pub(crate) fn budget_of(design: &Design, costs: &Costs) -> u64
    requires { AreCosts (map task design.now.processes.items) costs.now }
    ensures budget { result ≡ budget (flat design.now) }
    ensures at_most { result ≤ 300000 }
{
    let processes = design.processes.len() as u64;
    4 * processes + costs.late + inputs_of(&design.signals) + costs.assignments
}
