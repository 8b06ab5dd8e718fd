//! Statements, each made as it is reached.

ghost use Rattle.std.specs.Prelude.{◌≡◌, ◌≤◌, ◌+◌, length, map, vec_capacity};
ghost use Rattle.rtl_flat.specs.declared.signal.Kind.TheVariants.{Var};
ghost use Rattle.rtl_flat.specs.Expression.{tree};
ghost use Rattle.rtl_flat.specs.Process.{action, body_of, piece};
ghost use Rattle.rtl_flat.specs.Signs.{IsExpression, width_in};
ghost use Rattle.rtl_flat.specs.Value.{store, value};
ghost use Rattle.rtl_flat.specs.WellFormed.{AreBranches, IsAction, IsAssignment, IsBody, IsOtherwise};
ghost use Rattle.rtl_scan.specs.Bodies.{branches_of, other_of};
ghost use Rattle.event_model.specs.Bodies.{assigned, body_made, branches_made, made, other_made};
ghost use Rattle.event_model.specs.Queue.{perform_all};
ghost use Rattle.event_model.specs.Writes.{writes};
ghost use Rattle.event_write.specs.QueueState.{IsFanout, IsQueueState, design_of, state};
ghost use Rattle.event_write.specs.Rooms.{IsKept, branch_rooms, late_parts, other_room, room, rooms};

use crate::bodies::{write_later, write_now};
use crate::choices::{chosen_body, holds};
use crate::fanout::Fanout;
use crate::queue_state::QueueState;
use crate::stores::evaluate;
use rtl_flat::act::{Act, CaseItem, CaseKind, TargetPart};
use rtl_flat::expr::SizedExpr;

/// Makes statements in their order. It takes no memory.
#[cycle(acts)]
pub fn make_all(fanout: &Fanout, queue: &mut QueueState, acts: &[Act])
    requires fanout { IsFanout fanout.now }
    requires queue { IsQueueState (design_of fanout.now) queue.old }
    requires body { IsBody fanout.now.design.now.signals.items (body_of (map action acts.now)) }
    requires scratch { 128 ≤ vec_capacity queue.old.scratch }
    requires room { length queue.old.waiting.items + rooms (body_of (map action acts.now))
        ≤ vec_capacity queue.old.waiting }
    ensures state { state queue.new
        ≡ perform_all (design_of fanout.now) (state queue.old)
        (body_made (width_in fanout.now.design.now.signals.items) (store queue.old.values.items)
        (body_of (map action acts.now))) }
    ensures queue { IsQueueState (design_of fanout.now) queue.new }
    ensures kept { IsKept (rooms (body_of (map action acts.now))) queue.old queue.new }
{
    for act in acts {
        make(fanout, queue, act);
    }
}

/// Makes one statement.
#[cycle(acts)]
fn make(fanout: &Fanout, queue: &mut QueueState, act: &Act)
    requires fanout { IsFanout fanout.now }
    requires queue { IsQueueState (design_of fanout.now) queue.old }
    requires act { IsAction fanout.now.design.now.signals.items (action act.now) }
    requires scratch { 128 ≤ vec_capacity queue.old.scratch }
    requires room { length queue.old.waiting.items + room (action act.now)
        ≤ vec_capacity queue.old.waiting }
    ensures state { state queue.new
        ≡ perform_all (design_of fanout.now) (state queue.old)
        (made (width_in fanout.now.design.now.signals.items) (store queue.old.values.items)
        (action act.now)) }
    ensures queue { IsQueueState (design_of fanout.now) queue.new }
    ensures kept { IsKept (room (action act.now)) queue.old queue.new }
{
    match act {
        Act::Set {
            target,
            value,
            delayed,
            spot: _,
        } => make_set(fanout, queue, &target.parts, value, *delayed),
        Act::If {
            test,
            yes,
            no,
            spot: _,
        } => {
            if holds(&fanout.design.signals, &queue.values, test) {
                make_all(fanout, queue, yes);
            } else {
                make_other(fanout, queue, no);
            }
        }
        Act::Case {
            kind,
            full: _,
            parallel: _,
            selector,
            items,
            fallback,
            spot: _,
        } => make_case(fanout, queue, *kind, selector, items, fallback),
        Act::Block(body) => make_all(fanout, queue, body),
    }
}

/// Makes a body that may be left out.
#[cycle(acts)]
fn make_other(fanout: &Fanout, queue: &mut QueueState, body: &Option<Vec<Act>>)
    requires fanout { IsFanout fanout.now }
    requires queue { IsQueueState (design_of fanout.now) queue.old }
    requires body { IsOtherwise fanout.now.design.now.signals.items (other_of body.now) }
    requires scratch { 128 ≤ vec_capacity queue.old.scratch }
    requires room { length queue.old.waiting.items + other_room (other_of body.now)
        ≤ vec_capacity queue.old.waiting }
    ensures state { state queue.new
        ≡ perform_all (design_of fanout.now) (state queue.old)
        (other_made (width_in fanout.now.design.now.signals.items)
        (store queue.old.values.items) (other_of body.now)) }
    ensures queue { IsQueueState (design_of fanout.now) queue.new }
    ensures kept { IsKept (other_room (other_of body.now)) queue.old queue.new }
{
    if let Some(body) = body {
        make_all(fanout, queue, body);
    }
}

/// Makes the body of the first item with a label that matches, or else that of `default`.
#[cycle(acts)]
fn make_case(
    fanout: &Fanout,
    queue: &mut QueueState,
    kind: CaseKind,
    selector: &SizedExpr,
    items: &[CaseItem],
    fallback: &Option<Vec<Act>>,
)
    requires fanout { IsFanout fanout.now }
    requires queue { IsQueueState (design_of fanout.now) queue.old }
    requires selector { IsExpression fanout.now.design.now.signals.items (tree selector.now) }
    requires branches { AreBranches fanout.now.design.now.signals.items (tree selector.now)
        (branches_of items.now) }
    requires fallback { IsOtherwise fanout.now.design.now.signals.items (other_of fallback.now) }
    requires scratch { 128 ≤ vec_capacity queue.old.scratch }
    requires room { length queue.old.waiting.items
        + (branch_rooms (branches_of items.now) + other_room (other_of fallback.now))
        ≤ vec_capacity queue.old.waiting }
    ensures state { state queue.new
        ≡ perform_all (design_of fanout.now) (state queue.old)
        (branches_made (width_in fanout.now.design.now.signals.items)
        (store queue.old.values.items) kind
        (value (store queue.old.values.items) (tree selector.now))
        (other_made (width_in fanout.now.design.now.signals.items)
        (store queue.old.values.items) (other_of fallback.now)) (branches_of items.now)) }
    ensures queue { IsQueueState (design_of fanout.now) queue.new }
    ensures kept { IsKept (branch_rooms (branches_of items.now) + other_room
        (other_of fallback.now)) queue.old queue.new }
{
    let bits = evaluate(&fanout.design.signals, &queue.values, selector);
    match chosen_body(&fanout.design.signals, &queue.values, kind, bits, items) {
        Some(body) => make_all(fanout, queue, body),
        None => make_other(fanout, queue, fallback),
    }
}

/// An assignment of a value, which is known before anything is written.
fn make_set(
    fanout: &Fanout,
    queue: &mut QueueState,
    parts: &[TargetPart],
    expression: &SizedExpr,
    delayed: bool,
)
    requires fanout { IsFanout fanout.now }
    requires queue { IsQueueState (design_of fanout.now) queue.old }
    requires assignment { IsAssignment fanout.now.design.now.signals.items Var (map piece parts.now)
        (tree expression.now) }
    requires scratch { 128 ≤ vec_capacity queue.old.scratch }
    requires room { length queue.old.waiting.items + late_parts delayed (map piece parts.now)
        ≤ vec_capacity queue.old.waiting }
    ensures state { state queue.new
        ≡ perform_all (design_of fanout.now) (state queue.old)
        (assigned delayed (writes (width_in fanout.now.design.now.signals.items)
        (store queue.old.values.items) (map piece parts.now)
        (value (store queue.old.values.items) (tree expression.now)))) }
    ensures queue { IsQueueState (design_of fanout.now) queue.new }
    ensures kept { IsKept (late_parts delayed (map piece parts.now)) queue.old queue.new }
{
    let bits = evaluate(&fanout.design.signals, &queue.values, expression);
    if delayed {
        write_later(fanout, queue, parts, bits);
    } else {
        write_now(fanout, queue, parts, bits);
    }
}
