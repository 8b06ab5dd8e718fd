//! The same for what statements and items hold.

ghost use Rattle.std.specs.Prelude.{◌≡◌, map};
ghost use Rattle.rtl_tree.specs.TreeExpr.{formula};
ghost use Rattle.rtl_tree.specs.TreeItem.{happening, sensitivity};
ghost use Rattle.rtl_tree.specs.TreeStmt.{branch, branch_row, target, target_row};
ghost use Rattle.elab_scope.specs.Names.{meanings};
ghost use Rattle.elab_nodes.specs.Spares.{spared};
ghost use Rattle.elab_nodes.specs.Totals.{assignment_count, branch_count, branches_count, case_count, event_count, events_count, labels_count, listing_count, target_count, targets_count};

use crate::nodes::{spend, spend_index};
use elab_scope::names::Names;
use rtl_tree::tree::expr::Expr;
use rtl_tree::tree::item::{Event, EventControl};
use rtl_tree::tree::stmt::{CaseItem, Lvalue};

#[cycle(spend_target)]
#[tactic(auto, using(crate::proofs::Sparing::spared_zero, crate::proofs::Views::joined_count))]
fn spend_target(written: &Lvalue, names: &Names, left: u32) -> Option<u32>
    ensures { result ≡ spared left (target_count (meanings names.now) (target written.now)) }
{
    match written {
        Lvalue::Whole(_) | Lvalue::Part(_, _, _, _) => Some(left),
        Lvalue::Bit(_, index) => spend_index(index, names, left),
        Lvalue::Concat(_, parts) => spend_targets(parts, names, left),
    }
}

#[cycle(spend_target)]
#[tactic(auto, using(crate::proofs::Sparing::spared_more, crate::proofs::Sparing::spared_zero))]
fn spend_targets(parts: &[Lvalue], names: &Names, left: u32) -> Option<u32>
    ensures { result ≡ spared left
        (targets_count (meanings names.now) (target_row (map target parts.now))) }
{
    let mut left = left;
    for part in parts {
        left = spend_target(part, names, left)?;
    }
    Some(left)
}

/// What is left behind the nodes of an assignment.
#[tactic(auto, using(crate::proofs::Sparing::spared_more))]
pub fn spend_assignment(written: &Lvalue, value: &Expr, names: &Names, left: u32) -> Option<u32>
    ensures { result ≡ spared left
        (assignment_count (meanings names.now) (target written.now) (formula value.now)) }
{
    spend(value, names, spend_target(written, names, left)?)
}

#[tactic(auto, using(crate::proofs::Sparing::spared_more, crate::proofs::Sparing::spared_zero))]
fn spend_labels(labels: &[Expr], names: &Names, left: u32) -> Option<u32>
    ensures { result ≡ spared left (labels_count (meanings names.now) (map formula labels.now)) }
{
    let mut left = left;
    for label in labels {
        left = spend(label, names, left)?;
    }
    Some(left)
}

#[tactic(auto, using(crate::proofs::Sparing::spared_zero))]
fn spend_item(item: &CaseItem, names: &Names, left: u32) -> Option<u32>
    ensures { result ≡ spared left (branch_count (meanings names.now) (branch item.now)) }
{
    match item {
        CaseItem::Labelled(labels, _) => spend_labels(labels, names, left),
        CaseItem::Default(_, _) => Some(left),
    }
}

/// What is left behind the nodes of a case without its bodies.
#[tactic(auto, using(crate::proofs::Sparing::spared_more, crate::proofs::Sparing::spared_zero))]
pub fn spend_case(selector: &Expr, items: &[CaseItem], names: &Names, left: u32) -> Option<u32>
    ensures { result ≡ spared left
        (case_count (meanings names.now) (formula selector.now)
        (branch_row (map branch items.now))) }
{
    let mut left = spend(selector, names, left)?;
    for item in items {
        left = spend_item(item, names, left)?;
    }
    Some(left)
}

#[tactic(auto, using(crate::proofs::Sparing::spared_zero))]
fn spend_event(event: &Event, names: &Names, left: u32) -> Option<u32>
    ensures { result ≡ spared left (event_count (meanings names.now) (happening event.now)) }
{
    match event {
        Event::Bit(_, index) => spend_index(index, names, left),
        Event::Edge(_, _, _) | Event::Whole(_) | Event::Part(_, _, _) => Some(left),
    }
}

#[tactic(auto, using(crate::proofs::Sparing::spared_more, crate::proofs::Sparing::spared_zero))]
fn spend_events(events: &[Event], names: &Names, left: u32) -> Option<u32>
    ensures { result ≡ spared left (events_count (meanings names.now) (map happening events.now)) }
{
    let mut left = left;
    for event in events {
        left = spend_event(event, names, left)?;
    }
    Some(left)
}

/// What is left behind the nodes of a sensitivity list.
#[tactic(auto, using(crate::proofs::Sparing::spared_zero))]
pub fn spend_listing(control: &EventControl, names: &Names, left: u32) -> Option<u32>
    ensures { result ≡ spared left (listing_count (meanings names.now) (sensitivity control.now)) }
{
    match control {
        EventControl::Star | EventControl::StarInParens => Some(left),
        EventControl::Events(events) => spend_events(events, names, left),
    }
}
