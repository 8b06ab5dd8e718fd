//! Genvars in items.

ghost use Rattle.std.specs.Prelude.{◌≡◌, map};
ghost use Rattle.std.specs.List.{flat_map};
ghost use Rattle.std.specs.Option.{option_map};
ghost use Rattle.elab_genvars.specs.Genvars.{associated_genvars, association_genvars, drive_genvars, gate_drive_genvars, happening_genvars, instantiation_genvars, item_genvars, net_genvars, positional_genvars, sensitivity_genvars, valuation_genvars, told_of};
ghost use Rattle.elab_scope.specs.Faults.{after};
ghost use Rattle.rtl_tree.specs.TreeItem.{associated, association, drive, gate_drive, happening, instantiation, module_item, net, positional, sensitivity, valuation};

use crate::exprs::{judge_expr_genvars, judge_optional, judge_range};
use crate::sorts::Sorts;
use crate::stmts::{judge_optional_delay, judge_stmt, judge_target, judge_targets};
use crate::uses::judge_use;
use rtl_tree::tree::item::{
    Arguments, Assignment, Event, EventControl, GateDrive, Instance, Item, NamedArgument,
    OrderedArgument, Setting, Wire,
};
use rtl_tree::tree::names::Name;

#[tactic(auto, using(std::proofs::lemmas::Grind::common_steps, elab_scope::proofs::Least::after_append))]
fn judge_wires<'a, S: Sorts>(all: &'a [Wire], names: &S, best: Option<&'a Name>) -> Option<&'a Name>
    ensures { option_map told_of result ≡ after (option_map told_of best.entry)
        (flat_map (net_genvars (S.sorts names.now)) (map net all.now)) }
{
    let mut best = best;
    for wire in all {
        best = judge_optional(&wire.value, names, best);
    }
    best
}

#[tactic(auto, using(std::proofs::lemmas::Grind::common_steps, elab_scope::proofs::Least::after_append))]
fn judge_settings<'a, S: Sorts>(
    all: &'a [Setting],
    names: &S,
    best: Option<&'a Name>,
) -> Option<&'a Name>
    ensures { option_map told_of result ≡ after (option_map told_of best.entry)
        (flat_map (valuation_genvars (S.sorts names.now)) (map valuation all.now)) }
{
    let mut best = best;
    for setting in all {
        best = judge_expr_genvars(&setting.value, names, best);
    }
    best
}

#[tactic(auto, using(std::proofs::lemmas::Grind::common_steps, elab_scope::proofs::Least::after_append))]
fn judge_assignments<'a, S: Sorts>(
    all: &'a [Assignment],
    names: &S,
    best: Option<&'a Name>,
) -> Option<&'a Name>
    ensures { option_map told_of result ≡ after (option_map told_of best.entry)
        (flat_map (drive_genvars (S.sorts names.now)) (map drive all.now)) }
{
    let mut best = best;
    for assignment in all {
        best = judge_target(&assignment.target, names, best);
        best = judge_expr_genvars(&assignment.value, names, best);
    }
    best
}

#[tactic(auto, using(std::proofs::lemmas::Grind::common_steps, elab_scope::proofs::Least::after_append))]
fn judge_gate_drives<'a, S: Sorts>(
    all: &'a [GateDrive],
    names: &S,
    best: Option<&'a Name>,
) -> Option<&'a Name>
    ensures { option_map told_of result ≡ after (option_map told_of best.entry)
        (flat_map (gate_drive_genvars (S.sorts names.now)) (map gate_drive all.now)) }
{
    let mut best = best;
    for drive in all {
        best = judge_targets(&drive.outputs, names, best);
        best = judge_expr_genvars(&drive.value, names, best);
    }
    best
}

#[tactic(auto, using(elab_scope::proofs::Least::after_append))]
fn judge_event<'a, S: Sorts>(
    event: &'a Event,
    names: &S,
    best: Option<&'a Name>,
) -> Option<&'a Name>
    ensures { option_map told_of result ≡ after (option_map told_of best.entry)
        (happening_genvars (S.sorts names.now) (happening event.now)) }
{
    match event {
        Event::Edge(_, _, name) | Event::Whole(name) => judge_use(name, false, names, best),
        Event::Bit(name, index) => {
            let best = judge_use(name, true, names, best);
            judge_expr_genvars(index, names, best)
        }
        Event::Part(name, msb, lsb) => {
            let best = judge_use(name, true, names, best);
            let best = judge_expr_genvars(msb, names, best);
            judge_expr_genvars(lsb, names, best)
        }
    }
}

#[tactic(auto, using(std::proofs::lemmas::Grind::common_steps, elab_scope::proofs::Least::after_append))]
fn judge_events<'a, S: Sorts>(
    all: &'a [Event],
    names: &S,
    best: Option<&'a Name>,
) -> Option<&'a Name>
    ensures { option_map told_of result ≡ after (option_map told_of best.entry)
        (flat_map (happening_genvars (S.sorts names.now)) (map happening all.now)) }
{
    let mut best = best;
    for event in all {
        best = judge_event(event, names, best);
    }
    best
}

fn judge_control<'a, S: Sorts>(
    control: &'a EventControl,
    names: &S,
    best: Option<&'a Name>,
) -> Option<&'a Name>
    ensures { option_map told_of result ≡ after (option_map told_of best.entry)
        (sensitivity_genvars (S.sorts names.now) (sensitivity control.now)) }
{
    match control {
        EventControl::Star | EventControl::StarInParens => best,
        EventControl::Events(events) => judge_events(events, names, best),
    }
}

#[tactic(auto, using(std::proofs::lemmas::Grind::common_steps, elab_scope::proofs::Least::after_append))]
fn judge_ordered<'a, S: Sorts>(
    all: &'a [OrderedArgument],
    names: &S,
    best: Option<&'a Name>,
) -> Option<&'a Name>
    ensures { option_map told_of result ≡ after (option_map told_of best.entry)
        (flat_map (positional_genvars (S.sorts names.now)) (map positional all.now)) }
{
    let mut best = best;
    for argument in all {
        best = judge_optional(&argument.value, names, best);
    }
    best
}

#[tactic(auto, using(std::proofs::lemmas::Grind::common_steps, elab_scope::proofs::Least::after_append))]
fn judge_named<'a, S: Sorts>(
    all: &'a [NamedArgument],
    names: &S,
    best: Option<&'a Name>,
) -> Option<&'a Name>
    ensures { option_map told_of result ≡ after (option_map told_of best.entry)
        (flat_map (associated_genvars (S.sorts names.now)) (map associated all.now)) }
{
    let mut best = best;
    for argument in all {
        best = judge_optional(&argument.value, names, best);
    }
    best
}

fn judge_arguments<'a, S: Sorts>(
    arguments: &'a Arguments,
    names: &S,
    best: Option<&'a Name>,
) -> Option<&'a Name>
    ensures { option_map told_of result ≡ after (option_map told_of best.entry)
        (association_genvars (S.sorts names.now) (association arguments.now)) }
{
    match arguments {
        Arguments::Ordered(all) => judge_ordered(all, names, best),
        Arguments::Named(all) => judge_named(all, names, best),
    }
}

#[tactic(auto, using(std::proofs::lemmas::Grind::common_steps, elab_scope::proofs::Least::after_append))]
fn judge_instances<'a, S: Sorts>(
    all: &'a [Instance],
    names: &S,
    best: Option<&'a Name>,
) -> Option<&'a Name>
    ensures { option_map told_of result ≡ after (option_map told_of best.entry)
        (flat_map (instantiation_genvars (S.sorts names.now)) (map instantiation all.now)) }
{
    let mut best = best;
    for instance in all {
        best = judge_arguments(&instance.connections, names, best);
    }
    best
}

/// What is told after `best` of the genvars that the item may not use so.
#[tactic(auto, using(elab_scope::proofs::Least::after_append))]
pub fn judge_genvars<'a, S: Sorts>(
    item: &'a Item,
    names: &S,
    best: Option<&'a Name>,
) -> Option<&'a Name>
    ensures { option_map told_of result
        ≡ after (option_map told_of best.entry)
        (item_genvars (S.sorts names.now) (module_item item.now)) }
{
    match item {
        Item::Ports(head, _) => judge_range(&head.range, names, best),
        Item::Wires { range, wires, .. } => {
            judge_wires(wires, names, judge_range(range, names, best))
        }
        Item::Regs { range, .. } => judge_range(range, names, best),
        Item::Integers(_, _) => best,
        Item::Parameters {
            range,
            settings,
            ..
        } => judge_settings(settings, names, judge_range(range, names, best)),
        Item::Assigns(_, delay, assignments) => {
            judge_assignments(assignments, names, judge_optional_delay(delay, names, best))
        }
        Item::Gates { delay, drives, .. } => {
            judge_gate_drives(drives, names, judge_optional_delay(delay, names, best))
        }
        Item::Always(_, control, body) => {
            judge_stmt(body, names, judge_control(control, names, best))
        }
        Item::Instances {
            parameters,
            instances,
            ..
        } => judge_instances(instances, names, judge_arguments(parameters, names, best)),
    }
}
