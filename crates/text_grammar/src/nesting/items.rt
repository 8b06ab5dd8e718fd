// How deep the items of a module are nested.

ghost use Rattle.std.specs.Prelude.{◌≡◌, ◌-◌, ◌^◌, map, max, min};
ghost use Rattle.std.specs.Option.{option_map};
ghost use Rattle.text_grammar.specs.Depth.{associated_depth, association_depth, drive_depth, gate_drive_depth, greatest, happening_depth, head_depth, if_any, item_depth, net_depth, instantiation_depth, positional_depth, sensitivity_depth, valuation_depth};
ghost use Rattle.rtl_tree.specs.TreeItem.{associated, association, drive, gate_drive, happening, head, module_item, net, instantiation, positional, sensitivity, valuation};

use crate::nesting::exprs::{expr_depth, optional_depth, range_depth};
use crate::nesting::stmts::{optional_delay_depth, stmt_depth, target_depth, targets_depth};
use rtl_tree::tree::item::{
    Arguments, Assignment, Event, EventControl, GateDrive, Instance, Item, NamedArgument,
    OrderedArgument, PortHead, Setting, Wire,
};

/// Of a port's head that may be left out.
pub(crate) fn optional_head_depth(written: &Option<PortHead>) -> u32
    ensures { result ≡ min (if_any head_depth (option_map head written.now)) (2 ^ 32 - 1) }
{
    match written {
        Some(written) => range_depth(&written.range),
        None => 0,
    }
}

fn wires_depth(all: &[Wire]) -> u32
    ensures { result ≡ min (greatest net_depth (map net all.now)) (2 ^ 32 - 1) }
{
    let mut most = 0;
    for wire in all {
        most = optional_depth(&wire.value).max(most);
    }
    most
}

fn settings_depth(all: &[Setting]) -> u32
    ensures { result ≡ min (greatest valuation_depth (map valuation all.now)) (2 ^ 32 - 1) }
{
    let mut most = 0;
    for setting in all {
        most = expr_depth(&setting.value).max(most);
    }
    most
}

fn assignments_depth(all: &[Assignment]) -> u32
    ensures { result ≡ min (greatest drive_depth (map drive all.now)) (2 ^ 32 - 1) }
{
    let mut most = 0;
    for assignment in all {
        let here = target_depth(&assignment.target).max(expr_depth(&assignment.value));
        most = here.max(most);
    }
    most
}

fn gate_drives_depth(all: &[GateDrive]) -> u32
    ensures { result ≡ min (greatest gate_drive_depth (map gate_drive all.now)) (2 ^ 32 - 1) }
{
    let mut most = 0;
    for drive in all {
        let here = targets_depth(&drive.outputs).max(expr_depth(&drive.value));
        most = here.max(most);
    }
    most
}

fn event_depth(event: &Event) -> u32
    ensures { result ≡ min (happening_depth (happening event.now)) (2 ^ 32 - 1) }
{
    match event {
        Event::Edge(_, _, _) | Event::Whole(_) => 0,
        Event::Bit(_, index) => expr_depth(index),
        Event::Part(_, msb, lsb) => expr_depth(msb).max(expr_depth(lsb)),
    }
}

fn events_depth(all: &[Event]) -> u32
    ensures { result ≡ min (greatest happening_depth (map happening all.now)) (2 ^ 32 - 1) }
{
    let mut most = 0;
    for event in all {
        most = event_depth(event).max(most);
    }
    most
}

fn control_depth(control: &EventControl) -> u32
    ensures { result ≡ min (sensitivity_depth (sensitivity control.now)) (2 ^ 32 - 1) }
{
    match control {
        EventControl::Star | EventControl::StarInParens => 0,
        EventControl::Events(events) => events_depth(events),
    }
}

fn ordered_depth(all: &[OrderedArgument]) -> u32
    ensures { result ≡ min (greatest positional_depth (map positional all.now)) (2 ^ 32 - 1) }
{
    let mut most = 0;
    for argument in all {
        most = optional_depth(&argument.value).max(most);
    }
    most
}

fn named_depth(all: &[NamedArgument]) -> u32
    ensures { result ≡ min (greatest associated_depth (map associated all.now)) (2 ^ 32 - 1) }
{
    let mut most = 0;
    for argument in all {
        most = optional_depth(&argument.value).max(most);
    }
    most
}

fn arguments_depth(arguments: &Arguments) -> u32
    ensures { result ≡ min (association_depth (association arguments.now)) (2 ^ 32 - 1) }
{
    match arguments {
        Arguments::Ordered(all) => ordered_depth(all),
        Arguments::Named(all) => named_depth(all),
    }
}

fn instances_depth(all: &[Instance]) -> u32
    ensures { result ≡ min (greatest instantiation_depth (map instantiation all.now)) (2 ^ 32 - 1) }
{
    let mut most = 0;
    for instance in all {
        most = arguments_depth(&instance.connections).max(most);
    }
    most
}

pub(crate) fn item_depth(item: &Item) -> u32
    ensures { result ≡ min (item_depth (module_item item.now)) (2 ^ 32 - 1) }
{
    match item {
        Item::Ports(head, _) => range_depth(&head.range),
        Item::Wires { range, wires, .. } => range_depth(range).max(wires_depth(wires)),
        Item::Regs { range, .. } => range_depth(range),
        Item::Integers(_, _) => 0,
        Item::Parameters {
            range,
            settings,
            ..
        } => range_depth(range).max(settings_depth(settings)),
        Item::Assigns(_, delay, assignments) => {
            optional_delay_depth(delay).max(assignments_depth(assignments))
        }
        Item::Gates { delay, drives, .. } => optional_delay_depth(delay).max(gate_drives_depth(
            drives,
        )),
        Item::Always(_, control, body) => control_depth(control).max(stmt_depth(body)),
        Item::Instances {
            parameters,
            instances,
            ..
        } => arguments_depth(parameters).max(instances_depth(instances)),
    }
}
