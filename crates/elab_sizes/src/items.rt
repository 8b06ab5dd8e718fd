//! How much a copy of an item takes.

ghost use Rattle.std.specs.Prelude.{◌≡◌, ◌-◌, ◌^◌, map, min};
ghost use Rattle.elab_sizes.specs.Sizes.{associated_size, association_size, drive_size, gate_drive_size, happening_size, head_size, instantiation_size, item_size, net_size, positional_size, sensitivity_size, sizes, valuation_size, variable_size};
ghost use Rattle.rtl_tree.specs.TreeItem.{associated, association, drive, gate_drive, happening, head, instantiation, module_item, net, positional, sensitivity, valuation, variable};

use crate::exprs::{expr_size, optional_size, range_size};
use crate::names::{name_size, names_size, node};
use crate::stmts::{optional_delay_size, stmt_size, target_size, targets_size};
use rtl_tree::tree::item::{
    Arguments, Assignment, Event, EventControl, GateDrive, Instance, Item, NamedArgument,
    OrderedArgument, PortHead, Reg, Setting, Wire,
};

fn head_size(written: &PortHead) -> u32
    ensures { result ≡ min (head_size (head written.now)) (2 ^ 32 - 1) }
{
    range_size(&written.range)
}

fn wires_size(all: &[Wire]) -> u32
    ensures { result ≡ min (sizes net_size (map net all.now)) (2 ^ 32 - 1) }
{
    let mut sum: u32 = 0;
    for wire in all {
        let here = name_size(&wire.name).saturating_add(optional_size(&wire.value));
        sum = sum.saturating_add(here);
    }
    sum
}

fn regs_size(all: &[Reg]) -> u32
    ensures { result ≡ min (sizes variable_size (map variable all.now)) (2 ^ 32 - 1) }
{
    let mut sum: u32 = 0;
    for reg in all {
        sum = sum.saturating_add(name_size(&reg.name));
    }
    sum
}

fn settings_size(all: &[Setting]) -> u32
    ensures { result ≡ min (sizes valuation_size (map valuation all.now)) (2 ^ 32 - 1) }
{
    let mut sum: u32 = 0;
    for setting in all {
        let here = name_size(&setting.name).saturating_add(expr_size(&setting.value));
        sum = sum.saturating_add(here);
    }
    sum
}

fn assignments_size(all: &[Assignment]) -> u32
    ensures { result ≡ min (sizes drive_size (map drive all.now)) (2 ^ 32 - 1) }
{
    let mut sum: u32 = 0;
    for assignment in all {
        let here = target_size(&assignment.target).saturating_add(expr_size(&assignment.value));
        sum = sum.saturating_add(here);
    }
    sum
}

fn gate_drives_size(all: &[GateDrive]) -> u32
    ensures { result ≡ min (sizes gate_drive_size (map gate_drive all.now)) (2 ^ 32 - 1) }
{
    let mut sum: u32 = 0;
    for drive in all {
        let here = targets_size(&drive.outputs).saturating_add(expr_size(&drive.value));
        sum = sum.saturating_add(here);
    }
    sum
}

fn event_size(event: &Event) -> u32
    ensures { result ≡ min (happening_size (happening event.now)) (2 ^ 32 - 1) }
{
    match event {
        Event::Edge(_, _, name) | Event::Whole(name) => node(name_size(name)),
        Event::Bit(name, index) => node(name_size(name).saturating_add(expr_size(index))),
        Event::Part(name, msb, lsb) => {
            let ends = expr_size(msb).saturating_add(expr_size(lsb));
            node(name_size(name).saturating_add(ends))
        }
    }
}

fn events_size(all: &[Event]) -> u32
    ensures { result ≡ min (sizes happening_size (map happening all.now)) (2 ^ 32 - 1) }
{
    let mut sum: u32 = 0;
    for event in all {
        sum = sum.saturating_add(event_size(event));
    }
    sum
}

fn control_size(control: &EventControl) -> u32
    ensures { result ≡ min (sensitivity_size (sensitivity control.now)) (2 ^ 32 - 1) }
{
    match control {
        EventControl::Star | EventControl::StarInParens => 0,
        EventControl::Events(events) => events_size(events),
    }
}

fn ordered_size(all: &[OrderedArgument]) -> u32
    ensures { result ≡ min (sizes positional_size (map positional all.now)) (2 ^ 32 - 1) }
{
    let mut sum: u32 = 0;
    for argument in all {
        sum = sum.saturating_add(node(optional_size(&argument.value)));
    }
    sum
}

fn named_size(all: &[NamedArgument]) -> u32
    ensures { result ≡ min (sizes associated_size (map associated all.now)) (2 ^ 32 - 1) }
{
    let mut sum: u32 = 0;
    for argument in all {
        let here = name_size(&argument.name).saturating_add(optional_size(&argument.value));
        sum = sum.saturating_add(node(here));
    }
    sum
}

fn arguments_size(arguments: &Arguments) -> u32
    ensures { result ≡ min (association_size (association arguments.now)) (2 ^ 32 - 1) }
{
    match arguments {
        Arguments::Ordered(all) => ordered_size(all),
        Arguments::Named(all) => named_size(all),
    }
}

fn instances_size(all: &[Instance]) -> u32
    ensures { result ≡ min (sizes instantiation_size (map instantiation all.now)) (2 ^ 32 - 1) }
{
    let mut sum: u32 = 0;
    for instance in all {
        let connections = arguments_size(&instance.connections);
        let here = name_size(&instance.name).saturating_add(connections);
        sum = sum.saturating_add(node(here));
    }
    sum
}

/// How much a copy of the item takes: one for each node of its trees, for each name, and for each byte of a name.
/// Numbers stop at the greatest u32.
pub fn item_size(item: &Item) -> u32
    ensures { result ≡ min (item_size (module_item item.now)) (2 ^ 32 - 1) }
{
    node(match item {
        Item::Ports(head, names) => head_size(head).saturating_add(names_size(names)),
        Item::Wires { range, wires, .. } => range_size(range).saturating_add(wires_size(wires)),
        Item::Regs { range, regs, .. } => range_size(range).saturating_add(regs_size(regs)),
        Item::Integers(_, names) => names_size(names),
        Item::Parameters {
            range,
            settings,
            ..
        } => range_size(range).saturating_add(settings_size(settings)),
        Item::Assigns(_, delay, assignments) => {
            optional_delay_size(delay).saturating_add(assignments_size(assignments))
        }
        Item::Gates {
            names,
            delay,
            drives,
            ..
        } => {
            let driven = optional_delay_size(delay).saturating_add(gate_drives_size(drives));
            names_size(names).saturating_add(driven)
        }
        Item::Always(_, control, body) => control_size(control).saturating_add(stmt_size(body)),
        Item::Instances {
            child,
            parameters,
            instances,
        } => {
            let placed = arguments_size(parameters).saturating_add(instances_size(instances));
            name_size(child).saturating_add(placed)
        }
    })
}
