//! The nodes that the connections of instances have in the design.

ghost use Rattle.std.specs.Prelude.{◌≡◌, IfOk, map};
ghost use Rattle.std.specs.List.{slice_get};
ghost use Rattle.std.specs.Option.{option_map};
ghost use Rattle.rtl_tree.specs.TreeExpr.{formula};
ghost use Rattle.rtl_tree.specs.TreeItem.{associated, association, instantiation, module_item, positional};
ghost use Rattle.elab_links.specs.elab_scope.Names.{meanings};
ghost use Rattle.elab_parts.specs.elab_nodes.Spares.{spared};
ghost use Rattle.elab_parts.specs.elab_body.Courses.{course};
ghost use Rattle.elab_parts.specs.elab_body.Steps.{passed};
ghost use Rattle.elab_links.specs.Groups.{group};
ghost use Rattle.elab_links.specs.Ports.{sockets};
ghost use Rattle.elab_walk.specs.Links.{argument_steps, connection_steps, group_steps, instantiations_steps, link_steps, named_steps, ordered_steps, placed_steps, port_count};
ghost use Rattle.elab_walk.specs.Visits.{library};

use crate::library::Library;
use elab_links::elab_items::entries::entries_of;
use elab_links::elab_scope::names::Names;
use elab_links::groups::{Group, group_of};
use elab_links::ports::Ports;
use elab_parts::elab_body::progress::Progress;
use elab_parts::elab_nodes::nodes::spend;
use elab_parts::elab_nodes::spare::spare;
use rtl_tree::tree::expr::Expr;
use rtl_tree::tree::item::{Arguments, Direction, Instance, Item, NamedArgument, OrderedArgument};
use std::alloc::Global;
use text_ground::memory::Memory;

/// What is left behind the nodes of a connection.
#[tactic(auto, using(crate::proofs::Borrowed::spared_zero))]
fn spend_port(direction: Option<Direction>, e: &Expr, names: &Names, left: u32) -> Option<u32>
    ensures { result ≡ spared left (port_count (meanings names.now) direction (formula e.now)) }
{
    match direction {
        None => Some(left),
        Some(Direction::Input) => spend(e, names, left),
        Some(Direction::Output) => spare(left, 1),
    }
}

/// An empty argument connects nothing.
fn spend_argument<'a>(
    at: u32,
    direction: Option<Direction>,
    value: &Option<Expr>,
    names: &Names,
    so_far: Progress<'a>,
) -> Progress<'a>
    ensures { course result ≡ passed (course so_far.entry)
        (argument_steps (meanings names.now) at direction (option_map formula value.now)) }
{
    match value {
        None => so_far,
        Some(e) => match so_far.left {
            None => so_far,
            Some(left) => so_far.spend(at, left, spend_port(direction, e, names, left.nodes)),
        },
    }
}

/// An argument by position, of the port at this place.
fn spend_placed<'a>(
    ports: &Ports<'_>,
    place: usize,
    argument: &OrderedArgument,
    names: &Names,
    so_far: Progress<'a>,
) -> Progress<'a>
    ensures { course result ≡ passed (course so_far.entry)
        (placed_steps (sockets ports.now) (meanings names.now) argument.now.at
        (slice_get (sockets ports.now).order place) (option_map formula argument.now.value)) }
{
    match ports.order.get(place) {
        None => so_far,
        Some(port) => {
            let direction = ports.direction(&port.text);
            spend_argument(argument.at, direction, &argument.value, names, so_far)
        }
    }
}

fn spend_ordered<'a>(
    ports: &Ports<'_>,
    arguments: &[OrderedArgument],
    names: &Names,
    so_far: Progress<'a>,
) -> Progress<'a>
    ensures { course result ≡ passed (course so_far.entry)
        (ordered_steps (sockets ports.now) (meanings names.now) 0 (map positional arguments.now)) }
{
    let mut so_far = so_far;
    for (place, argument) in arguments.iter().enumerate() {
        so_far = spend_placed(ports, place, argument, names, so_far);
    }
    so_far
}

fn spend_named<'a>(
    ports: &Ports<'_>,
    arguments: &[NamedArgument],
    names: &Names,
    so_far: Progress<'a>,
) -> Progress<'a>
    ensures { course result ≡ passed (course so_far.entry)
        (named_steps (sockets ports.now) (meanings names.now) (map associated arguments.now)) }
{
    let mut so_far = so_far;
    for argument in arguments {
        let direction = ports.direction(&argument.name.text);
        so_far = spend_argument(argument.at, direction, &argument.value, names, so_far);
    }
    so_far
}

fn spend_connections<'a>(
    ports: &Ports<'_>,
    connections: &Arguments,
    names: &Names,
    so_far: Progress<'a>,
) -> Progress<'a>
    ensures { course result ≡ passed (course so_far.entry)
        (connection_steps (sockets ports.now) (meanings names.now) (association connections.now)) }
{
    match connections {
        Arguments::Ordered(arguments) => spend_ordered(ports, arguments, names, so_far),
        Arguments::Named(arguments) => spend_named(ports, arguments, names, so_far),
    }
}

fn spend_instances<'a>(
    ports: &Ports<'_>,
    instances: &[Instance],
    names: &Names,
    so_far: Progress<'a>,
) -> Progress<'a>
    ensures { course result ≡ passed (course so_far.entry)
        (instantiations_steps (sockets ports.now) (meanings names.now)
        (map instantiation instances.now)) }
{
    let mut so_far = so_far;
    for instance in instances {
        so_far = spend_connections(ports, &instance.connections, names, so_far);
    }
    so_far
}

fn spend_group<'a>(
    alloc: Global,
    found: Option<Group<'_>>,
    names: &Names,
    so_far: Progress<'a>,
) -> Result<Progress<'a>, Memory>
    ensures { IfOk result (λ judged. course judged
        ≡ passed (course so_far.entry)
        (group_steps (meanings names.now) (option_map group found.entry))) }
{
    let Some(found) = found else {
        return Ok(so_far);
    };
    let entries = entries_of(alloc, found.written)?;
    let ports = Ports::new(alloc, found.written, &entries)?;
    Ok(spend_instances(&ports, found.instances, names, so_far))
}

/// The nodes of the connections of the instances that an item places.
#[tactic(auto, using(crate::proofs::Borrowed::passed_cut))]
pub(crate) fn spend_links<'a>(
    alloc: Global,
    all: Library<'_>,
    item: &Item,
    names: &Names,
    so_far: Progress<'a>,
) -> Result<Progress<'a>, Memory>
    ensures { IfOk result (λ judged. course judged
        ≡ passed (course so_far.entry)
        (link_steps (library all.entry) (meanings names.now) (module_item item.now))) }
{
    match so_far.left {
        None => Ok(so_far),
        Some(_) => {
            let found = group_of(alloc, all.files, all.set, item, names)?;
            spend_group(alloc, found, names, so_far)
        }
    }
}
