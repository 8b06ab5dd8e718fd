//! The connections of an instance's ports.

ghost use Rattle.std.specs.Prelude.{◌≡◌, IfOk, length, map};
ghost use Rattle.std.specs.List.{slice_get};
ghost use Rattle.std.specs.Option.{option_map};
ghost use Rattle.rtl_tree.specs.TreeExpr.{formula};
ghost use Rattle.rtl_tree.specs.TreeItem.{associated, association, instantiation, positional};
ghost use Rattle.elab_items.specs.elab_scope.Faults.{Port, after, refusal};
ghost use Rattle.elab_items.specs.elab_scope.Names.{meanings};
ghost use Rattle.elab_links.specs.Connections.{argument_faults, connection_faults, named_link_faults, ordered_link_faults, placed_faults, instantiation_faults, instantiations_faults, spare_faults};
ghost use Rattle.elab_links.specs.Marks.{no_marks};
ghost use Rattle.elab_links.specs.Parameters.{surplus_faults};
ghost use Rattle.elab_links.specs.Ports.{sockets};

use crate::drivable::drivable;
use crate::marks::NameSet;
use crate::parameters::{judge_name, judge_surplus};
use crate::ports::Ports;
use elab_items::elab_scope::fault::{Cause, Fault};
use elab_items::elab_scope::judge::judge;
use elab_items::elab_scope::names::Names;
use rtl_tree::tree::expr::Expr;
use rtl_tree::tree::item::{Arguments, Direction, Instance, NamedArgument, OrderedArgument};
use std::alloc::Global;
use text_ground::memory::Memory;
use text_ground::text::Text;

/// Where a port is connected.
#[derive(Clone, Copy)]
struct Plug<'a> {
    /// The place of its name where it is written, else that of its argument.
    at: u32,
    port: &'a Text,
}

/// An input port reads its argument, an output port drives it.
#[tactic(auto, using(crate::proofs::Borrowed::after_append))]
fn judge_argument<'a>(
    alloc: Global,
    direction: Option<Direction>,
    plug: Plug<'a>,
    value: &'a Expr,
    names: &Names,
    best: Option<Fault<'a>>,
) -> Result<Option<Fault<'a>>, Memory>
    ensures { IfOk result (λ told. option_map refusal told
        ≡ after (option_map refusal best.entry)
        (argument_faults (meanings names.now) direction plug.entry.at plug.entry.port.now
        (formula value.now))) }
{
    let judged = judge(value, names, best);
    match direction {
        None | Some(Direction::Input) => Ok(judged.best),
        Some(Direction::Output) => {
            if drivable(alloc, value, judged.breadth, names)? {
                return Ok(judged.best);
            }
            let fault = Fault {
                at: plug.at,
                cause: Cause::Port(plug.port),
            };
            Ok(Fault::keep(judged.best, fault))
        }
    }
}

/// An empty argument connects nothing.
fn judge_connection<'a>(
    alloc: Global,
    direction: Option<Direction>,
    plug: Plug<'a>,
    value: &'a Option<Expr>,
    names: &Names,
    best: Option<Fault<'a>>,
) -> Result<Option<Fault<'a>>, Memory>
    ensures { IfOk result (λ told. option_map refusal told
        ≡ after (option_map refusal best.entry)
        (connection_faults (meanings names.now) direction plug.entry.at plug.entry.port.now
        (option_map formula value.now))) }
{
    match value {
        None => Ok(best),
        Some(value) => judge_argument(alloc, direction, plug, value, names, best),
    }
}

/// An argument that no port takes.
fn judge_spare<'a>(
    value: &'a Option<Expr>,
    names: &Names,
    best: Option<Fault<'a>>,
) -> Option<Fault<'a>>
    ensures { option_map refusal result
        ≡ after (option_map refusal best.entry)
        (spare_faults (meanings names.now) (option_map formula value.now)) }
{
    match value {
        None => best,
        Some(value) => judge(value, names, best).best,
    }
}

/// An argument by position, of the port at this place.
#[tactic(auto, using(crate::proofs::Places::at_place))]
fn judge_placed<'a>(
    alloc: Global,
    ports: &Ports<'a>,
    place: usize,
    argument: &'a OrderedArgument,
    names: &Names,
    best: Option<Fault<'a>>,
) -> Result<Option<Fault<'a>>, Memory>
    ensures { IfOk result (λ told. option_map refusal told
        ≡ after (option_map refusal best.entry)
        (placed_faults (sockets ports.now) (meanings names.now) argument.now.at
        (slice_get (sockets ports.now).order place) (option_map formula argument.now.value))) }
{
    match ports.order.get(place) {
        None => Ok(judge_spare(&argument.value, names, best)),
        Some(port) => {
            let port = &port.text;
            let at = argument.at;
            let direction = ports.direction(port);
            judge_connection(
                alloc,
                direction,
                Plug { at, port },
                &argument.value,
                names,
                best,
            )
        }
    }
}

/// The first argument that is one too many for the ports.
fn judge_count<'a>(
    child: &'a Text,
    ports: &Ports<'a>,
    place: usize,
    at: u32,
    best: Option<Fault<'a>>,
) -> Option<Fault<'a>>
    ensures { option_map refusal result
        ≡ after (option_map refusal best.entry)
        (surplus_faults (length (sockets ports.now).order) place at (Port child.now)) }
{
    judge_surplus(ports.order.len(), place, at, Cause::Port(child), best)
}

fn judge_ordered<'a>(
    alloc: Global,
    child: &'a Text,
    ports: &Ports<'a>,
    arguments: &'a [OrderedArgument],
    names: &Names,
    best: Option<Fault<'a>>,
) -> Result<Option<Fault<'a>>, Memory>
    ensures { IfOk result (λ told. option_map refusal told
        ≡ after (option_map refusal best.entry)
        (ordered_link_faults child.now (sockets ports.now) (meanings names.now) 0
        (map positional arguments.now))) }
{
    let mut best = best;
    for (place, argument) in arguments.iter().enumerate() {
        best = judge_count(child, ports, place, argument.at, best);
        best = judge_placed(alloc, ports, place, argument, names, best)?;
    }
    Ok(best)
}

#[tactic(auto, using(crate::proofs::Borrowed::after_append))]
fn judge_named<'a>(
    alloc: Global,
    ports: &Ports<'a>,
    arguments: &'a [NamedArgument],
    names: &Names,
    best: Option<Fault<'a>>,
) -> Result<Option<Fault<'a>>, Memory>
    ensures { IfOk result (λ told. option_map refusal told
        ≡ after (option_map refusal best.entry)
        (named_link_faults (sockets ports.now) (meanings names.now) no_marks
        (map associated arguments.now))) }
{
    let mut best = best;
    let listed = ports.listed(alloc)?;
    let mut taken = NameSet::new(alloc);
    for argument in arguments {
        let port = &argument.name.text;
        let at = argument.name.at;
        best = judge_name(
            listed.has(port),
            taken.has(port),
            at,
            Cause::Port(port),
            best,
        );
        let plug = Plug { at, port };
        let direction = ports.direction(port);
        best = judge_connection(alloc, direction, plug, &argument.value, names, best)?;
        taken.add(port)?;
    }
    Ok(best)
}

/// The faults of the connections of one instance.
fn judge_instantiation<'a>(
    alloc: Global,
    child: &'a Text,
    ports: &Ports<'a>,
    connections: &'a Arguments,
    names: &Names,
    best: Option<Fault<'a>>,
) -> Result<Option<Fault<'a>>, Memory>
    ensures { IfOk result (λ told. option_map refusal told
        ≡ after (option_map refusal best.entry)
        (instantiation_faults child.now (sockets ports.now) (meanings names.now)
        (association connections.now))) }
{
    match connections {
        Arguments::Ordered(arguments) => {
            judge_ordered(alloc, child, ports, arguments, names, best)
        }
        Arguments::Named(arguments) => judge_named(alloc, ports, arguments, names, best),
    }
}

/// The faults of the connections of several instances of a module with these ports.
#[tactic(auto, using(crate::proofs::Borrowed::after_append))]
pub(crate) fn judge_instantiations<'a>(
    alloc: Global,
    child: &'a Text,
    ports: &Ports<'a>,
    instances: &'a [Instance],
    names: &Names,
    best: Option<Fault<'a>>,
) -> Result<Option<Fault<'a>>, Memory>
    ensures { IfOk result (λ told. option_map refusal told
        ≡ after (option_map refusal best.entry)
        (instantiations_faults child.now (sockets ports.now) (meanings names.now)
        (map instantiation instances.now))) }
{
    let mut best = best;
    for instance in instances {
        best = judge_instantiation(alloc, child, ports, &instance.connections, names, best)?;
    }
    Ok(best)
}
