//! What the connections of instances do in the design.

ghost use Rattle.std.specs.Prelude.{◌≡◌, ◌≤◌, ◌++◌, [], ◌∷◌, IfOk, OnOk, Some, map};
ghost use Rattle.rtl_tree.specs.declared.tree.item.Direction.TheVariants.{Input, Output};
ghost use Rattle.std.specs.List.{slice_get};
ghost use Rattle.std.specs.Option.{option_map};
ghost use Rattle.rtl_flat.specs.Expression.{tree};
ghost use Rattle.rtl_flat.specs.Process.{piece, task};
ghost use Rattle.rtl_tree.specs.TreeExpr.{formula, formula_row};
ghost use Rattle.rtl_tree.specs.TreeItem.{associated, association, positional};
ghost use Rattle.elab_walk.specs.elab_scope.Names.{meanings};
ghost use Rattle.elab_walk.specs.elab_scope.Trees.{signal_of, spot_in};
ghost use Rattle.elab_walk.specs.elab_links.Drivable.{all_link_pieces, link_pieces};
ghost use Rattle.elab_flat.specs.Links.{input_context, link_task, link_tasks, named_port_tasks, named_tasks, ordered_tasks, output_context, placed_tasks, port_piece, port_tasks, port_tree, sides, value_tasks};
ghost use Rattle.elab_walk.specs.elab_links.Ports.{sockets};
ghost use Rattle.rtl_flat.specs.Process.{selection};

use elab_walk::elab_links::ports::Ports;
use elab_walk::elab_scope::context::Context;
use elab_walk::elab_scope::known::Known;
use elab_walk::elab_scope::names::Names;
use elab_walk::elab_scope::own::{breadth, name_breadth, name_sign, sign};
use elab_walk::elab_scope::pieces::{bit, part};
use elab_walk::elab_scope::selects::ends_of;
use elab_walk::elab_scope::size::{Site, field_in, signal_of, size};
use rtl_flat::act::{Does, Process, Target, TargetPart};
use rtl_flat::expr::{Node, Select, SizedExpr};
use rtl_tree::tree::expr::Expr;
use rtl_tree::tree::item::{Arguments, Direction, NamedArgument, OrderedArgument};
use rtl_tree::tree::names::Name;
use text_ground::memory::Memory;
use text_ground::text::{Spot, Text};

/// The two sides of connections.
#[derive(Clone, Copy)]
pub struct Ends<'a> {
    /// Where the module stands that holds the instance.
    pub site: Site,
    /// What its names stand for.
    pub names: &'a Names,
    /// Its number among the instances.
    pub instance: u32,
    /// How many signals come before those of the instance.
    pub inner_base: u16,
    /// What the names of the instance's module stand for.
    pub inner: &'a Names,
}

/// What is selected of a name.
fn part_of(name: &Name, known: Option<Known>, select: Select, site: Site) -> TargetPart
    ensures { piece result ≡ record {
      signal = signal_of site.base known;
      selection = selection select;
      spot = spot_in site.file
          name.now.at;
    } }
{
    TargetPart {
        signal: signal_of(site.base, known),
        select,
        spot: Spot {
            file: site.file,
            at: name.at,
        },
    }
}

/// The parts of an argument that is driven, behind others.
#[cycle(push_pieces)]
fn push_pieces(
    e: &Expr,
    names: &Names,
    site: Site,
    mut made: Vec<TargetPart>,
) -> Result<Vec<TargetPart>, Memory>
    ensures { IfOk result (λ all. map piece all.items
        ≡ map piece made.items ++ link_pieces site.file site.base (meanings names.now)
        (formula e.now)) }
{
    match e {
        Expr::Read(name) => {
            let known = names.find(&name.text);
            made.push(part_of(name, known, Select::Whole, site))?;
            Ok(made)
        }
        Expr::ReadBit(name, index) => {
            let known = names.find(&name.text);
            let select = bit(index, known, names, site)?;
            made.push(part_of(name, known, select, site))?;
            Ok(made)
        }
        Expr::ReadPart(name, kind, first, second) => {
            let known = names.find(&name.text);
            let ends = ends_of(*kind, first, second, names);
            let field = field_in(known, ends.msb, ends.lsb);
            made.push(part_of(name, known, part(field), site))?;
            Ok(made)
        }
        Expr::Concat(_, parts) => push_all_pieces(parts, names, site, made),
        Expr::Number(_, _)
        | Expr::Parens(_, _)
        | Expr::Apply(_, _, _)
        | Expr::Repeat(_, _, _)
        | Expr::Unary(_, _, _)
        | Expr::Binary(_, _, _, _)
        | Expr::Choose(_, _, _, _) => Ok(made),
    }
}

#[cycle(push_pieces)]
#[tactic(auto, using(std::proofs::lemmas::Grind::common_steps))]
fn push_all_pieces(
    parts: &[Expr],
    names: &Names,
    site: Site,
    made: Vec<TargetPart>,
) -> Result<Vec<TargetPart>, Memory>
    ensures { IfOk result (λ all. map piece all.items
        ≡ map piece made.items ++ all_link_pieces site.file site.base (meanings names.now)
        (formula_row (map formula parts.now))) }
{
    let mut made = made;
    for part in parts {
        made = push_pieces(part, names, site, made)?;
    }
    Ok(made)
}

/// The context of an argument that a port is assigned.
fn input_context(port: Option<Known>, e: &Expr, names: &Names) -> Context
    ensures exact { result ≡ input_context (meanings names.now) port (formula e.now) }
    ensures not_empty { 1 ≤ result.width }
    ensures at_most { result.width ≤ 128 }
{
    Context {
        width: name_breadth(port).wider(breadth(e, names)).bits(),
        signed: sign(e, names),
    }
}

/// The context of a port that an argument is assigned.
fn output_context(port: Option<Known>, e: &Expr, names: &Names) -> Context
    ensures { result ≡ output_context (meanings names.now) port (formula e.now) }
{
    Context {
        width: breadth(e, names).wider(name_breadth(port)).bits(),
        signed: name_sign(port),
    }
}

/// What drives what, where a connection stands.
fn process(ends: Ends<'_>, at: u32, target: Target, value: SizedExpr) -> Process
    ensures { task result ≡ link_task (sides ends.entry) at (map piece target.parts.items)
        (tree value) }
{
    Process {
        does: Does::Assign { target, value },
        instance: ends.instance,
        spot: Spot {
            file: ends.site.file,
            at,
        },
    }
}

/// A whole port of the instance, as a target.
fn port_piece(ends: Ends<'_>, at: u32, port: Option<Known>) -> TargetPart
    ensures { piece result ≡ port_piece (sides ends.entry) at port }
{
    TargetPart {
        signal: signal_of(ends.inner_base, port),
        select: Select::Whole,
        spot: Spot {
            file: ends.site.file,
            at,
        },
    }
}

/// A whole port of the instance, as it is read in a context.
fn port_value(ends: Ends<'_>, at: u32, port: Option<Known>, context: Context) -> SizedExpr
    ensures { tree result ≡ port_tree (sides ends.entry) at port context }
{
    SizedExpr {
        width: context.width,
        signed: context.signed,
        node: Node::Read(signal_of(ends.inner_base, port), Select::Whole),
        spot: Spot {
            file: ends.site.file,
            at,
        },
    }
}

/// An input port is assigned its argument.
fn input(ends: Ends<'_>, at: u32, port: Option<Known>, e: &Expr) -> Result<Process, Memory>
    ensures { IfOk result (λ made. task made ∷ []
        ≡ port_tasks (sides ends.entry) at (Some Input) port (formula e.now)) }
{
    let mut parts = Vec::new(ends.site.alloc);
    parts.push(port_piece(ends, at, port))?;
    let value = size(e, input_context(port, e, ends.names), ends.names, ends.site)?;
    Ok(process(ends, at, Target { parts }, value))
}

/// The argument of an output port is assigned the port.
fn output(ends: Ends<'_>, at: u32, port: Option<Known>, e: &Expr) -> Result<Process, Memory>
    ensures { IfOk result (λ made. task made ∷ []
        ≡ port_tasks (sides ends.entry) at (Some Output) port (formula e.now)) }
{
    let parts = push_pieces(e, ends.names, ends.site, Vec::new(ends.site.alloc))?;
    let value = port_value(ends, at, port, output_context(port, e, ends.names));
    Ok(process(ends, at, Target { parts }, value))
}

fn push_port(
    ends: Ends<'_>,
    at: u32,
    direction: Option<Direction>,
    port: Option<Known>,
    e: &Expr,
    made: &mut Vec<Process>,
) -> Result<(), Memory>
    ensures { OnOk result (map task made.new.items
        ≡ map task made.old.items ++ port_tasks (sides ends.entry) at direction port
        (formula e.now)) }
{
    match direction {
        None => {}
        Some(Direction::Input) => made.push(input(ends, at, port, e)?)?,
        Some(Direction::Output) => made.push(output(ends, at, port, e)?)?,
    }
    Ok(())
}

/// An empty argument connects nothing.
fn push_value(
    ports: &Ports<'_>,
    ends: Ends<'_>,
    at: u32,
    name: &Text,
    value: &Option<Expr>,
    made: &mut Vec<Process>,
) -> Result<(), Memory>
    ensures { OnOk result (map task made.new.items
        ≡ map task made.old.items ++ named_port_tasks (sockets ports.now)
        (sides ends.entry) at name.now (option_map formula value.now)) }
{
    if let Some(e) = value {
        push_port(
            ends,
            at,
            ports.direction(name),
            ends.inner.find(name),
            e,
            made,
        )?;
    }
    Ok(())
}

fn push_placed(
    ports: &Ports<'_>,
    ends: Ends<'_>,
    place: usize,
    argument: &OrderedArgument,
    made: &mut Vec<Process>,
) -> Result<(), Memory>
    ensures { OnOk result (map task made.new.items
        ≡ map task made.old.items ++ placed_tasks (sockets ports.now)
        (sides ends.entry) argument.now.at (slice_get (sockets ports.now).order place)
        (option_map formula argument.now.value)) }
{
    match ports.order.get(place) {
        None => Ok(()),
        Some(port) => push_value(ports, ends, argument.at, &port.text, &argument.value, made),
    }
}

fn push_ordered(
    ports: &Ports<'_>,
    ends: Ends<'_>,
    arguments: &[OrderedArgument],
    made: &mut Vec<Process>,
) -> Result<(), Memory>
    ensures { OnOk result (map task made.new.items
        ≡ map task made.old.items ++ ordered_tasks (sockets ports.now) (sides ends.entry) 0
        (map positional arguments.now)) }
{
    for (place, argument) in arguments.iter().enumerate() {
        push_placed(ports, ends, place, argument, made)?;
    }
    Ok(())
}

fn push_named(
    ports: &Ports<'_>,
    ends: Ends<'_>,
    arguments: &[NamedArgument],
    made: &mut Vec<Process>,
) -> Result<(), Memory>
    ensures { OnOk result (map task made.new.items
        ≡ map task made.old.items ++ named_tasks (sockets ports.now) (sides ends.entry)
        (map associated arguments.now)) }
{
    for argument in arguments {
        let name = &argument.name.text;
        push_value(ports, ends, argument.at, name, &argument.value, made)?;
    }
    Ok(())
}

/// What the connections of an instance of a module with these ports do, behind others.
pub(crate) fn push_links(
    ports: &Ports<'_>,
    ends: Ends<'_>,
    connections: &Arguments,
    made: &mut Vec<Process>,
) -> Result<(), Memory>
    ensures { OnOk result (map task made.new.items
        ≡ map task made.old.items ++ link_tasks (sockets ports.now) (sides ends.entry)
        (association connections.now)) }
{
    match connections {
        Arguments::Ordered(arguments) => push_ordered(ports, ends, arguments, made),
        Arguments::Named(arguments) => push_named(ports, ends, arguments, made),
    }
}
