//! What other tools read otherwise in the connections of an instance's ports.

ghost use Rattle.std.specs.Prelude.{◌≡◌, ◌++◌, OnOk, map};
ghost use Rattle.std.specs.List.{flat_map, slice_get};
ghost use Rattle.std.specs.Option.{option_map};
ghost use Rattle.rtl_tree.specs.TreeExpr.{formula, formula_row, identifier};
ghost use Rattle.rtl_tree.specs.TreeItem.{associated, association, positional};
ghost use Rattle.rtl_tree.specs.TreeModule.{header, header_port};
ghost use Rattle.elab_uses.specs.elab_links.Ports.{port_name, port_names};
ghost use Rattle.elab_uses.specs.elab_scope.Names.{meanings};
ghost use Rattle.elab_uses.specs.elab_standard.Scopes.{scopes};
ghost use Rattle.elab_uses.specs.elab_standard.Uses.{Number, use_notes};
ghost use Rattle.elab_readings.specs.Connections.{connection_notes, context_notes, driven_numbers, hangs_on, input_notes, is_narrower, late_notes, named_notes, ordered_notes, output_notes, placed_notes, port_notes, row_driven_numbers, value_notes};
ghost use Rattle.elab_readings.specs.Views.{ends, holder};

use crate::above::Holder;
use crate::late::names_late;
use crate::notes::note_at;
use crate::steady::steady;
use elab_uses::elab_scope::known::{Known, Role};
use elab_uses::elab_scope::names::Names;
use elab_uses::elab_scope::own::{breadth, name_breadth};
use elab_uses::elab_scope::size::signal_of;
use elab_uses::elab_scope::widths::Breadth;
use elab_uses::elab_standard::uses::{Use, push_use};
use rtl_flat::note::{Note, Reading};
use rtl_tree::tree::expr::Expr;
use rtl_tree::tree::item::{Arguments, NamedArgument, OrderedArgument};
use rtl_tree::tree::modules::{HeadPort, PortList};
use rtl_tree::tree::names::Name;
use text_ground::memory::Memory;

/// The two sides of connections.
#[derive(Clone, Copy)]
pub struct Ends<'a> {
    /// The instance that holds the other.
    pub holder: &'a Holder,
    /// How many signals come before those of the other.
    pub base: u16,
    /// What the names of its module stand for.
    pub inner: &'a Names,
}

fn is_narrower(own: Breadth, port: Breadth) -> bool
    ensures { result ≡ is_narrower own port }
{
    match (own, port) {
        (Breadth::Bits(own), Breadth::Bits(port)) => own < port,
        _ => false,
    }
}

/// Whether the value of an argument hangs on the width of its port.
fn hangs_on(port: Option<Known>, e: &Expr, names: &Names) -> bool
    ensures { result ≡ hangs_on port (meanings names.now) (formula e.now) }
{
    is_narrower(breadth(e, names), name_breadth(port)) && !steady(e, names)
}

fn push_context(
    sides: Ends<'_>,
    at: u32,
    port: Option<Known>,
    e: &Expr,
    made: &mut Vec<Note>,
) -> Result<(), Memory>
    ensures { OnOk result (made.new.items
        ≡ made.old.items ++ context_notes (ends sides.entry) at port (formula e.now)) }
{
    let holder = sides.holder;
    if hangs_on(port, e, &holder.scopes.names) {
        let signal = signal_of(sides.base, port);
        made.push(note_at(Reading::PortContext, Some(signal), holder.home, at))?;
    }
    Ok(())
}

fn push_late(within: &Holder, at: u32, e: &Expr, made: &mut Vec<Note>) -> Result<(), Memory>
    ensures { OnOk result (made.new.items
        ≡ made.old.items ++ late_notes (holder within.now) at (formula e.now)) }
{
    if names_late(e, &within.scopes.names, &within.places, at) {
        made.push(note_at(Reading::LateParameter, None, within.home, at))?;
    }
    Ok(())
}

/// An input is assigned its argument.
fn push_input(
    sides: Ends<'_>,
    at: u32,
    port: Option<Known>,
    e: &Expr,
    made: &mut Vec<Note>,
) -> Result<(), Memory>
    ensures { OnOk result (made.new.items
        ≡ made.old.items ++ input_notes (ends sides.entry) at port (formula e.now)) }
{
    let value = Use::Value {
        value: e,
        wanted: name_breadth(port).bits(),
    };
    push_use(sides.holder.home, &sides.holder.scopes, value, made)?;
    push_context(sides, at, port, e, made)?;
    push_late(sides.holder, at, e, made)
}

/// An output drives its argument, in which each index and each end of a part is a number.
#[cycle(push_output)]
#[tactic(auto, using(crate::proofs::Borrowed::concat_driven))]
fn push_output(within: &Holder, e: &Expr, made: &mut Vec<Note>) -> Result<(), Memory>
    ensures { OnOk result (made.new.items ≡ made.old.items
        ++ flat_map (use_notes (holder within.now).home (holder within.now).scopes)
        (driven_numbers (formula e.now))) }
{
    match e {
        Expr::ReadBit(_, index) => push_number(within, index, made),
        Expr::ReadPart(_, _, first, second) => {
            push_number(within, first, made)?;
            push_number(within, second, made)
        }
        Expr::Concat(_, parts) => push_outputs(within, parts, made),
        Expr::Number(_, _)
        | Expr::Read(_)
        | Expr::Parens(_, _)
        | Expr::Apply(_, _, _)
        | Expr::Repeat(_, _, _)
        | Expr::Unary(_, _, _)
        | Expr::Binary(_, _, _, _)
        | Expr::Choose(_, _, _, _) => Ok(()),
    }
}

#[cycle(push_output)]
fn push_outputs(within: &Holder, parts: &[Expr], made: &mut Vec<Note>) -> Result<(), Memory>
    ensures { OnOk result (made.new.items ≡ made.old.items
        ++ flat_map (use_notes (holder within.now).home (holder within.now).scopes)
        (row_driven_numbers (formula_row (map formula parts.now)))) }
{
    for part in parts {
        push_output(within, part, made)?;
    }
    Ok(())
}

fn push_number(within: &Holder, e: &Expr, made: &mut Vec<Note>) -> Result<(), Memory>
    ensures { OnOk result (made.new.items ≡ made.old.items
        ++ use_notes (holder within.now).home (holder within.now).scopes
        (Number (formula e.now))) }
{
    push_use(within.home, &within.scopes, Use::Number(e), made)
}

/// A port that isn't an input is an output.
fn push_port(
    sides: Ends<'_>,
    at: u32,
    port: Option<Known>,
    e: &Expr,
    made: &mut Vec<Note>,
) -> Result<(), Memory>
    ensures { OnOk result (made.new.items
        ≡ made.old.items ++ port_notes (ends sides.entry) at port (formula e.now)) }
{
    match port {
        Some(Known::Signal { role, .. }) => match role {
            Role::Input => push_input(sides, at, port, e, made),
            Role::Net | Role::Variable => push_output(sides.holder, e, made),
        },
        Some(Known::Parameter { .. } | Known::Integer(_)) | None => Ok(()),
    }
}

/// An empty argument connects nothing.
fn push_value(
    sides: Ends<'_>,
    at: u32,
    port: &Name,
    value: &Option<Expr>,
    made: &mut Vec<Note>,
) -> Result<(), Memory>
    ensures { OnOk result (made.new.items ≡ made.old.items
        ++ value_notes (ends sides.entry) at (meanings sides.entry.inner.now port.now.text)
        (option_map formula value.now)) }
{
    match value {
        None => Ok(()),
        Some(e) => push_port(sides, at, sides.inner.find(&port.text), e, made),
    }
}

fn declared_at(ports: &[HeadPort], place: usize) -> Option<&Name>
    ensures { option_map (λ name. identifier name.now) result
        ≡ slice_get (map port_name (map header_port ports.now)) place }
{
    match ports.get(place) {
        None => None,
        Some(port) => Some(&port.name),
    }
}

fn named_at(names: &[Name], place: usize) -> Option<&Name>
    ensures { option_map (λ name. identifier name.now) result
        ≡ slice_get (map identifier names.now) place }
{
    match names.get(place) {
        None => None,
        Some(name) => Some(name),
    }
}

/// The name of the port in a place.
fn port_at(ports: &PortList, place: usize) -> Option<&Name>
    ensures { option_map (λ name. identifier name.now) result
        ≡ slice_get (port_names (header ports.now)) place }
{
    match ports {
        PortList::Absent | PortList::Empty => None,
        PortList::Declared(ports) => declared_at(ports, place),
        PortList::Named(names) => named_at(names, place),
    }
}

fn push_placed(
    ports: &PortList,
    sides: Ends<'_>,
    place: usize,
    argument: &OrderedArgument,
    made: &mut Vec<Note>,
) -> Result<(), Memory>
    ensures { OnOk result (made.new.items ≡ made.old.items
        ++ placed_notes (ends sides.entry) argument.now.at
        (slice_get (port_names (header ports.now)) place) (option_map formula argument.now.value)) }
{
    match port_at(ports, place) {
        None => Ok(()),
        Some(port) => push_value(sides, argument.at, port, &argument.value, made),
    }
}

fn push_ordered(
    ports: &PortList,
    sides: Ends<'_>,
    arguments: &[OrderedArgument],
    made: &mut Vec<Note>,
) -> Result<(), Memory>
    ensures { OnOk result (made.new.items ≡ made.old.items
        ++ ordered_notes (port_names (header ports.now)) (ends sides.entry) 0
        (map positional arguments.now)) }
{
    for (place, argument) in arguments.iter().enumerate() {
        push_placed(ports, sides, place, argument, made)?;
    }
    Ok(())
}

fn push_named(
    sides: Ends<'_>,
    arguments: &[NamedArgument],
    made: &mut Vec<Note>,
) -> Result<(), Memory>
    ensures { OnOk result (made.new.items ≡ made.old.items
        ++ flat_map (named_notes (ends sides.entry)) (map associated arguments.now)) }
{
    for argument in arguments {
        push_value(sides, argument.at, &argument.name, &argument.value, made)?;
    }
    Ok(())
}

/// The connections of an instance of a module with these ports.
pub(crate) fn push_connections(
    ports: &PortList,
    sides: Ends<'_>,
    connections: &Arguments,
    made: &mut Vec<Note>,
) -> Result<(), Memory>
    ensures { OnOk result (made.new.items ≡ made.old.items
        ++ connection_notes (port_names (header ports.now)) (ends sides.entry)
        (association connections.now)) }
{
    match connections {
        Arguments::Ordered(arguments) => push_ordered(ports, sides, arguments, made),
        Arguments::Named(arguments) => push_named(sides, arguments, made),
    }
}
