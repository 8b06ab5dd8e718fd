//! The ports of a module.

ghost use Rattle.std.specs.Prelude.{◌≡◌, ◌++◌, IfOk, OnOk, map};
ghost use Rattle.name_map.specs.Values.{values_of};
ghost use Rattle.rtl_tree.specs.TreeExpr.{identifier};
ghost use Rattle.rtl_tree.specs.TreeModule.{circuit, header, header_port};
ghost use Rattle.elab_items.specs.Declarations.{declaration, declarations};
ghost use Rattle.elab_links.specs.Marks.{marks_of, no_marks, with_marks};
ghost use Rattle.elab_links.specs.Ports.{all_directed, directed, no_directions, port_name, port_names, sockets, sockets_of, with_direction};

use crate::marks::NameSet;
use elab_items::entries::Entry;
use name_map::NameMap;
use rtl_tree::tree::item::Direction;
use rtl_tree::tree::modules::{HeadPort, Module, PortList};
use rtl_tree::tree::names::Name;
use std::alloc::Global;
use text_ground::memory::Memory;
use text_ground::text::Text;

/// A name has the first direction that is given to it.
fn enter(
    name: &Text,
    direction: Option<Direction>,
    made: &mut NameMap<Direction>,
) -> Result<(), Memory>
    ensures { OnOk result (values_of made.new
        ≡ with_direction (values_of made.old) name.now direction) }
{
    match direction {
        None => Ok(()),
        Some(direction) => made.enter(name, direction),
    }
}

fn declare(entry: Entry<'_>, made: &mut NameMap<Direction>) -> Result<(), Memory>
    ensures { OnOk result (values_of made.new
        ≡ directed (values_of made.old) (declaration entry.entry)) }
{
    match entry {
        Entry::Signal { form, name, .. } => enter(&name.text, form.direction(), made)?,
        Entry::ParameterRange(_) | Entry::Parameter(_, _, _) => {}
        Entry::SignalRange(_) | Entry::Listed(_) => {}
        Entry::Integer(_) | Entry::Instance(_) => {}
    }
    Ok(())
}

/// The direction of each name, by the declarations of its module.
fn directions_by(alloc: Global, entries: &[Entry<'_>]) -> Result<NameMap<Direction>, Memory>
    ensures { IfOk result (λ made. values_of made
        ≡ all_directed no_directions (map declaration entries.now)) }
{
    let mut made = NameMap::new(alloc);
    for entry in entries {
        declare(*entry, &mut made)?;
    }
    Ok(made)
}

fn push_declared<'a>(ports: &'a [HeadPort], order: &mut Vec<&'a Name>) -> Result<(), Memory>
    ensures { OnOk result (map (λ name. identifier name.now) order.new.items
        ≡ map (λ name. identifier name.now) order.old.items
        ++ map port_name (map header_port ports.now)) }
{
    for port in ports {
        order.push(&port.name)?;
    }
    Ok(())
}

fn push_named<'a>(names: &'a [Name], order: &mut Vec<&'a Name>) -> Result<(), Memory>
    ensures { OnOk result (map (λ name. identifier name.now) order.new.items
        ≡ map (λ name. identifier name.now) order.old.items ++ map identifier names.now) }
{
    for name in names {
        order.push(name)?;
    }
    Ok(())
}

/// The names in a head, in the order of the ports.
fn port_names<'a>(alloc: Global, ports: &'a PortList) -> Result<Vec<&'a Name>, Memory>
    ensures { IfOk result (λ order. map (λ name. identifier name.now) order.items
        ≡ port_names (header ports.now)) }
{
    let mut order = Vec::new(alloc);
    match ports {
        PortList::Absent | PortList::Empty => {}
        PortList::Declared(ports) => push_declared(ports, &mut order)?,
        PortList::Named(names) => push_named(names, &mut order)?,
    }
    Ok(order)
}

/// The set of these names.
pub fn set_of(alloc: Global, names: &[&Name]) -> Result<NameSet, Memory>
    ensures { IfOk result (λ set. marks_of set
        ≡ with_marks no_marks (map (λ name. identifier name.now) names.now)) }
{
    let mut set = NameSet::new(alloc);
    for name in names {
        set.add(&name.text)?;
    }
    Ok(set)
}

/// The ports of a module.
#[derive(Drop)]
pub struct Ports<'a> {
    /// Their names, in the order of the head.
    pub order: Vec<&'a Name>,
    directions: NameMap<Direction>,
}

impl<'a> Ports<'a> {
    /// The ports of a module with these declarations.
    pub fn new(
        alloc: Global,
        written: &'a Module,
        entries: &[Entry<'a>],
    ) -> Result<Ports<'a>, Memory>
        requires { map declaration entries.now ≡ declarations (circuit written.now) }
        ensures { IfOk result (λ made. sockets made ≡ sockets_of (circuit written.now)) }
    {
        let order = port_names(alloc, &written.ports)?;
        let directions = directions_by(alloc, entries)?;
        Ok(Ports { order, directions })
    }

    /// The set of their names.
    pub fn listed(&self, alloc: Global) -> Result<NameSet, Memory>
        ensures { IfOk result (λ set. marks_of set ≡ (sockets self.now).listed) }
    {
        set_of(alloc, &self.order)
    }

    /// The direction of the port, where it is known.
    pub fn direction(&self, name: &Text) -> Option<Direction>
        ensures { result ≡ (sockets self.now).direction name.now }
    {
        self.directions.find(name)
    }
}
