//! The declarations of a module, in the order in which they stand.

ghost use Rattle.std.specs.Prelude.{◌≡◌, ◌++◌, IfOk, OnOk, map, None};
ghost use Rattle.std.specs.Option.{option_map};
ghost use Rattle.rtl_tree.specs.TreeExpr.{identifier};
ghost use Rattle.rtl_tree.specs.TreeItem.{head, module_item, net, instantiation, valuation, variable};
ghost use Rattle.rtl_tree.specs.TreeModule.{circuit, header, header_parameter, header_port};
ghost use Rattle.elab_items.specs.declared.entries.Form.TheVariants as form;
ghost use Rattle.elab_items.specs.Declarations.{headed, Integer, Listed, Signal, declaration, declarations, declared_gate, declared_instance, declared_net, declared_parameter, declared_variable, head_parameters, head_ports, header_declarations, item_declarations, items_declarations};

use rtl_tree::tree::expr::{Expr, Range};
use rtl_tree::tree::item::{
    Direction, Instance, Item, ParameterKind, PortHead, PortKind, Reg, Setting, Wire,
};
use rtl_tree::tree::modules::{HeadParameter, HeadPort, Module, PortList};
use rtl_tree::tree::names::Name;
use std::alloc::Global;
use text_ground::memory::Memory;

/// What declares a signal.
#[derive(Clone, Copy, PartialEq, Eq, Debug)]
pub enum Form {
    /// The direction of a port in the head, and `wire` or `reg` after it.
    Header(Direction, Option<PortKind>),
    /// The direction of a port among the items, and `wire` or `reg` after it.
    Item(Direction, Option<PortKind>),
    /// `wire`
    Wire,
    /// `reg`
    Reg,
}

/// A declaration of one name, or the range of those that follow.
#[derive(Clone, Copy)]
pub enum Entry<'a> {
    ParameterRange(Option<&'a Range>),
    Parameter(ParameterKind, &'a Name, &'a Expr),
    SignalRange(Option<&'a Range>),
    /// A name in a head that leaves its direction to an item.
    Listed(&'a Name),
    Signal {
        form: Form,
        signed: bool,
        name: &'a Name,
    },
    Integer(&'a Name),
    Instance(&'a Name),
}

/// The parameters of the head.
pub fn push_parameters<'a>(
    parameters: &'a [HeadParameter],
    entries: &mut Vec<Entry<'a>>,
) -> Result<(), Memory>
    ensures { OnOk result (map declaration entries.new.items
        ≡ map declaration entries.old.items
        ++ head_parameters (map header_parameter parameters.now)) }
{
    for parameter in parameters {
        if let Some(head) = &parameter.head {
            entries.push(Entry::ParameterRange(head.range.as_ref()))?;
        }
        entries.push(Entry::Parameter(
            ParameterKind::Parameter,
            &parameter.name,
            &parameter.value,
        ))?;
    }
    Ok(())
}

fn push_ports<'a>(ports: &'a [HeadPort], entries: &mut Vec<Entry<'a>>) -> Result<(), Memory>
    ensures { OnOk result (map declaration entries.new.items
        ≡ map declaration entries.old.items ++ head_ports None (map header_port ports.now)) }
{
    let mut in_force: Option<&'a PortHead> = None;
    for port in ports {
        if let Some(own) = &port.head {
            entries.push(Entry::SignalRange(own.range.as_ref()))?;
            in_force = Some(own);
        }
        entries.push(headed(in_force, &port.name))?;
    }
    Ok(())
}

/// A port of the head, with the direction that is in force.
fn headed<'a>(in_force: Option<&'a PortHead>, name: &'a Name) -> Entry<'a>
    ensures { declaration result ≡ headed (option_map (λ written. head written.now) in_force.entry)
        (identifier name.now) }
{
    match in_force {
        None => Entry::Listed(name),
        Some(written) => Entry::Signal {
            form: Form::Header(written.direction, written.kind),
            signed: written.signed,
            name,
        },
    }
}

fn push_listed<'a>(names: &'a [Name], entries: &mut Vec<Entry<'a>>) -> Result<(), Memory>
    ensures { OnOk result (map declaration entries.new.items
        ≡ map declaration entries.old.items ++ map Listed (map identifier names.now)) }
{
    for name in names {
        entries.push(Entry::Listed(name))?;
    }
    Ok(())
}

/// The ports of the head.
pub fn push_header<'a>(ports: &'a PortList, entries: &mut Vec<Entry<'a>>) -> Result<(), Memory>
    ensures { OnOk result (map declaration entries.new.items
        ≡ map declaration entries.old.items ++ header_declarations (header ports.now)) }
{
    match ports {
        PortList::Absent | PortList::Empty => {}
        PortList::Declared(ports) => push_ports(ports, entries)?,
        PortList::Named(names) => push_listed(names, entries)?,
    }
    Ok(())
}

fn push_directed<'a>(
    written: &PortHead,
    names: &'a [Name],
    entries: &mut Vec<Entry<'a>>,
) -> Result<(), Memory>
    ensures { OnOk result (map declaration entries.new.items
        ≡ map declaration entries.old.items
        ++ map (Signal (form.Item written.now.direction written.now.kind) written.now.signed)
        (map identifier names.now)) }
{
    let form = Form::Item(written.direction, written.kind);
    let signed = written.signed;
    for name in names {
        entries.push(Entry::Signal { form, signed, name })?;
    }
    Ok(())
}

fn push_wires<'a>(
    signed: bool,
    wires: &'a [Wire],
    entries: &mut Vec<Entry<'a>>,
) -> Result<(), Memory>
    ensures { OnOk result (map declaration entries.new.items
        ≡ map declaration entries.old.items ++ map (declared_net signed) (map net wires.now)) }
{
    for wire in wires {
        entries.push(Entry::Signal {
            form: Form::Wire,
            signed,
            name: &wire.name,
        })?;
    }
    Ok(())
}

fn push_regs<'a>(signed: bool, regs: &'a [Reg], entries: &mut Vec<Entry<'a>>) -> Result<(), Memory>
    ensures { OnOk result (map declaration entries.new.items
        ≡ map declaration entries.old.items
        ++ map (declared_variable signed) (map variable regs.now)) }
{
    for reg in regs {
        entries.push(Entry::Signal {
            form: Form::Reg,
            signed,
            name: &reg.name,
        })?;
    }
    Ok(())
}

fn push_integers<'a>(names: &'a [Name], entries: &mut Vec<Entry<'a>>) -> Result<(), Memory>
    ensures { OnOk result (map declaration entries.new.items
        ≡ map declaration entries.old.items ++ map Integer (map identifier names.now)) }
{
    for name in names {
        entries.push(Entry::Integer(name))?;
    }
    Ok(())
}

fn push_settings<'a>(
    kind: ParameterKind,
    settings: &'a [Setting],
    entries: &mut Vec<Entry<'a>>,
) -> Result<(), Memory>
    ensures { OnOk result (map declaration entries.new.items
        ≡ map declaration entries.old.items
        ++ map (declared_parameter kind) (map valuation settings.now)) }
{
    for setting in settings {
        entries.push(Entry::Parameter(kind, &setting.name, &setting.value))?;
    }
    Ok(())
}

fn push_instances<'a>(instances: &'a [Instance], entries: &mut Vec<Entry<'a>>) -> Result<(), Memory>
    ensures { OnOk result (map declaration entries.new.items ≡ map declaration entries.old.items
        ++ map declared_instance (map instantiation instances.now)) }
{
    for instance in instances {
        entries.push(Entry::Instance(&instance.name))?;
    }
    Ok(())
}

/// The names of gates, which stand for nothing that may be read or written.
fn push_gates<'a>(names: &'a [Name], entries: &mut Vec<Entry<'a>>) -> Result<(), Memory>
    ensures { OnOk result (map declaration entries.new.items
        ≡ map declaration entries.old.items ++ map declared_gate (map identifier names.now)) }
{
    for name in names {
        entries.push(Entry::Instance(name))?;
    }
    Ok(())
}

/// The declarations of an item.
pub fn push_item<'a>(item: &'a Item, entries: &mut Vec<Entry<'a>>) -> Result<(), Memory>
    ensures { OnOk result (map declaration entries.new.items
        ≡ map declaration entries.old.items ++ item_declarations (module_item item.now)) }
{
    match item {
        Item::Ports(head, names) => {
            entries.push(Entry::SignalRange(head.range.as_ref()))?;
            push_directed(head, names, entries)?;
        }
        Item::Wires {
            signed,
            range,
            wires,
            ..
        } => {
            entries.push(Entry::SignalRange(range.as_ref()))?;
            push_wires(*signed, wires, entries)?;
        }
        Item::Regs {
            signed,
            range,
            regs,
            ..
        } => {
            entries.push(Entry::SignalRange(range.as_ref()))?;
            push_regs(*signed, regs, entries)?;
        }
        Item::Integers(_, names) => push_integers(names, entries)?,
        Item::Parameters {
            kind,
            range,
            settings,
            ..
        } => {
            entries.push(Entry::ParameterRange(range.as_ref()))?;
            push_settings(*kind, settings, entries)?;
        }
        Item::Gates { names, .. } => push_gates(names, entries)?,
        Item::Assigns(_, _, _) | Item::Always(_, _, _) => {}
        Item::Instances { instances, .. } => push_instances(instances, entries)?,
    }
    Ok(())
}

fn push_items<'a>(items: &'a [Item], entries: &mut Vec<Entry<'a>>) -> Result<(), Memory>
    ensures { OnOk result (map declaration entries.new.items
        ≡ map declaration entries.old.items ++ items_declarations (map module_item items.now)) }
{
    for item in items {
        push_item(item, entries)?;
    }
    Ok(())
}

/// The declarations of the module.
pub fn entries_of(alloc: Global, written: &Module) -> Result<Vec<Entry<'_>>, Memory>
    ensures { IfOk result (λ entries. map declaration entries.items
        ≡ declarations (circuit written.now)) }
{
    // Most items declare one name, and a head has a few.
    let mut entries = Vec::with_capacity(alloc, written.items.len().saturating_add(8))?;
    push_parameters(&written.parameters, &mut entries)?;
    push_header(&written.ports, &mut entries)?;
    push_items(&written.items, &mut entries)?;
    Ok(entries)
}
