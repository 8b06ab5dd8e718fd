//! Copies of a module's head.

ghost use Rattle.std.specs.Prelude.{◌≡◌, IfOk, map};
ghost use Rattle.std.specs.Option.{option_map};
ghost use Rattle.rtl_tree.specs.TreeExpr.{bounds, formula, identifier};
ghost use Rattle.rtl_tree.specs.TreeItem.{head, module_item};
ghost use Rattle.rtl_tree.specs.TreeModule as tree;
ghost use Rattle.rtl_tree.specs.TreeModule.{circuit, header, header_parameter, header_port, heading};
ghost use Rattle.elab_renames.specs.Modules as modules;

use crate::expressions::{optional_range, renamed_expr};
use crate::naming::{Naming, same_name};
use elab_scope::names::Names;
use rtl_tree::tree::expr::{Expr, Range};
use rtl_tree::tree::item::{Item, PortHead};
use rtl_tree::tree::modules::{HeadParameter, HeadPort, Module, ParameterHead, PortList};
use rtl_tree::tree::names::Name;
use std::alloc::Global;
use text_ground::memory::Memory;
use text_ground::text::Text;

/// The expression under the same names: none is in scope that would be renamed.
#[tactic(auto, using(crate::proofs::Unchanged::unnamed_formula))]
fn same_expr(alloc: Global, e: &Expr) -> Result<Expr, Memory>
    ensures { IfOk result (λ made. formula made ≡ formula e.now) }
{
    let names = Names::new(alloc);
    let component = Text::from_vec(Vec::new(alloc));
    let naming = Naming {
        names: &names,
        component: &component,
    };
    renamed_expr(alloc, &naming, e)
}

/// A range, where one is written.
#[tactic(auto, using(crate::proofs::Unchanged::unnamed_range))]
fn same_range(alloc: Global, range: &Option<Range>) -> Result<Option<Range>, Memory>
    ensures { IfOk result (λ made. option_map bounds made ≡ option_map bounds range.now) }
{
    let names = Names::new(alloc);
    let component = Text::from_vec(Vec::new(alloc));
    let naming = Naming {
        names: &names,
        component: &component,
    };
    optional_range(alloc, &naming, range)
}

fn same_heading(alloc: Global, written: &ParameterHead) -> Result<ParameterHead, Memory>
    ensures { IfOk result (λ made. heading made ≡ heading written.now) }
{
    let range = same_range(alloc, &written.range)?;
    Ok(ParameterHead {
        at: written.at,
        range,
    })
}

/// What stands before a parameter, in a box: what is held by value while more is copied is dear to prove.
fn boxed_heading(
    alloc: Global,
    written: &Option<ParameterHead>,
) -> Result<Box<Option<ParameterHead>>, Memory>
    ensures { IfOk result (λ made. option_map heading made.value ≡ option_map heading written.now) }
{
    let made = match written {
        None => None,
        Some(written) => Some(same_heading(alloc, written)?),
    };
    Ok(Box::new(alloc, made)?)
}

fn same_parameter(alloc: Global, parameter: &HeadParameter) -> Result<HeadParameter, Memory>
    ensures { IfOk result (λ made. header_parameter made ≡ header_parameter parameter.now) }
{
    let head = boxed_heading(alloc, &parameter.head)?;
    let name = same_name(alloc, &parameter.name)?;
    let value = same_expr(alloc, &parameter.value)?;
    Ok(HeadParameter {
        head: Box::into_inner(head),
        name,
        value,
    })
}

fn same_parameters(
    alloc: Global,
    parameters: &[HeadParameter],
) -> Result<Vec<HeadParameter>, Memory>
    ensures { IfOk result (λ made. map header_parameter made.items
        ≡ map header_parameter parameters.now) }
{
    let mut made = Vec::with_capacity(alloc, parameters.len())?;
    for parameter in parameters {
        made.push(same_parameter(alloc, parameter)?)?;
    }
    Ok(made)
}

/// What stands before a port, where it is written.
fn same_head(alloc: Global, written: &Option<PortHead>) -> Result<Option<PortHead>, Memory>
    ensures { IfOk result (λ made. option_map head made ≡ option_map head written.now) }
{
    match written {
        None => Ok(None),
        Some(written) => Ok(Some(PortHead {
            at: written.at,
            direction: written.direction,
            kind: written.kind,
            signed: written.signed,
            range: same_range(alloc, &written.range)?,
        })),
    }
}

fn same_port(alloc: Global, port: &HeadPort) -> Result<HeadPort, Memory>
    ensures { IfOk result (λ made. header_port made ≡ header_port port.now) }
{
    let name = same_name(alloc, &port.name)?;
    let head = same_head(alloc, &port.head)?;
    Ok(HeadPort { head, name })
}

/// Ports that the head declares.
fn declared(alloc: Global, ports: &[HeadPort]) -> Result<PortList, Memory>
    ensures { IfOk result (λ made. header made ≡ tree.Declared (map header_port ports.now)) }
{
    let mut made = Vec::with_capacity(alloc, ports.len())?;
    for port in ports {
        made.push(same_port(alloc, port)?)?;
    }
    Ok(PortList::Declared(made))
}

/// Ports that items declare.
fn named(alloc: Global, names: &[Name]) -> Result<PortList, Memory>
    ensures { IfOk result (λ made. header made ≡ tree.Named (map identifier names.now)) }
{
    let mut made = Vec::with_capacity(alloc, names.len())?;
    for name in names {
        made.push(same_name(alloc, name)?)?;
    }
    Ok(PortList::Named(made))
}

fn same_ports(alloc: Global, ports: &PortList) -> Result<PortList, Memory>
    ensures { IfOk result (λ made. header made ≡ header ports.now) }
{
    match ports {
        PortList::Absent => Ok(PortList::Absent),
        PortList::Empty => Ok(PortList::Empty),
        PortList::Declared(ports) => declared(alloc, ports),
        PortList::Named(names) => named(alloc, names),
    }
}

/// A copy of a module with these items in place of its own and of its constructs.
pub fn with_items(alloc: Global, written: &Module, items: Vec<Item>) -> Result<Module, Memory>
    ensures { IfOk result (λ made. circuit made
        ≡ modules.with_items (circuit written.now) (map module_item items.items)) }
{
    let name = same_name(alloc, &written.name)?;
    let parameters = same_parameters(alloc, &written.parameters)?;
    let dropped = Vec::from_slice(alloc, &written.dropped)?;
    let ports = same_ports(alloc, &written.ports)?;
    Ok(Module {
        at: written.at,
        name,
        parameters,
        ports,
        items,
        constructs: Vec::new(alloc),
        dropped,
    })
}
