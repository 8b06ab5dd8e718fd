//! Copies of items.

ghost use Rattle.std.specs.Prelude.{◌≡◌, IfOk, map};
ghost use Rattle.std.specs.Option.{option_map};
ghost use Rattle.rtl_tree.specs.TreeExpr.{bounds, identifier};
ghost use Rattle.rtl_tree.specs.TreeItem as tree;
ghost use Rattle.rtl_tree.specs.TreeItem.{association, drive, gate_drive, head, instantiation, module_item, net, sensitivity, valuation, variable};
ghost use Rattle.rtl_tree.specs.TreeStmt.{action, pause};
ghost use Rattle.elab_scope.specs.Names.{meanings};
ghost use Rattle.elab_renames.specs.Renames.{named, renamed_item, renamed_sensitivity, renaming};

use crate::declarations::{
    boxed_head, renamed_assignments, renamed_gates, renamed_regs, renamed_settings, renamed_wires,
};
use crate::expressions::boxed_range;
use crate::instances::{renamed_arguments, renamed_instances};
use crate::naming::{Naming, renamed_names, same_name};
use crate::processes::renamed_control;
use crate::statements::renamed_stmt;
use crate::targets::boxed_optional_delay;
use rtl_tree::tree::expr::Range;
use rtl_tree::tree::item::{
    Arguments, Assignment, EventControl, GateDrive, Instance, Item, ParameterKind, PortHead, Reg,
    Setting, Wire,
};
use rtl_tree::tree::names::Name;
use rtl_tree::tree::stmt::{Delay, Stmt};
use std::alloc::Global;
use text_ground::memory::Memory;

fn ports(
    alloc: Global,
    naming: &Naming<'_>,
    written: &PortHead,
    names: &[Name],
) -> Result<Item, Memory>
    ensures { IfOk result (λ made. module_item made ≡ renamed_item (renaming naming.now)
        (tree.Ports (head written.now) (map identifier names.now))) }
{
    let written = boxed_head(alloc, naming, written)?;
    let names = renamed_names(alloc, naming, names)?;
    Ok(Item::Ports(Box::into_inner(written), names))
}

fn wires(
    alloc: Global,
    naming: &Naming<'_>,
    at: u32,
    signed: bool,
    range: &Option<Range>,
    wires: &[Wire],
) -> Result<Item, Memory>
    ensures { IfOk result (λ made. module_item made ≡ renamed_item (renaming naming.now)
        (tree.Nets at signed (option_map bounds range.now) (map net wires.now))) }
{
    let range = boxed_range(alloc, naming, range)?;
    let wires = renamed_wires(alloc, naming, wires)?;
    Ok(Item::Wires {
        at,
        signed,
        range: Box::into_inner(range),
        wires,
    })
}

fn regs(
    alloc: Global,
    naming: &Naming<'_>,
    at: u32,
    signed: bool,
    range: &Option<Range>,
    regs: &[Reg],
) -> Result<Item, Memory>
    ensures { IfOk result (λ made. module_item made ≡ renamed_item (renaming naming.now)
        (tree.Variables at signed (option_map bounds range.now) (map variable regs.now))) }
{
    let range = boxed_range(alloc, naming, range)?;
    let regs = renamed_regs(alloc, naming, regs)?;
    Ok(Item::Regs {
        at,
        signed,
        range: Box::into_inner(range),
        regs,
    })
}

fn integers(alloc: Global, naming: &Naming<'_>, at: u32, names: &[Name]) -> Result<Item, Memory>
    ensures { IfOk result (λ made. module_item made ≡ renamed_item (renaming naming.now)
        (tree.Integers at (map identifier names.now))) }
{
    let names = renamed_names(alloc, naming, names)?;
    Ok(Item::Integers(at, names))
}

fn parameters(
    alloc: Global,
    naming: &Naming<'_>,
    at: u32,
    kind: ParameterKind,
    range: &Option<Range>,
    settings: &[Setting],
) -> Result<Item, Memory>
    ensures { IfOk result (λ made. module_item made ≡ renamed_item (renaming naming.now)
        (tree.Parameters at kind (option_map bounds range.now) (map valuation settings.now))) }
{
    let range = boxed_range(alloc, naming, range)?;
    let settings = renamed_settings(alloc, naming, settings)?;
    Ok(Item::Parameters {
        at,
        kind,
        range: Box::into_inner(range),
        settings,
    })
}

fn assigns(
    alloc: Global,
    naming: &Naming<'_>,
    at: u32,
    delay: &Option<Delay>,
    assignments: &[Assignment],
) -> Result<Item, Memory>
    ensures { IfOk result (λ made. module_item made ≡ renamed_item (renaming naming.now)
        (tree.Drives at (option_map pause delay.now) (map drive assignments.now))) }
{
    let delay = boxed_optional_delay(alloc, naming, delay)?;
    let assignments = renamed_assignments(alloc, naming, assignments)?;
    Ok(Item::Assigns(at, Box::into_inner(delay), assignments))
}

fn gates(
    alloc: Global,
    naming: &Naming<'_>,
    at: u32,
    names: &[Name],
    delay: &Option<Delay>,
    drives: &[GateDrive],
) -> Result<Item, Memory>
    ensures { IfOk result (λ made. module_item made ≡ renamed_item (renaming naming.now)
        (tree.Gates at (map identifier names.now) (option_map pause delay.now)
        (map gate_drive drives.now))) }
{
    let names = renamed_names(alloc, naming, names)?;
    let delay = boxed_optional_delay(alloc, naming, delay)?;
    let drives = renamed_gates(alloc, naming, drives)?;
    Ok(Item::Gates {
        at,
        names,
        delay: Box::into_inner(delay),
        drives,
    })
}

/// What an `always` waits for, in a box: what is held by value while more is copied is dear to prove.
fn boxed_control(
    alloc: Global,
    naming: &Naming<'_>,
    control: &EventControl,
) -> Result<Box<EventControl>, Memory>
    ensures { IfOk result (λ made. sensitivity made.value
        ≡ renamed_sensitivity (renaming naming.now) (sensitivity control.now)) }
{
    let made = renamed_control(alloc, naming, control)?;
    Ok(Box::new(alloc, made)?)
}

fn always(
    alloc: Global,
    naming: &Naming<'_>,
    at: u32,
    control: &EventControl,
    body: &Stmt,
) -> Result<Item, Memory>
    ensures { IfOk result (λ made. module_item made ≡ renamed_item (renaming naming.now)
        (tree.Always at (sensitivity control.now) (action body.now))) }
{
    let control = boxed_control(alloc, naming, control)?;
    let body = renamed_stmt(alloc, naming, body)?;
    Ok(Item::Always(at, Box::into_inner(control), body))
}

fn instances(
    alloc: Global,
    naming: &Naming<'_>,
    child: &Name,
    parameters: &Arguments,
    instances: &[Instance],
) -> Result<Item, Memory>
    ensures { IfOk result (λ made. module_item made ≡ renamed_item (renaming naming.now)
        (tree.Instances (identifier child.now) (association parameters.now)
        (map instantiation instances.now))) }
{
    let child = same_name(alloc, child)?;
    let parameters = renamed_arguments(alloc, naming, parameters)?;
    let instances = renamed_instances(alloc, naming, instances)?;
    Ok(Item::Instances {
        child,
        parameters,
        instances,
    })
}

/// The item with the component before each name of the module itself that is declared in the names.
pub fn renamed(alloc: Global, naming: &Naming<'_>, item: &Item) -> Result<Item, Memory>
    ensures { IfOk result (λ made. module_item made ≡ renamed_item
        (named (meanings naming.now.names.now) naming.now.component.now) (module_item item.now)) }
{
    match item {
        Item::Ports(head, names) => ports(alloc, naming, head, names),
        Item::Wires {
            at,
            signed,
            range,
            wires: all,
        } => wires(alloc, naming, *at, *signed, range, all),
        Item::Regs {
            at,
            signed,
            range,
            regs: all,
        } => regs(alloc, naming, *at, *signed, range, all),
        Item::Integers(at, names) => integers(alloc, naming, *at, names),
        Item::Parameters {
            at,
            kind,
            range,
            settings,
        } => parameters(alloc, naming, *at, *kind, range, settings),
        Item::Assigns(at, delay, all) => assigns(alloc, naming, *at, delay, all),
        Item::Gates {
            at,
            names,
            delay,
            drives,
        } => gates(alloc, naming, *at, names, delay, drives),
        Item::Always(at, control, body) => always(alloc, naming, *at, control, body),
        Item::Instances {
            child,
            parameters,
            instances: all,
        } => instances(alloc, naming, child, parameters, all),
    }
}
