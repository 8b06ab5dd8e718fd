//! The processes of items in the design.

ghost use Rattle.std.specs.Prelude.{◌≡◌, ◌≤◌, ◌∷◌, [], ◌++◌, IfOk, OnOk, map};
ghost use Rattle.std.specs.Option.{option_map};
ghost use Rattle.rtl_flat.specs.Process.{body_of, doing, listing, piece, task};
ghost use Rattle.rtl_flat.specs.Process.{action as made_action};
ghost use Rattle.rtl_tree.specs.TreeExpr.{formula, identifier};
ghost use Rattle.rtl_tree.specs.TreeItem.{drive, gate_drive, module_item, net, sensitivity};
ghost use Rattle.rtl_tree.specs.TreeStmt.{Whole, action, target};
ghost use Rattle.elab_body.specs.elab_scope.Names.{meanings};
ghost use Rattle.elab_body.specs.elab_scope.Targets.{assigned_context, pieces_of};
ghost use Rattle.elab_body.specs.elab_scope.Trees.{spot_in};
ghost use Rattle.elab_parts.specs.Gates.{assignments_of, output_drives};
ghost use Rattle.elab_parts.specs.Tasks.{always_task, assigned_task, drive_tasks, item_tasks, net_tasks, value_tasks, waited};

use elab_body::acts::acts_of;
use elab_body::elab_scope::context::Context;
use elab_body::elab_scope::names::Names;
use elab_body::elab_scope::own::{breadth, name_breadth, sign};
use elab_body::elab_scope::pieces::target_of;
use elab_body::elab_scope::size::{Site, signal_of, size};
use elab_body::elab_scope::targets::assigned_context;
use elab_body::events::{is_clocked, listed};
use rtl_flat::act::{Act, Does, Listed, Process, Target, TargetPart};
use rtl_flat::expr::Select;
use rtl_tree::tree::expr::Expr;
use rtl_tree::tree::item::{Assignment, EventControl, GateDrive, Item, Wire};
use rtl_tree::tree::names::Name;
use rtl_tree::tree::stmt::{Lvalue, Stmt};
use text_ground::memory::Memory;
use text_ground::text::Spot;

fn spot_at(site: Site, at: u32) -> Spot
    ensures { result ≡ spot_in site.file at }
{
    Spot {
        file: site.file,
        at,
    }
}

/// A net that is driven whole.
fn whole(name: &Name, names: &Names, site: Site) -> Result<Target, Memory>
    ensures { IfOk result (λ made. map piece made.parts.items
        ≡ pieces_of site.file site.base (meanings names.now) (Whole (identifier name.now))) }
{
    let mut parts = Vec::new(site.alloc);
    parts.push(TargetPart {
        signal: signal_of(site.base, names.find(&name.text)),
        select: Select::Whole,
        spot: spot_at(site, name.at),
    })?;
    Ok(Target { parts })
}

/// The context of a value that drives a net whole.
fn whole_context(name: &Name, value: &Expr, names: &Names) -> Context
    ensures exact { result ≡ assigned_context (meanings names.now) (formula value.now)
        (Whole (identifier name.now)) }
    ensures not_empty { 1 ≤ result.width }
    ensures at_most { result.width ≤ 128 }
{
    Context {
        width: name_breadth(names.find(&name.text))
            .wider(breadth(value, names))
            .bits(),
        signed: sign(value, names),
    }
}

/// The assignment of a net that has a value.
fn net_process(
    name: &Name,
    value: &Expr,
    names: &Names,
    site: Site,
    instance: u32,
) -> Result<Process, Memory>
    ensures { IfOk result (λ made. task made
        ≡ assigned_task site.file site.base instance (meanings names.now)
        (Whole (identifier name.now)) (formula value.now)) }
{
    let does = Does::Assign {
        target: whole(name, names, site)?,
        value: size(value, whole_context(name, value, names), names, site)?,
    };
    Ok(Process {
        does,
        instance,
        spot: spot_at(site, name.at),
    })
}

/// A continuous assignment.
fn drive_process(
    written: &Lvalue,
    value: &Expr,
    names: &Names,
    site: Site,
    instance: u32,
) -> Result<Process, Memory>
    ensures { IfOk result (λ made. task made
        ≡ assigned_task site.file site.base instance (meanings names.now) (target written.now)
        (formula value.now)) }
{
    let does = Does::Assign {
        target: target_of(written, names, site)?,
        value: size(value, assigned_context(value, written, names), names, site)?,
    };
    Ok(Process {
        does,
        instance,
        spot: spot_at(site, written.place()),
    })
}

/// What an `always` does: one whose list has an edge waits for its events.
fn does_of(clocked: bool, list: Listed, body: Vec<Act>) -> Does
    ensures { doing result ≡ waited clocked (listing list) (body_of (map made_action body.items)) }
{
    match list {
        Listed::Items(events) if clocked => Does::Edge { events, body },
        list => Does::Comb { list, body },
    }
}

fn always_process(
    at: u32,
    control: &EventControl,
    body: &Stmt,
    names: &mut Names,
    site: Site,
    instance: u32,
) -> Result<Process, Memory>
    ensures made { IfOk result (λ made. task made
        ≡ always_task site.file site.base instance (meanings names.old) at (sensitivity control.now)
        (action body.now)) }
    ensures same { meanings names.new ≡ meanings names.old }
{
    let list = listed(control, names, site)?;
    let acts = acts_of(body, names, site)?;
    Ok(Process {
        does: does_of(is_clocked(control), list, acts),
        instance,
        spot: spot_at(site, at),
    })
}

fn push_value(
    wire: &Wire,
    names: &Names,
    site: Site,
    instance: u32,
    processes: &mut Vec<Process>,
) -> Result<(), Memory>
    ensures { OnOk result (map task processes.new.items
        ≡ map task processes.old.items
        ++ value_tasks site.file site.base instance (meanings names.now) (identifier wire.now.name)
        (option_map formula wire.now.value)) }
{
    if let Some(value) = &wire.value {
        processes.push(net_process(&wire.name, value, names, site, instance)?)?;
    }
    Ok(())
}

fn push_nets(
    wires: &[Wire],
    names: &Names,
    site: Site,
    instance: u32,
    processes: &mut Vec<Process>,
) -> Result<(), Memory>
    ensures { OnOk result (map task processes.new.items
        ≡ map task processes.old.items
        ++ net_tasks site.file site.base instance (meanings names.now) (map net wires.now)) }
{
    for wire in wires {
        push_value(wire, names, site, instance, processes)?;
    }
    Ok(())
}

fn push_drives(
    assignments: &[Assignment],
    names: &Names,
    site: Site,
    instance: u32,
    processes: &mut Vec<Process>,
) -> Result<(), Memory>
    ensures { OnOk result (map task processes.new.items
        ≡ map task processes.old.items
        ++ drive_tasks site.file site.base instance (meanings names.now)
        (map drive assignments.now)) }
{
    for assignment in assignments {
        processes.push(drive_process(
            &assignment.target,
            &assignment.value,
            names,
            site,
            instance,
        )?)?;
    }
    Ok(())
}

/// The assignments of a value to outputs.
fn push_outputs(
    value: &Expr,
    outputs: &[Lvalue],
    names: &Names,
    site: Site,
    instance: u32,
    processes: &mut Vec<Process>,
) -> Result<(), Memory>
    ensures { OnOk result (map task processes.new.items
        ≡ map task processes.old.items
        ++ drive_tasks site.file site.base instance (meanings names.now)
        (output_drives (formula value.now) (map target outputs.now))) }
{
    for output in outputs {
        processes.push(drive_process(output, value, names, site, instance)?)?;
    }
    Ok(())
}

fn push_gates(
    drives: &[GateDrive],
    names: &Names,
    site: Site,
    instance: u32,
    processes: &mut Vec<Process>,
) -> Result<(), Memory>
    ensures { OnOk result (map task processes.new.items
        ≡ map task processes.old.items
        ++ drive_tasks site.file site.base instance (meanings names.now)
        (assignments_of (map gate_drive drives.now))) }
{
    for drive in drives {
        push_outputs(
            &drive.value,
            &drive.outputs,
            names,
            site,
            instance,
            processes,
        )?;
    }
    Ok(())
}

/// The processes of an item of an instance, behind others. They are there for every item; those of one without faults
/// are processes of a design.
pub fn push_processes(
    item: &Item,
    names: &mut Names,
    site: Site,
    instance: u32,
    processes: &mut Vec<Process>,
) -> Result<(), Memory>
    ensures made { OnOk result (map task processes.new.items
        ≡ map task processes.old.items
        ++ item_tasks site.file site.base instance (meanings names.old) (module_item item.now)) }
    ensures same { meanings names.new ≡ meanings names.old }
{
    match item {
        Item::Wires { wires, .. } => push_nets(wires, names, site, instance, processes)?,
        Item::Assigns(_, _, assignments) => {
            push_drives(assignments, names, site, instance, processes)?
        }
        Item::Gates { drives, .. } => push_gates(drives, names, site, instance, processes)?,
        Item::Always(at, control, body) => processes.push(always_process(
            *at, control, body, names, site, instance,
        )?)?,
        Item::Ports(_, _)
        | Item::Regs { .. }
        | Item::Integers(_, _)
        | Item::Parameters { .. }
        | Item::Instances { .. } => {}
    }
    Ok(())
}
