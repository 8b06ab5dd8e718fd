//! The faults of items, and how far they go towards the limits on statements, delays and nodes of expressions.

ghost use Rattle.std.specs.Prelude.{◌≡◌, IfOk, map};
ghost use Rattle.std.specs.Option.{option_map};
ghost use Rattle.rtl_tree.specs.TreeExpr.{formula, identifier};
ghost use Rattle.rtl_tree.specs.TreeItem.{drive, gate_drive, module_item, net, sensitivity};
ghost use Rattle.rtl_tree.specs.TreeStmt.{Whole, action, pause, target};
ghost use Rattle.elab_body.specs.elab_scope.Names.{meanings};
ghost use Rattle.elab_body.specs.elab_scope.Targets.{target_faults};
ghost use Rattle.elab_body.specs.elab_scope.declared.rules.Writer.TheVariants as writer;
ghost use Rattle.elab_body.specs.elab_nodes.Totals.{assignment_count};
ghost use Rattle.elab_body.specs.Bodies.{pause_steps};
ghost use Rattle.elab_body.specs.Courses.{course};
ghost use Rattle.elab_body.specs.Events.{sensitivity_faults};
ghost use Rattle.elab_body.specs.Steps.{Nodes, faulty, passed, stepped};
ghost use Rattle.elab_parts.specs.Gates.{assignments_of, output_drives, terminal_faults};
ghost use Rattle.elab_parts.specs.Items.{always_steps, assignment_steps, drive_steps, gate_steps, item_steps, items_steps, net_steps, value_steps};

use crate::terminals::judge_terminals;
use elab_body::body::judge_body;
use elab_body::elab_scope::covers::judge_target;
use elab_body::elab_scope::names::Names;
use elab_body::elab_scope::rules::{self, Writer};
use elab_body::events::judge_control;
use elab_body::progress::Progress;
use rtl_tree::tree::expr::Expr;
use rtl_tree::tree::item::{Assignment, EventControl, GateDrive, Item, Wire};
use rtl_tree::tree::names::Name;
use rtl_tree::tree::stmt::{Delay, Lvalue, Stmt};
use std::alloc::Global;
use text_ground::memory::Memory;

/// The faults of a net that is driven: it is written whole, so no bit stands in the target twice.
#[tactic(auto, using(elab_body::proofs::Passing::passed_faulty, elab_body::proofs::Passing::passed_cut, crate::proofs::Wholes::whole_faults))]
fn driven<'a>(name: &'a Name, names: &Names, so_far: Progress<'a>) -> Progress<'a>
    ensures { course result ≡ passed (course so_far.entry)
        (faulty (target_faults writer.Continuous (meanings names.now)
        (Whole (identifier name.now)))) }
{
    match so_far.left {
        None => so_far,
        Some(_) => Progress {
            best: rules::write(
                Writer::Continuous,
                name,
                names.find(&name.text),
                so_far.best,
            ),
            left: so_far.left,
            filled: so_far.filled,
        },
    }
}

/// The nodes of a net with a value, at its name: a target that is written whole has none.
fn spend_net<'a>(name: &Name, value: &Expr, names: &Names, so_far: Progress<'a>) -> Progress<'a>
    ensures { course result ≡ stepped (course so_far.entry)
        (Nodes name.now.at (assignment_count (meanings names.now) (Whole (identifier name.now))
        (formula value.now))) }
{
    so_far.spend_expression(name.at, value, names)
}

#[tactic(auto, using(elab_body::proofs::Passing::passed_append))]
fn judge_value<'a>(
    name: &'a Name,
    value: &'a Option<Expr>,
    names: &Names,
    so_far: Progress<'a>,
) -> Progress<'a>
    ensures { course result ≡ passed (course so_far.entry)
        (value_steps (meanings names.now) (identifier name.now) (option_map formula value.now)) }
{
    match value {
        None => so_far,
        Some(value) => {
            let so_far = spend_net(name, value, names, so_far);
            driven(name, names, so_far).judge(value, names)
        }
    }
}

#[tactic(auto, using(elab_body::proofs::Passing::passed_append))]
fn judge_nets<'a>(wires: &'a [Wire], names: &Names, so_far: Progress<'a>) -> Progress<'a>
    ensures { course result ≡ passed (course so_far.entry)
        (net_steps (meanings names.now) (map net wires.now)) }
{
    let mut so_far = so_far;
    for wire in wires {
        so_far = judge_value(&wire.name, &wire.value, names, so_far);
    }
    so_far
}

fn paused<'a>(delay: &Option<Delay>, so_far: Progress<'a>) -> Progress<'a>
    ensures { course result ≡ passed (course so_far.entry)
        (pause_steps (option_map pause delay.now)) }
{
    match delay {
        Some(delay) => so_far.pause(delay.at),
        None => so_far,
    }
}

/// The faults of the target of a continuous assignment.
#[tactic(auto, using(elab_body::proofs::Passing::passed_faulty, elab_body::proofs::Passing::passed_cut))]
fn judge_written<'a>(
    alloc: Global,
    written: &'a Lvalue,
    names: &Names,
    so_far: Progress<'a>,
) -> Result<Progress<'a>, Memory>
    ensures { IfOk result (λ judged. course judged
        ≡ passed (course so_far.entry)
        (faulty (target_faults writer.Continuous (meanings names.now) (target written.now)))) }
{
    match so_far.left {
        None => Ok(so_far),
        Some(_) => {
            let judged = judge_target(alloc, Writer::Continuous, written, names, so_far.best)?;
            Ok(Progress {
                best: judged.best,
                left: so_far.left,
                filled: so_far.filled,
            })
        }
    }
}

#[tactic(auto, using(elab_body::proofs::Passing::passed_append))]
fn judge_assignment<'a>(
    alloc: Global,
    written: &'a Lvalue,
    value: &'a Expr,
    names: &Names,
    so_far: Progress<'a>,
) -> Result<Progress<'a>, Memory>
    ensures { IfOk result (λ judged. course judged
        ≡ passed (course so_far.entry)
        (assignment_steps (meanings names.now) (target written.now) (formula value.now))) }
{
    let so_far = so_far.spend_assignment(written, value, names);
    let so_far = judge_written(alloc, written, names, so_far)?;
    Ok(so_far.judge(value, names))
}

#[tactic(auto, using(elab_body::proofs::Passing::passed_append))]
fn judge_drives<'a>(
    alloc: Global,
    delay: &Option<Delay>,
    assignments: &'a [Assignment],
    names: &Names,
    so_far: Progress<'a>,
) -> Result<Progress<'a>, Memory>
    ensures { IfOk result (λ judged. course judged
        ≡ passed (course so_far.entry)
        (drive_steps (meanings names.now) (option_map pause delay.now)
        (map drive assignments.now))) }
{
    let mut so_far = so_far;
    for assignment in assignments {
        so_far = judge_assignment(
            alloc,
            &assignment.target,
            &assignment.value,
            names,
            paused(delay, so_far),
        )?;
    }
    Ok(so_far)
}

/// The assignments of a value to outputs.
#[tactic(auto, using(elab_body::proofs::Passing::passed_append))]
fn judge_outputs<'a>(
    alloc: Global,
    delay: &Option<Delay>,
    value: &'a Expr,
    outputs: &'a [Lvalue],
    names: &Names,
    so_far: Progress<'a>,
) -> Result<Progress<'a>, Memory>
    ensures { IfOk result (λ judged. course judged
        ≡ passed (course so_far.entry)
        (drive_steps (meanings names.now) (option_map pause delay.now)
        (output_drives (formula value.now) (map target outputs.now)))) }
{
    let mut so_far = so_far;
    for output in outputs {
        so_far = judge_assignment(alloc, output, value, names, paused(delay, so_far))?;
    }
    Ok(so_far)
}

/// Gates as assignments, whatever their terminals have.
#[tactic(auto, using(elab_body::proofs::Passing::passed_append))]
fn judge_all_outputs<'a>(
    alloc: Global,
    delay: &Option<Delay>,
    drives: &'a [GateDrive],
    names: &Names,
    so_far: Progress<'a>,
) -> Result<Progress<'a>, Memory>
    ensures { IfOk result (λ judged. course judged
        ≡ passed (course so_far.entry)
        (drive_steps (meanings names.now) (option_map pause delay.now)
        (assignments_of (map gate_drive drives.now)))) }
{
    let mut so_far = so_far;
    for drive in drives {
        so_far = judge_outputs(alloc, delay, &drive.value, &drive.outputs, names, so_far)?;
    }
    Ok(so_far)
}

/// The terminals of gates have one bit each.
#[tactic(auto, using(elab_body::proofs::Passing::passed_faulty, elab_body::proofs::Passing::passed_cut))]
fn judge_bits<'a>(drives: &'a [GateDrive], names: &Names, so_far: Progress<'a>) -> Progress<'a>
    ensures { course result ≡ passed (course so_far.entry)
        (faulty (terminal_faults (meanings names.now) (map gate_drive drives.now))) }
{
    match so_far.left {
        None => so_far,
        Some(_) => Progress {
            best: judge_terminals(drives, names, so_far.best),
            left: so_far.left,
            filled: so_far.filled,
        },
    }
}

#[tactic(auto, using(elab_body::proofs::Passing::passed_append))]
fn judge_gates<'a>(
    alloc: Global,
    delay: &Option<Delay>,
    drives: &'a [GateDrive],
    names: &Names,
    so_far: Progress<'a>,
) -> Result<Progress<'a>, Memory>
    ensures { IfOk result (λ judged. course judged
        ≡ passed (course so_far.entry)
        (gate_steps (meanings names.now) (option_map pause delay.now)
        (map gate_drive drives.now))) }
{
    judge_all_outputs(
        alloc,
        delay,
        drives,
        names,
        judge_bits(drives, names, so_far),
    )
}

/// The faults of a sensitivity list.
#[tactic(auto, using(elab_body::proofs::Passing::passed_faulty, elab_body::proofs::Passing::passed_cut))]
fn judge_list<'a>(control: &'a EventControl, names: &Names, so_far: Progress<'a>) -> Progress<'a>
    ensures { course result ≡ passed (course so_far.entry)
        (faulty (sensitivity_faults (meanings names.now) (sensitivity control.now))) }
{
    match so_far.left {
        None => so_far,
        Some(_) => Progress {
            best: judge_control(control, names, so_far.best),
            left: so_far.left,
            filled: so_far.filled,
        },
    }
}

#[tactic(auto, using(elab_body::proofs::Passing::passed_append))]
fn judge_always<'a>(
    at: u32,
    control: &'a EventControl,
    body: &'a Stmt,
    names: &mut Names,
    so_far: Progress<'a>,
) -> Progress<'a>
    ensures told { course result ≡ passed (course so_far.entry)
        (always_steps (meanings names.old) at (sensitivity control.now) (action body.now)) }
    ensures same { meanings names.new ≡ meanings names.old }
{
    let so_far = so_far.spend_listing(at, control, names);
    let so_far = judge_list(control, names, so_far);
    judge_body(body, names, so_far)
}

/// An item, after what came before it. It takes memory where bits may stand in a target twice.
pub fn judge_item<'a>(
    alloc: Global,
    item: &'a Item,
    names: &mut Names,
    so_far: Progress<'a>,
) -> Result<Progress<'a>, Memory>
    ensures told { IfOk result (λ judged. course judged
        ≡ passed (course so_far.entry) (item_steps (meanings names.old) (module_item item.now))) }
    ensures same { meanings names.new ≡ meanings names.old }
{
    match item {
        Item::Wires { wires, .. } => Ok(judge_nets(wires, names, so_far)),
        Item::Assigns(_, delay, assignments) => {
            let judged = judge_drives(alloc, delay, assignments, names, so_far)?;
            Ok(judged)
        }
        Item::Gates { delay, drives, .. } => {
            let judged = judge_gates(alloc, delay, drives, names, so_far)?;
            Ok(judged)
        }
        Item::Always(at, control, body) => Ok(judge_always(*at, control, body, names, so_far)),
        Item::Ports(_, _)
        | Item::Regs { .. }
        | Item::Integers(_, _)
        | Item::Parameters { .. }
        | Item::Instances { .. } => Ok(so_far),
    }
}

/// Items in a row.
#[tactic(auto, using(elab_body::proofs::Passing::passed_append))]
pub fn judge_items<'a>(
    alloc: Global,
    items: &'a [Item],
    names: &mut Names,
    so_far: Progress<'a>,
) -> Result<Progress<'a>, Memory>
    ensures told { IfOk result (λ judged. course judged
        ≡ passed (course so_far.entry)
        (items_steps (meanings names.old) (map module_item items.now))) }
    ensures same { meanings names.new ≡ meanings names.old }
{
    let mut so_far = so_far;
    for item in items {
        so_far = judge_item(alloc, item, names, so_far)?;
    }
    Ok(so_far)
}
