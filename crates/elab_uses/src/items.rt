//! The expressions of items as they are used.

ghost use Rattle.std.specs.Prelude.{◌≡◌, ◌++◌, OnOk, map};
ghost use Rattle.std.specs.Option.{option_map};
ghost use Rattle.rtl_tree.specs.TreeExpr.{formula, identifier};
ghost use Rattle.rtl_tree.specs.TreeItem.{drive, gate_drive, happening, module_item, net, sensitivity};
ghost use Rattle.rtl_tree.specs.TreeStmt.{action, target};
ghost use Rattle.elab_standard.specs.Scopes.{scopes as scopes_of};
ghost use Rattle.elab_uses.specs.Bodies.{body_uses, notes_in};
ghost use Rattle.elab_uses.specs.Items.{drive_uses, gate_use, gate_uses, happening_uses, item_uses, list_uses, net_uses, output_uses, sensitivity_uses, value_uses};

use crate::bodies::push_body;
use crate::targets::{push_assignment, push_ends, push_index, push_target, push_value};
use elab_body::elab_scope::own::name_breadth;
use elab_standard::scopes::Scopes;
use elab_standard::uses::Home;
use rtl_flat::note::Note;
use rtl_tree::tree::expr::Expr;
use rtl_tree::tree::item::{Assignment, Event, EventControl, GateDrive, Item, Wire};
use rtl_tree::tree::names::Name;
use rtl_tree::tree::stmt::{Lvalue, Stmt};
use text_ground::memory::Memory;

/// The notes of a net that is declared.
fn push_net(
    name: &Name,
    value: &Option<Expr>,
    home: Home,
    scopes: &Scopes,
    made: &mut Vec<Note>,
) -> Result<(), Memory>
    ensures { OnOk result (made.new.items ≡ made.old.items
        ++ notes_in home (value_uses (scopes_of scopes.now) (identifier name.now)
        (option_map formula value.now))) }
{
    match value {
        None => Ok(()),
        Some(value) => {
            let wanted = name_breadth(scopes.names.find(&name.text)).bits();
            push_value(value, wanted, home, scopes, made)
        }
    }
}

fn push_nets(
    wires: &[Wire],
    home: Home,
    scopes: &Scopes,
    made: &mut Vec<Note>,
) -> Result<(), Memory>
    ensures { OnOk result (made.new.items ≡ made.old.items
        ++ notes_in home (net_uses (scopes_of scopes.now) (map net wires.now))) }
{
    for wire in wires {
        push_net(&wire.name, &wire.value, home, scopes, made)?;
    }
    Ok(())
}

fn push_drives(
    assignments: &[Assignment],
    home: Home,
    scopes: &Scopes,
    made: &mut Vec<Note>,
) -> Result<(), Memory>
    ensures { OnOk result (made.new.items ≡ made.old.items
        ++ notes_in home (drive_uses (scopes_of scopes.now) (map drive assignments.now))) }
{
    for assignment in assignments {
        push_assignment(&assignment.target, &assignment.value, home, scopes, made)?;
    }
    Ok(())
}

fn push_outputs(
    outputs: &[Lvalue],
    home: Home,
    scopes: &Scopes,
    made: &mut Vec<Note>,
) -> Result<(), Memory>
    ensures { OnOk result (made.new.items ≡ made.old.items
        ++ notes_in home (output_uses (scopes_of scopes.now) (map target outputs.now))) }
{
    for output in outputs {
        push_target(output, home, scopes, made)?;
    }
    Ok(())
}

/// The notes of what a gate drives.
fn push_gate(
    drive: &GateDrive,
    home: Home,
    scopes: &Scopes,
    made: &mut Vec<Note>,
) -> Result<(), Memory>
    ensures { OnOk result (made.new.items ≡ made.old.items
        ++ notes_in home (gate_use (scopes_of scopes.now) (gate_drive drive.now))) }
{
    push_outputs(&drive.outputs, home, scopes, made)?;
    push_value(&drive.value, 1, home, scopes, made)
}

fn push_gates(
    drives: &[GateDrive],
    home: Home,
    scopes: &Scopes,
    made: &mut Vec<Note>,
) -> Result<(), Memory>
    ensures { OnOk result (made.new.items ≡ made.old.items
        ++ notes_in home (gate_uses (scopes_of scopes.now) (map gate_drive drives.now))) }
{
    for drive in drives {
        push_gate(drive, home, scopes, made)?;
    }
    Ok(())
}

/// The notes of an event that a process waits for.
fn push_event(
    event: &Event,
    home: Home,
    scopes: &Scopes,
    made: &mut Vec<Note>,
) -> Result<(), Memory>
    ensures { OnOk result (made.new.items ≡ made.old.items
        ++ notes_in home (happening_uses (scopes_of scopes.now) (happening event.now))) }
{
    match event {
        Event::Edge(_, _, _) | Event::Whole(_) => Ok(()),
        Event::Bit(_, index) => push_index(index, home, scopes, made),
        Event::Part(_, msb, lsb) => push_ends(msb, lsb, home, scopes, made),
    }
}

fn push_events(
    events: &[Event],
    home: Home,
    scopes: &Scopes,
    made: &mut Vec<Note>,
) -> Result<(), Memory>
    ensures { OnOk result (made.new.items ≡ made.old.items
        ++ notes_in home (list_uses (scopes_of scopes.now) (map happening events.now))) }
{
    for event in events {
        push_event(event, home, scopes, made)?;
    }
    Ok(())
}

/// The notes of a sensitivity list.
fn push_control(
    control: &EventControl,
    home: Home,
    scopes: &Scopes,
    made: &mut Vec<Note>,
) -> Result<(), Memory>
    ensures { OnOk result (made.new.items ≡ made.old.items
        ++ notes_in home (sensitivity_uses (scopes_of scopes.now) (sensitivity control.now))) }
{
    match control {
        EventControl::Star | EventControl::StarInParens => Ok(()),
        EventControl::Events(events) => push_events(events, home, scopes, made),
    }
}

/// The notes of an `always`.
fn push_always(
    control: &EventControl,
    body: &Stmt,
    home: Home,
    scopes: &mut Scopes,
    made: &mut Vec<Note>,
) -> Result<(), Memory>
    ensures made { let s = scopes_of scopes.old in
        OnOk result (made.new.items ≡ made.old.items
        ++ notes_in home (sensitivity_uses s (sensitivity control.now)
        ++ body_uses (action body.now) s)) }
    ensures same { scopes_of scopes.new ≡ scopes_of scopes.old }
{
    push_control(control, home, scopes, made)?;
    push_body(body, home, scopes, made)
}

/// Adds the notes of an item of an instance: of each expression that its part of the design is made of, in each turn of a
/// loop. Declarations and instances have none here.
///
/// The only error is want of memory.
#[tactic(auto, unfolding(crate::specs::Items::item_uses))]
pub fn push_item(
    home: Home,
    scopes: &mut Scopes,
    item: &Item,
    made: &mut Vec<Note>,
) -> Result<(), Memory>
    ensures notes { OnOk result (made.new.items ≡ made.old.items
        ++ notes_in home (item_uses (scopes_of scopes.old) (module_item item.now))) }
    ensures same { scopes_of scopes.new ≡ scopes_of scopes.old }
{
    match item {
        Item::Wires { wires, .. } => push_nets(wires, home, scopes, made),
        Item::Assigns(_, _, assignments) => push_drives(assignments, home, scopes, made),
        Item::Gates { drives, .. } => push_gates(drives, home, scopes, made),
        Item::Always(_, control, body) => push_always(control, body, home, scopes, made),
        Item::Ports(_, _)
        | Item::Regs { .. }
        | Item::Integers(_, _)
        | Item::Parameters { .. }
        | Item::Instances { .. } => Ok(()),
    }
}
