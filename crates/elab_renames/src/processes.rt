// Copies of what a process waits for.

ghost use Rattle.std.specs.Prelude.{◌≡◌, IfOk, map};
ghost use Rattle.rtl_tree.specs.TreeExpr.{formula, identifier};
ghost use Rattle.rtl_tree.specs.TreeItem as tree;
ghost use Rattle.rtl_tree.specs.TreeItem.{happening, sensitivity};
ghost use Rattle.elab_renames.specs.Renames.{renamed_happening, renamed_sensitivity, renaming};

use crate::expressions::{boxed_expr, renamed_expr};
use crate::naming::{Naming, renamed_name};
use rtl_tree::tree::expr::Expr;
use rtl_tree::tree::item::{Event, EventControl, EventEdge};
use rtl_tree::tree::names::Name;
use std::alloc::Global;
use text_ground::memory::Memory;

fn edge(
    alloc: Global,
    naming: &Naming<'_>,
    edge: EventEdge,
    at: u32,
    name: &Name,
) -> Result<Event, Memory>
    ensures { IfOk result (λ made. happening made
        ≡ renamed_happening (renaming naming.now) (tree.Edge edge at (identifier name.now))) }
{
    let name = renamed_name(alloc, naming, name)?;
    Ok(Event::Edge(edge, at, name))
}

fn change(alloc: Global, naming: &Naming<'_>, name: &Name) -> Result<Event, Memory>
    ensures { IfOk result (λ made. happening made
        ≡ renamed_happening (renaming naming.now) (tree.Change (identifier name.now))) }
{
    let name = renamed_name(alloc, naming, name)?;
    Ok(Event::Whole(name))
}

fn change_of_bit(
    alloc: Global,
    naming: &Naming<'_>,
    name: &Name,
    index: &Expr,
) -> Result<Event, Memory>
    ensures { IfOk result (λ made. happening made ≡ renamed_happening (renaming naming.now)
        (tree.ChangeBit (identifier name.now) (formula index.now))) }
{
    let name = renamed_name(alloc, naming, name)?;
    let index = renamed_expr(alloc, naming, index)?;
    Ok(Event::Bit(name, index))
}

fn change_of_part(
    alloc: Global,
    naming: &Naming<'_>,
    name: &Name,
    msb: &Expr,
    lsb: &Expr,
) -> Result<Event, Memory>
    ensures { IfOk result (λ made. happening made ≡ renamed_happening (renaming naming.now)
        (tree.ChangePart (identifier name.now) (formula msb.now) (formula lsb.now))) }
{
    let name = renamed_name(alloc, naming, name)?;
    let msb = boxed_expr(alloc, naming, msb)?;
    let lsb = boxed_expr(alloc, naming, lsb)?;
    Ok(Event::Part(name, Box::into_inner(msb), Box::into_inner(lsb)))
}

fn renamed_event(alloc: Global, naming: &Naming<'_>, event: &Event) -> Result<Event, Memory>
    ensures { IfOk result (λ made. happening made
        ≡ renamed_happening (renaming naming.now) (happening event.now)) }
{
    match event {
        Event::Edge(kind, at, name) => edge(alloc, naming, *kind, *at, name),
        Event::Whole(name) => change(alloc, naming, name),
        Event::Bit(name, index) => change_of_bit(alloc, naming, name, index),
        Event::Part(name, msb, lsb) => change_of_part(alloc, naming, name, msb, lsb),
    }
}

fn renamed_events(
    alloc: Global,
    naming: &Naming<'_>,
    events: &[Event],
) -> Result<Vec<Event>, Memory>
    ensures { IfOk result (λ made. map happening made.items
        ≡ map (renamed_happening (renaming naming.now)) (map happening events.now)) }
{
    let mut made = Vec::with_capacity(alloc, events.len())?;
    for event in events {
        made.push(renamed_event(alloc, naming, event)?)?;
    }
    Ok(made)
}

pub(crate) fn renamed_control(
    alloc: Global,
    naming: &Naming<'_>,
    control: &EventControl,
) -> Result<EventControl, Memory>
    ensures { IfOk result (λ made. sensitivity made
        ≡ renamed_sensitivity (renaming naming.now) (sensitivity control.now)) }
{
    match control {
        EventControl::Star => Ok(EventControl::Star),
        EventControl::StarInParens => Ok(EventControl::StarInParens),
        EventControl::Events(events) => {
            let events = renamed_events(alloc, naming, events)?;
            Ok(EventControl::Events(events))
        }
    }
}
