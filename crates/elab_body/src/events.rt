//! Sensitivity lists: their faults, and what they are in the design.

ghost use Rattle.std.specs.Prelude.{◌≡◌, IfOk, map};
ghost use Rattle.std.specs.List.{list_any};
ghost use Rattle.std.specs.Option.{option_map};
ghost use Rattle.rtl_flat.specs.Process.{listing, watched};
ghost use Rattle.rtl_tree.specs.TreeExpr.{identifier};
ghost use Rattle.rtl_tree.specs.TreeItem.{happening, sensitivity};
ghost use Rattle.elab_nodes.specs.elab_scope.Faults.{after, refusal};
ghost use Rattle.elab_nodes.specs.elab_scope.Names.{meanings};
ghost use Rattle.elab_body.specs.Events.{edge_faults, edge_of_event, event_faults, events_faults, is_clocked_by, is_edge_event, listing_of, sensitivity_faults, watch_faults, watched_of};

use elab_nodes::elab_scope::fault::{Cause, Fault};
use elab_nodes::elab_scope::judge::{judge, judge_constant};
use elab_nodes::elab_scope::known::Known;
use elab_nodes::elab_scope::names::Names;
use elab_nodes::elab_scope::size::{Site, field_in, signal_of};
use elab_nodes::elab_scope::{pieces, rules};
use rtl_bits::Edge;
use rtl_const::evaluate::constant;
use rtl_flat::act::{EventItem, Listed};
use rtl_flat::expr::Select;
use rtl_tree::tree::item::{Event, EventControl, EventEdge};
use rtl_tree::tree::names::Name;
use text_ground::memory::Memory;
use text_ground::text::Spot;

/// An event is a change of a signal.
fn watch<'a>(name: &'a Name, known: Option<Known>, best: Option<Fault<'a>>) -> Option<Fault<'a>>
    ensures { option_map refusal result
        ≡ after (option_map refusal best.entry) (watch_faults (identifier name.now) known) }
{
    let cause = match known {
        None => Cause::Undeclared(&name.text),
        Some(Known::Signal { .. }) => return best,
        Some(Known::Parameter { .. }) | Some(Known::Integer(_)) => {
            Cause::NotAssignable(&name.text)
        }
    };
    Fault::keep(best, Fault { at: name.at, cause })
}

/// An edge is one of a single bit.
fn edge<'a>(at: u32, known: Option<Known>, best: Option<Fault<'a>>) -> Option<Fault<'a>>
    ensures { option_map refusal result
        ≡ after (option_map refusal best.entry) (edge_faults at known) }
{
    match known {
        Some(
            Known::Signal {
                shape: Some(shape),
                ..
            },
        ) if shape.width != 1 => {
            let cause = Cause::Width;
            Fault::keep(best, Fault { at, cause })
        }
        _ => best,
    }
}

/// The faults of an event, after `best`.
#[tactic(auto, using(crate::proofs::Borrowed::after_append))]
fn judge_event<'a>(event: &'a Event, names: &Names, best: Option<Fault<'a>>) -> Option<Fault<'a>>
    ensures { option_map refusal result
        ≡ after (option_map refusal best.entry)
        (event_faults (meanings names.now) (happening event.now)) }
{
    match event {
        Event::Edge(_, at, name) => {
            let known = names.find(&name.text);
            edge(*at, known, watch(name, known, best))
        }
        Event::Whole(name) => watch(name, names.find(&name.text), best),
        Event::Bit(name, index) => {
            let known = names.find(&name.text);
            let best = watch(name, known, best);
            let best = rules::range(name, known, best);
            judge(index, names, best).best
        }
        Event::Part(name, msb, lsb) => {
            let known = names.find(&name.text);
            let best = watch(name, known, best);
            let best = rules::range(name, known, best);
            let best = judge_constant(msb, names, best);
            let best = judge_constant(lsb, names, best);
            rules::part(
                name.at,
                known,
                constant(msb, names),
                constant(lsb, names),
                best,
            )
        }
    }
}

#[tactic(auto, using(crate::proofs::Borrowed::after_append))]
fn judge_events<'a>(
    events: &'a [Event],
    names: &Names,
    best: Option<Fault<'a>>,
) -> Option<Fault<'a>>
    ensures { option_map refusal result
        ≡ after (option_map refusal best.entry)
        (events_faults (meanings names.now) (map happening events.now)) }
{
    let mut best = best;
    for event in events {
        best = judge_event(event, names, best);
    }
    best
}

/// The faults of a sensitivity list, after `best`.
pub fn judge_control<'a>(
    control: &'a EventControl,
    names: &Names,
    best: Option<Fault<'a>>,
) -> Option<Fault<'a>>
    ensures { option_map refusal result
        ≡ after (option_map refusal best.entry)
        (sensitivity_faults (meanings names.now) (sensitivity control.now)) }
{
    match control {
        EventControl::Star | EventControl::StarInParens => best,
        EventControl::Events(events) => judge_events(events, names, best),
    }
}

fn edge_of_event(edge: EventEdge) -> Edge
    ensures { result ≡ edge_of_event edge }
{
    match edge {
        EventEdge::Posedge => Edge::Pos,
        EventEdge::Negedge => Edge::Neg,
    }
}

/// An event in the design.
fn item(event: &Event, names: &Names, site: Site) -> Result<EventItem, Memory>
    ensures { IfOk result (λ made. watched made
        ≡ watched_of site.file site.base (meanings names.now) (happening event.now)) }
{
    let spot = Spot {
        file: site.file,
        at: event.place(),
    };
    match event {
        Event::Edge(edge, _, name) => Ok(EventItem {
            signal: signal_of(site.base, names.find(&name.text)),
            select: Select::Whole,
            edge: edge_of_event(*edge),
            spot,
        }),
        Event::Whole(name) => Ok(EventItem {
            signal: signal_of(site.base, names.find(&name.text)),
            select: Select::Whole,
            edge: Edge::No,
            spot,
        }),
        Event::Bit(name, index) => {
            let known = names.find(&name.text);
            Ok(EventItem {
                signal: signal_of(site.base, known),
                select: pieces::bit(index, known, names, site)?,
                edge: Edge::No,
                spot,
            })
        }
        Event::Part(name, msb, lsb) => {
            let known = names.find(&name.text);
            let field = field_in(known, constant(msb, names), constant(lsb, names));
            Ok(EventItem {
                signal: signal_of(site.base, known),
                select: pieces::part(field),
                edge: Edge::No,
                spot,
            })
        }
    }
}

fn items(events: &[Event], names: &Names, site: Site) -> Result<Vec<EventItem>, Memory>
    ensures { IfOk result (λ made. map watched made.items
        ≡ map (watched_of site.file site.base (meanings names.now)) (map happening events.now)) }
{
    let mut made = Vec::with_capacity(site.alloc, events.len())?;
    for event in events {
        made.push(item(event, names, site)?)?;
    }
    Ok(made)
}

/// The sensitivity list of a process in the design.
pub fn listed(control: &EventControl, names: &Names, site: Site) -> Result<Listed, Memory>
    ensures { IfOk result (λ made. listing made
        ≡ listing_of site.file site.base (meanings names.now) (sensitivity control.now)) }
{
    match control {
        EventControl::Star | EventControl::StarInParens => Ok(Listed::Star),
        EventControl::Events(events) => Ok(Listed::Items(items(events, names, site)?)),
    }
}

fn is_edge(event: &Event) -> bool
    ensures { result ≡ is_edge_event (happening event.now) }
{
    matches!(event, Event::Edge(_, _, _))
}

fn has_edge(events: &[Event]) -> bool
    ensures { result ≡ list_any is_edge_event (map happening events.now) }
{
    for event in events {
        if is_edge(event) {
            return true;
        }
    }
    false
}

/// Whether the process waits for an edge.
pub fn is_clocked(control: &EventControl) -> bool
    ensures { result ≡ is_clocked_by (sensitivity control.now) }
{
    match control {
        EventControl::Star | EventControl::StarInParens => false,
        EventControl::Events(events) => has_edge(events),
    }
}
