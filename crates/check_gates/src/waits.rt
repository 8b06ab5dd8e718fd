// The signals that processes wait for edges of.

ghost use Rattle.std.specs.Prelude.{◌≡◌, ◌∷◌, [], false, slice_index_or};
ghost use Rattle.std.specs.List.{flat_map, list_any};
ghost use Rattle.rtl_flat.specs.Process.{doing, watched};
ghost use Rattle.check_gates.specs.Tops.{AreMarkedAlso};
ghost use Rattle.check_gates.specs.Waits.{waited, waited_by};

use crate::tops::{is_marked, mark};
use rtl_bits::Edge;
use rtl_flat::act::{Does, EventItem, Process};

/// Marks the signal of an item with an edge.
fn mark_item(marks: &mut [bool], item: &EventItem)
    ensures { AreMarkedAlso (waited_by (watched item.now)) marks.old marks.new }
{
    match item.edge {
        Edge::No => {}
        Edge::Pos | Edge::Neg => mark(marks, item.signal.0),
    }
}

fn mark_items(marks: &mut [bool], items: &[EventItem])
    ensures { AreMarkedAlso (flat_map (λ item. waited_by (watched item)) items.now) marks.old
        marks.new }
{
    for item in items {
        mark_item(marks, item);
    }
}

/// Marks the signals that a process waits for edges of.
fn mark_waited(marks: &mut [bool], does: &Does)
    ensures { AreMarkedAlso (waited (doing does.now)) marks.old marks.new }
{
    match does {
        Does::Assign {
            target: _,
            value: _,
        } => {}
        Does::Comb { list: _, body: _ } => {}
        Does::Edge { events, body: _ } => mark_items(marks, events),
    }
}

pub fn mark_all_waited(marks: &mut [bool], processes: &[Process])
    ensures { let waits = flat_map (λ process. waited (doing process.does)) processes.now in
        AreMarkedAlso waits marks.old marks.new }
{
    for process in processes {
        mark_waited(marks, &process.does);
    }
}

pub fn any_marked(marks: &[bool], places: &[u32]) -> bool
    ensures { result ≡ list_any (λ place. slice_index_or marks.now place false) places.now }
{
    for place in places {
        if is_marked(marks, *place) {
            return true;
        }
    }
    false
}
