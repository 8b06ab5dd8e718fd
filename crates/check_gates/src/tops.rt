// Which top inputs each signal comes from, and marks of numbers.

ghost use Rattle.std.specs.Prelude.{◌≡◌, ◌<◌, ◌∷◌, [], false, length, slice_index_or, IfOk, OnOk};
ghost use Rattle.std.specs.List.{All};
ghost use Rattle.rtl_flat.specs.Flats.{flat};
ghost use Rattle.event_model.specs.Queue.{is_input};
ghost use Rattle.check_chains.specs.rtl_scan.Graph.{row};
ghost use Rattle.check_gates.specs.Tops.{AreMarkedAlso, AreTops, IsNoted, IsNotedFor};

use crate::links::{empty_rows, plain_links, push_at, rows_of};
use crate::reach::reached;
use rtl_flat::design::Design;
use rtl_flat::expr::SigId;
use rtl_flat::signal::Kind;
use std::alloc::Global;
use text_ground::memory::Memory;

/// Whether a signal is there, and a top input.
pub fn is_top(design: &Design, signal: SigId) -> bool
    ensures { result ≡ is_input (flat design.now) signal.0 }
{
    match design.signals.get(signal.0 as usize) {
        Some(signal) => match signal.kind {
            Kind::TopInput => true,
            Kind::Net => false,
            Kind::Var => false,
        },
        None => false,
    }
}

/// Puts a number into some rows.
fn push_all_at(rows: &mut Vec<Vec<u32>>, places: &[u32], value: u32) -> Result<(), Memory>
    requires { All (λ place. place < length rows.old.items) places.now }
    ensures { OnOk result (IsNotedFor places.now value rows.old.items rows.new.items) }
{
    for place in places {
        push_at(rows, *place as usize, value)?;
    }
    Ok(())
}

/// Notes a top input in the rows of all signals that it reaches.
fn note_top(
    alloc: Global,
    rows: &[Vec<u32>],
    tops: &mut Vec<Vec<u32>>,
    top: u32,
) -> Result<(), Memory>
    requires inside { top < length rows.now }
    requires size { length tops.old.items ≡ length rows.now }
    ensures { OnOk result (IsNoted rows.now top tops.old.items tops.new.items) }
{
    let found = reached(alloc, rows, top)?;
    push_all_at(tops, &found, top)
}

/// The top inputs from which each signal comes through plain connections.
pub fn tops_of(alloc: Global, design: &Design) -> Result<Vec<Vec<u32>>, Memory>
    ensures { IfOk result (λ tops.
        AreTops (flat design.now) (length design.now.signals.items) tops.items) }
{
    let count = design.signals.len();
    let links = plain_links(alloc, design)?;
    let rows = rows_of(alloc, count, &links)?;
    let mut tops = empty_rows(alloc, count)?;
    for top in 0..count {
        if is_top(design, SigId(top as u32)) {
            note_top(alloc, &rows, &mut tops, top as u32)?;
        }
    }
    Ok(tops)
}

/// The row of a signal, without numbers where there is none.
pub fn row_at(rows: &[Vec<u32>], signal: SigId) -> &[u32]
    ensures { result.now ≡ row rows.now signal.0 }
{
    match rows.get(signal.0 as usize) {
        Some(row) => row,
        None => &[],
    }
}

pub fn is_marked(marks: &[bool], place: u32) -> bool
    ensures { result ≡ slice_index_or marks.now place false }
{
    match marks.get(place as usize) {
        Some(mark) => *mark,
        None => false,
    }
}

pub fn mark(marks: &mut [bool], place: u32)
    ensures { AreMarkedAlso (place ∷ []) marks.old marks.new }
{
    if (place as usize) < marks.len() {
        marks[place as usize] = true;
    }
}

pub fn mark_all(marks: &mut [bool], places: &[u32])
    ensures { AreMarkedAlso places.now marks.old marks.new }
{
    for place in places {
        mark(marks, *place);
    }
}
