//! What `full_case` makes of a case that has no item for a number: all that it may write has the fill.

ghost use Rattle.std.specs.Prelude.{ℕ, ◌≡◌, ◌<◌, ◌&&◌, cond, length, map, not};
ghost use Rattle.std.specs.List.{All};
ghost use Rattle.rtl_flat.specs.Flows.{action_then, body_flow, may_select, may_target, other_flow};
ghost use Rattle.rtl_flat.specs.Paths.{End, may_write_blocking, may_write_delayed};
ghost use Rattle.rtl_flat.specs.Process.{action, body_of, piece, selection};
ghost use Rattle.rtl_flat.specs.Signs.{width_in};
ghost use Rattle.rtl_flat.specs.WellFormed.{IsAction, IsBody, IsOtherwise};
ghost use Rattle.rtl_scan.specs.Bodies.{branches_of, other_of};
ghost use Rattle.net_model.specs.Block.{filled_case};
ghost use Rattle.net_model.specs.Numbers.{fill_bit};
ghost use Rattle.net_body.specs.Bodies.{AreBodies, items_late, items_now};
ghost use Rattle.net_body.specs.Marks.{AreKept, maps};

use crate::bits::merged;
use crate::mark::Mark;
use net_model::fill::Fill;
use rtl_bits::{Bit, Vec4};
use rtl_flat::act::{Act, CaseItem, TargetPart};
use rtl_flat::design::Design;
use rtl_scan::selected;

/// The bit that a fill is.
fn bit_of(fill: Fill) -> Bit
    ensures { result ≡ fill_bit fill }
{
    match fill {
        Fill::Zero => Bit::Zero,
        Fill::One => Bit::One,
    }
}

/// Fills what a part of a target may be.
fn fill_part(
    design: &Design,
    part: &TargetPart,
    delayed: bool,
    fill: Fill,
    numbers: &mut [Vec4],
    marks: &mut [Mark],
)
    requires there { part.now.signal.0 < length design.now.signals.items }
    requires kept { AreKept design.now.signals.items numbers.old marks.old }
    ensures maps { maps numbers.new marks.new
        ≡ filled_case fill (λ i k. not delayed
        && may_select (width_in design.now.signals.items) part.now.signal.0
        (selection part.now.select) i k)
        (λ i k. delayed && may_select (width_in design.now.signals.items) part.now.signal.0
        (selection part.now.select) i k) (maps numbers.old marks.old) }
    ensures kept { AreKept design.now.signals.items numbers.new marks.new }
{
    let row = selected(design, part.signal, &part.select);
    let place = part.signal.0 as usize;
    let mark = marks[place];
    let bit = bit_of(fill);
    if delayed {
        marks[place] = mark.filled_next(row.mask, bit);
    } else {
        let number = numbers[place];
        let filled = Vec4::filled(number.width(), bit);
        numbers[place] = merged(row.mask, filled, number);
        marks[place] = mark.filled_now(row.mask);
    }
}

/// Fills what a target may be.
fn fill_parts(
    design: &Design,
    parts: &[TargetPart],
    delayed: bool,
    fill: Fill,
    numbers: &mut [Vec4],
    marks: &mut [Mark],
)
    requires there { All (λ part. part.signal.0 < length design.now.signals.items) parts.now }
    requires kept { AreKept design.now.signals.items numbers.old marks.old }
    ensures maps { maps numbers.new marks.new
        ≡ filled_case fill (λ i k. not delayed
        && may_target (width_in design.now.signals.items) (map piece parts.now) i k)
        (λ i k. delayed && may_target (width_in design.now.signals.items) (map piece parts.now) i k)
        (maps numbers.old marks.old) }
    ensures kept { AreKept design.now.signals.items numbers.new marks.new }
{
    for part in parts {
        fill_part(design, part, delayed, fill, numbers, marks);
    }
}

/// Fills what statements may write.
#[cycle(fills)]
fn fill_all(design: &Design, acts: &[Act], fill: Fill, numbers: &mut [Vec4], marks: &mut [Mark])
    requires body { IsBody design.now.signals.items (body_of (map action acts.now)) }
    requires kept { AreKept design.now.signals.items numbers.old marks.old }
    ensures maps { maps numbers.new marks.new
        ≡ filled_case fill (may_write_blocking
        (body_flow (width_in design.now.signals.items) (body_of (map action acts.now))))
        (may_write_delayed (body_flow (width_in design.now.signals.items)
        (body_of (map action acts.now)))) (maps numbers.old marks.old) }
    ensures kept { AreKept design.now.signals.items numbers.new marks.new }
{
    for act in acts {
        fill_one(design, act, fill, numbers, marks);
    }
}

/// Fills what a statement may write.
#[cycle(fills)]
fn fill_one(design: &Design, act: &Act, fill: Fill, numbers: &mut [Vec4], marks: &mut [Mark])
    requires act { IsAction design.now.signals.items (action act.now) }
    requires kept { AreKept design.now.signals.items numbers.old marks.old }
    ensures maps { maps numbers.new marks.new
        ≡ filled_case fill (may_write_blocking
        (action_then (width_in design.now.signals.items) (action act.now) End))
        (may_write_delayed (action_then (width_in design.now.signals.items) (action act.now) End))
        (maps numbers.old marks.old) }
    ensures kept { AreKept design.now.signals.items numbers.new marks.new }
{
    match act {
        Act::Set {
            target,
            value: _,
            delayed,
            spot: _,
        } => fill_parts(design, &target.parts, *delayed, fill, numbers, marks),
        Act::If {
            test: _,
            yes,
            no,
            spot: _,
        } => {
            fill_other(design, no, fill, numbers, marks);
            fill_all(design, yes, fill, numbers, marks);
        }
        Act::Case {
            kind: _,
            full: _,
            parallel: _,
            selector: _,
            items,
            fallback,
            spot: _,
        } => {
            fill_other(design, fallback, fill, numbers, marks);
            fill_items(design, items, fill, numbers, marks);
        }
        Act::Block(body) => fill_all(design, body, fill, numbers, marks),
    }
}

/// Fills what a body may write that may be left out.
#[cycle(fills)]
fn fill_other(
    design: &Design,
    body: &Option<Vec<Act>>,
    fill: Fill,
    numbers: &mut [Vec4],
    marks: &mut [Mark],
)
    requires body { IsOtherwise design.now.signals.items (other_of body.now) }
    requires kept { AreKept design.now.signals.items numbers.old marks.old }
    ensures maps { maps numbers.new marks.new
        ≡ filled_case fill (may_write_blocking
        (other_flow (width_in design.now.signals.items) (other_of body.now)))
        (may_write_delayed (other_flow (width_in design.now.signals.items) (other_of body.now)))
        (maps numbers.old marks.old) }
    ensures kept { AreKept design.now.signals.items numbers.new marks.new }
{
    match body {
        Some(body) => fill_all(design, body, fill, numbers, marks),
        None => {}
    }
}

/// Fills what the items of a case may write.
#[cycle(fills)]
fn fill_items(
    design: &Design,
    items: &[CaseItem],
    fill: Fill,
    numbers: &mut [Vec4],
    marks: &mut [Mark],
)
    requires bodies { AreBodies design.now.signals.items (branches_of items.now) }
    requires kept { AreKept design.now.signals.items numbers.old marks.old }
    ensures maps { maps numbers.new marks.new
        ≡ filled_case fill (items_now (width_in design.now.signals.items) (branches_of items.now))
        (items_late (width_in design.now.signals.items) (branches_of items.now))
        (maps numbers.old marks.old) }
    ensures kept { AreKept design.now.signals.items numbers.new marks.new }
{
    for item in items {
        fill_all(design, &item.body, fill, numbers, marks);
    }
}

/// Fills what the items of a case may write, where it promised an item.
pub(crate) fn fill_if(
    design: &Design,
    full: bool,
    items: &[CaseItem],
    fill: Fill,
    numbers: &mut [Vec4],
    marks: &mut [Mark],
)
    requires bodies { AreBodies design.now.signals.items (branches_of items.now) }
    requires kept { AreKept design.now.signals.items numbers.old marks.old }
    ensures maps { maps numbers.new marks.new
        ≡ cond full (filled_case fill (items_now (width_in design.now.signals.items)
        (branches_of items.now)) (items_late (width_in design.now.signals.items)
        (branches_of items.now)) (maps numbers.old marks.old)) (maps numbers.old marks.old) }
    ensures kept { AreKept design.now.signals.items numbers.new marks.new }
{
    if full {
        fill_items(design, items, fill, numbers, marks);
    }
}
