//! Statements, each made as it is reached.

ghost use Rattle.std.specs.Prelude.{◌≡◌, ◌≤◌, ◌+◌, ◌*◌, cond, length, map, max};
ghost use Rattle.text_ground.specs.declared.text.Spot.{Spot};
ghost use Rattle.rtl_flat.specs.declared.signal.Kind.TheVariants.{Var};
ghost use Rattle.rtl_flat.specs.Expression.{tree};
ghost use Rattle.rtl_flat.specs.Process.{Case, action, body_of, piece};
ghost use Rattle.rtl_flat.specs.Signs.{IsExpression, width_in};
ghost use Rattle.rtl_flat.specs.WellFormed.{AreBranches, IsAction, IsAssignment, IsBody, IsOtherwise};
ghost use Rattle.rtl_scan.specs.Bodies.{branches_of, other_of};
ghost use Rattle.rtl_flat.specs.Value.{store};
ghost use Rattle.net_model.specs.Block.{act, act_arms, act_other, acts, digit_writes, joined_arms, write_each};
ghost use Rattle.net_model.specs.Numbers.{digits};
ghost use Rattle.net_body.specs.Bodies.{AreBodies, AreMatched, none_runs};
ghost use Rattle.net_body.specs.Levels.{branch_levels, levels, levels_of, other_levels};
ghost use Rattle.net_body.specs.Marks.{AreKept, maps};

use crate::arms::{Aside, collect, join, set_aside};
use crate::choices::{chosen_body, evaluate, holds, item_meets};
use crate::entries::{Entry, assign};
use crate::fills::fill_if;
use crate::mark::Mark;
use net_model::fill::Fill;
use rtl_bits::Vec4;
use rtl_flat::act::{Act, CaseItem, CaseKind, TargetPart};
use rtl_flat::design::Design;
use rtl_flat::expr::SizedExpr;

/// Runs statements in their order. It takes no memory.
#[cycle(acts)]
pub(crate) fn run_all(
    design: &Design,
    body: &[Act],
    fill: Fill,
    numbers: &mut [Vec4],
    marks: &mut [Mark],
    entries: &mut [Entry],
    room: &mut [Aside],
)
    requires body { IsBody design.now.signals.items (body_of (map action body.now)) }
    requires kept { AreKept design.now.signals.items numbers.old marks.old }
    requires entries { 128 ≤ length entries.old }
    requires room { levels_of (body_of (map action body.now)) * length design.now.signals.items
        ≤ length room.old }
    ensures maps { maps numbers.new marks.new
        ≡ acts (width_in design.now.signals.items) fill (maps numbers.old marks.old)
        (body_of (map action body.now)) }
    ensures kept { AreKept design.now.signals.items numbers.new marks.new }
{
    for statement in body {
        run(design, statement, fill, numbers, marks, entries, room);
    }
}

/// Runs one statement.
#[cycle(acts)]
fn run(
    design: &Design,
    statement: &Act,
    fill: Fill,
    numbers: &mut [Vec4],
    marks: &mut [Mark],
    entries: &mut [Entry],
    room: &mut [Aside],
)
    requires statement { IsAction design.now.signals.items (action statement.now) }
    requires kept { AreKept design.now.signals.items numbers.old marks.old }
    requires entries { 128 ≤ length entries.old }
    requires room { levels (action statement.now) * length design.now.signals.items
        ≤ length room.old }
    ensures maps { maps numbers.new marks.new
        ≡ act (width_in design.now.signals.items) fill (maps numbers.old marks.old)
        (action statement.now) }
    ensures kept { AreKept design.now.signals.items numbers.new marks.new }
{
    match statement {
        Act::Set {
            target,
            value,
            delayed,
            spot: _,
        } => {
            set(
                design,
                &target.parts,
                value,
                *delayed,
                fill,
                numbers,
                marks,
                entries,
            );
        }
        Act::If {
            test,
            yes,
            no,
            spot: _,
        } => {
            if holds(design, test, fill, numbers) {
                run_all(design, yes, fill, numbers, marks, entries, room);
            } else {
                run_other(design, no, fill, numbers, marks, entries, room);
            }
        }
        Act::Case {
            kind,
            full,
            parallel,
            selector,
            items,
            fallback,
            spot: _,
        } => run_case(
            design, *kind, *full, *parallel, selector, items, fallback, fill, numbers, marks,
            entries, room,
        ),
        Act::Block(body) => run_all(design, body, fill, numbers, marks, entries, room),
    }
}

/// Runs a body that may be left out.
#[cycle(acts)]
fn run_other(
    design: &Design,
    body: &Option<Vec<Act>>,
    fill: Fill,
    numbers: &mut [Vec4],
    marks: &mut [Mark],
    entries: &mut [Entry],
    room: &mut [Aside],
)
    requires body { IsOtherwise design.now.signals.items (other_of body.now) }
    requires kept { AreKept design.now.signals.items numbers.old marks.old }
    requires entries { 128 ≤ length entries.old }
    requires room { other_levels (other_of body.now) * length design.now.signals.items
        ≤ length room.old }
    ensures maps { maps numbers.new marks.new
        ≡ act_other (width_in design.now.signals.items) fill (maps numbers.old marks.old)
        (maps numbers.old marks.old) (other_of body.now) }
    ensures kept { AreKept design.now.signals.items numbers.new marks.new }
{
    if let Some(body) = body {
        run_all(design, body, fill, numbers, marks, entries, room);
    }
}

/// Runs the body of the first item that matches, or all that match side by side, or else what is
/// run where none does.
#[cycle(acts)]
fn run_case(
    design: &Design,
    kind: CaseKind,
    full: bool,
    parallel: bool,
    selector: &SizedExpr,
    items: &[CaseItem],
    fallback: &Option<Vec<Act>>,
    fill: Fill,
    numbers: &mut [Vec4],
    marks: &mut [Mark],
    entries: &mut [Entry],
    room: &mut [Aside],
)
    requires selector { IsExpression design.now.signals.items (tree selector.now) }
    requires branches { AreBranches design.now.signals.items (tree selector.now)
        (branches_of items.now) }
    requires fallback { IsOtherwise design.now.signals.items (other_of fallback.now) }
    requires kept { AreKept design.now.signals.items numbers.old marks.old }
    requires entries { 128 ≤ length entries.old }
    requires room { max (cond parallel 1 0 + branch_levels (branches_of items.now))
        (other_levels (other_of fallback.now)) * length design.now.signals.items ≤ length room.old }
    ensures maps { (spot : Spot) → maps numbers.new marks.new
        ≡ act (width_in design.now.signals.items) fill (maps numbers.old marks.old)
        (Case kind full parallel (tree selector.now) (branches_of items.now)
        (other_of fallback.now) spot) }
    ensures kept { AreKept design.now.signals.items numbers.new marks.new }
{
    let bits = evaluate(design, selector, fill, numbers);
    match chosen_body(design, kind, bits, items, fill, numbers) {
        Some(body) => {
            if parallel {
                run_arms(
                    design, kind, bits, items, fill, numbers, marks, entries, room,
                );
            } else {
                run_all(design, body, fill, numbers, marks, entries, room);
            }
        }
        None => run_none(
            design, full, items, fallback, fill, numbers, marks, entries, room,
        ),
    }
}

/// Runs a case of which no item matches: its `default`, or what `full_case` makes of one without.
#[cycle(acts)]
fn run_none(
    design: &Design,
    full: bool,
    items: &[CaseItem],
    fallback: &Option<Vec<Act>>,
    fill: Fill,
    numbers: &mut [Vec4],
    marks: &mut [Mark],
    entries: &mut [Entry],
    room: &mut [Aside],
)
    requires selector { AreBodies design.now.signals.items (branches_of items.now) }
    requires fallback { IsOtherwise design.now.signals.items (other_of fallback.now) }
    requires kept { AreKept design.now.signals.items numbers.old marks.old }
    requires entries { 128 ≤ length entries.old }
    requires room { other_levels (other_of fallback.now) * length design.now.signals.items
        ≤ length room.old }
    ensures maps { maps numbers.new marks.new
        ≡ none_runs (width_in design.now.signals.items) fill full (branches_of items.now)
        (other_of fallback.now) (maps numbers.old marks.old) }
    ensures kept { AreKept design.now.signals.items numbers.new marks.new }
{
    match fallback {
        Some(body) => run_all(design, body, fill, numbers, marks, entries, room),
        None => fill_if(design, full, items, fill, numbers, marks),
    }
}

/// Runs each item that matches from the maps before the case, and joins what they make.
#[cycle(acts)]
fn run_arms(
    design: &Design,
    kind: CaseKind,
    selector: Vec4,
    items: &[CaseItem],
    fill: Fill,
    numbers: &mut [Vec4],
    marks: &mut [Mark],
    entries: &mut [Entry],
    room: &mut [Aside],
)
    requires matched { AreMatched design.now.signals.items (length selector) items.now }
    requires bodies { AreBodies design.now.signals.items (branches_of items.now) }
    requires kept { AreKept design.now.signals.items numbers.old marks.old }
    requires entries { 128 ≤ length entries.old }
    requires room { (1 + branch_levels (branches_of items.now)) * length design.now.signals.items
        ≤ length room.old }
    ensures maps { maps numbers.new marks.new
        ≡ joined_arms (maps numbers.old marks.old)
        (act_arms (width_in design.now.signals.items) fill (maps numbers.old marks.old) kind
        selector (branches_of items.now)) }
    ensures kept { AreKept design.now.signals.items numbers.new marks.new }
{
    let count = numbers.len();
    set_aside(numbers, marks, &mut room[..count]);
    for number in 0..items.len() {
        let item = &items[items.len() - 1 - number];
        if item_meets(design, kind, selector, &item.labels, fill, numbers) {
            run_all(
                design,
                &item.body,
                fill,
                numbers,
                marks,
                entries,
                &mut room[count..],
            );
            collect(numbers, marks, &mut room[..count]);
        }
    }
    join(numbers, marks, &room[..count]);
}

/// An assignment of a number, which is known before anything is written.
fn set(
    design: &Design,
    parts: &[TargetPart],
    value: &SizedExpr,
    delayed: bool,
    fill: Fill,
    numbers: &mut [Vec4],
    marks: &mut [Mark],
    entries: &mut [Entry],
)
    requires assignment { IsAssignment design.now.signals.items Var (map piece parts.now)
        (tree value.now) }
    requires kept { AreKept design.now.signals.items numbers.old marks.old }
    requires entries { 128 ≤ length entries.old }
    ensures maps { maps numbers.new marks.new
        ≡ write_each delayed (maps numbers.old marks.old)
        (digit_writes (width_in design.now.signals.items) fill (store numbers.old)
        (map piece parts.now) (digits fill (store numbers.old) (tree value.now))) }
    ensures kept { AreKept design.now.signals.items numbers.new marks.new }
{
    let bits = evaluate(design, value, fill, numbers);
    assign(
        &design.signals,
        parts,
        bits,
        delayed,
        fill,
        numbers,
        marks,
        entries,
    );
}
