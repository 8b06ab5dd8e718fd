// The places of the targets of a process.

ghost use Rattle.std.specs.Prelude.{ℕ, ◌≡◌, map, OnOk, IfOk};
ghost use Rattle.std.specs.List.{filter_map, flat_map};
ghost use Rattle.std.specs.Ordering.{nat_cmp};
ghost use Rattle.std.specs.BTreeMap.{get};
ghost use Rattle.rtl_flat.specs.Process.{action, doing, piece};
ghost use Rattle.rtl_rule.specs.Parts.{statements};
ghost use Rattle.rtl_flat.specs.Flats.{flat, widths};
ghost use Rattle.check_assign.specs.Assigned.{own_targets};
ghost use Rattle.check_loops.specs.check_found.Marked.{joined, least_of};
ghost use Rattle.check_assign.specs.Marks.{spot_of};

use check_loops::check_found::marks::Marks;
use check_loops::rtl_scan::selected;
use check_parts::statements::statements;
use rtl_flat::act::{Act, Does, TargetPart};
use rtl_flat::design::Design;
use std::alloc::Global;
use text_ground::memory::Memory;

/// Marks the signal of a target that may be a bit of it.
fn note_part(design: &Design, part: &TargetPart, marks: &mut Marks) -> Result<(), Memory>
    ensures { OnOk result ((s : ℕ) → get nat_cmp marks.new.spots s
        ≡ joined (get nat_cmp marks.old.spots s)
        (spot_of (widths (flat design.now)) s (piece part.now))) }
{
    let row = selected(design, part.signal, &part.select);
    if row.mask == 0 {
        return Ok(());
    }
    marks.note(part.signal, part.spot)
}

fn note_parts(design: &Design, all: &[TargetPart], marks: &mut Marks) -> Result<(), Memory>
    ensures { OnOk result ((s : ℕ) → get nat_cmp marks.new.spots s
        ≡ joined (get nat_cmp marks.old.spots s)
        (least_of (filter_map (spot_of (widths (flat design.now)) s) (map piece all.now)))) }
{
    for part in all {
        note_part(design, part, marks)?;
    }
    Ok(())
}

/// Marks the signals that a statement assigns in one of the two ways.
fn note_act(design: &Design, one: &Act, delayed: bool, marks: &mut Marks) -> Result<(), Memory>
    ensures { OnOk result ((s : ℕ) → get nat_cmp marks.new.spots s
        ≡ joined (get nat_cmp marks.old.spots s)
        (least_of (own_targets (widths (flat design.now)) delayed s (action one.now)))) }
{
    match one {
        Act::Set {
            target,
            value: _,
            delayed: is_delayed,
            spot: _,
        } => {
            if *is_delayed != delayed {
                return Ok(());
            }
            note_parts(design, &target.parts, marks)
        }
        Act::If {
            test: _,
            yes: _,
            no: _,
            spot: _,
        } => Ok(()),
        Act::Case {
            kind: _,
            full: _,
            parallel: _,
            selector: _,
            items: _,
            fallback: _,
            spot: _,
        } => Ok(()),
        Act::Block(_) => Ok(()),
    }
}

/// The signals that a body may assign in one of the two ways, each at its first target.
pub(crate) fn first_targets(
    alloc: Global,
    design: &Design,
    does: &Does,
    delayed: bool,
) -> Result<Marks, Memory>
    ensures { let ws = widths (flat design.now) in
        IfOk result (λ marks. (s : ℕ) → get nat_cmp marks.spots s
        ≡ least_of (flat_map (own_targets ws delayed s) (statements (doing does.now)))) }
{
    let mut marks = Marks::new(alloc);
    let all = statements(alloc, does)?;
    for one in &all {
        note_act(design, one, delayed, &mut marks)?;
    }
    Ok(marks)
}
