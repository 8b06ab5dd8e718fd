// The least signal that a statement may write.

ghost use Rattle.std.specs.Prelude.{◌≡◌, [], ◌∷◌, map};
ghost use Rattle.rtl_flat.specs.Process.{action, body_of, piece};
ghost use Rattle.rtl_flat.specs.Flats.{flat};
ghost use Rattle.check_parts.specs.rtl_scan.Bodies.{branches_of, other_of};
ghost use Rattle.check_case.specs.Cases.{first_in};
ghost use Rattle.check_case.specs.Least.{first_of_all, first_of_items, first_of_other, first_of_pieces, lesser};

use check_parts::rtl_scan::selected;
use rtl_flat::act::{Act, CaseItem, TargetPart};
use rtl_flat::design::Design;
use rtl_flat::expr::SigId;

/// The lesser of two signals, where there are any.
fn lesser(one: Option<SigId>, other: Option<SigId>) -> Option<SigId>
    ensures { result ≡ lesser one other }
{
    match one {
        None => other,
        Some(a) => match other {
            None => one,
            Some(b) => if b.0 < a.0 { other } else { one },
        },
    }
}

/// The signal of a target, if it means a bit of it.
fn first_of_part(design: &Design, part: &TargetPart) -> Option<SigId>
    ensures { result ≡ first_of_pieces (flat design.now) (piece part.now ∷ []) }
{
    let row = selected(design, part.signal, &part.select);
    if row.mask == 0 {
        return None;
    }
    Some(row.signal)
}

fn first_of_target(design: &Design, target: &[TargetPart]) -> Option<SigId>
    ensures { result ≡ first_of_pieces (flat design.now) (map piece target.now) }
{
    let mut first = None;
    for part in target {
        first = lesser(first, first_of_part(design, part));
    }
    first
}

/// The least signal that a statement may write.
#[cycle(least)]
pub(crate) fn first_in(design: &Design, one: &Act) -> Option<SigId>
    ensures { result ≡ first_in (flat design.now) (action one.now) }
{
    match one {
        Act::Set {
            target,
            value: _,
            delayed: _,
            spot: _,
        } => first_of_target(design, &target.parts),
        Act::If {
            test: _,
            yes,
            no,
            spot: _,
        } => lesser(first_of_other(design, no), first_of_all(design, yes)),
        Act::Case {
            kind: _,
            full: _,
            parallel: _,
            selector: _,
            items,
            fallback,
            spot: _,
        } => lesser(
            first_of_other(design, fallback),
            first_of_items(design, items),
        ),
        Act::Block(body) => first_of_all(design, body),
    }
}

#[cycle(least)]
fn first_of_all(design: &Design, body: &[Act]) -> Option<SigId>
    ensures { result ≡ first_of_all (flat design.now) (body_of (map action body.now)) }
{
    let mut first = None;
    for one in body {
        first = lesser(first, first_in(design, one));
    }
    first
}

#[cycle(least)]
fn first_of_other(design: &Design, other: &Option<Vec<Act>>) -> Option<SigId>
    ensures { result ≡ first_of_other (flat design.now) (other_of other.now) }
{
    match other {
        None => None,
        Some(body) => first_of_all(design, body),
    }
}

#[cycle(least)]
fn first_of_items(design: &Design, items: &[CaseItem]) -> Option<SigId>
    ensures { result ≡ first_of_items (flat design.now) (branches_of items.now) }
{
    let mut first = None;
    for item in items {
        first = lesser(first, first_of_all(design, &item.body));
    }
    first
}
