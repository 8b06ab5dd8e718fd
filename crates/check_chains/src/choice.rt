// Bodies that are one `if`.

ghost use Rattle.std.specs.Prelude.{◌≡◌, ◌<◌, [], ◌∷◌, List, Option, length, map, MatchOption, None};
ghost use Rattle.net_model.specs.Cycle as cycle;
ghost use Rattle.rtl_flat.specs.Process.{Actions, Watched, action, body_of};
ghost use Rattle.rtl_flat.specs.WellFormed.{statements_of};
ghost use Rattle.rtl_flat.specs.Flats.{Flat};
ghost use Rattle.check_chains.specs.Chains.{headed};
ghost use Rattle.check_chains.specs.Inner.{IsChoice};

use rtl_flat::act::Act;
use rtl_flat::expr::SizedExpr;

/// An `if` with an `else`.
#[derive(Clone, Copy)]
pub(crate) struct Choice<'d> {
    pub(crate) test: &'d SizedExpr,
    pub(crate) taken: &'d [Act],
    pub(crate) other: &'d [Act],
}

/// The element of a list that has one alone.
pub(crate) fn only<'d, T>(all: &'d [T]) -> Option<&'d T>
    ensures { MatchOption result (length all.now ≡ 1 → ⊥) (λ one. all.now ≡ one.now ∷ []) }
{
    match all {
        [one] => Some(one),
        _ => None,
    }
}

/// The body of the block that a body is.
fn inside<'d>(body: &'d [Act]) -> Option<&'d [Act]>
    ensures { let all = body_of (map action body.now) in
        MatchOption result (cycle.opened all ≡ all) (λ inner.
        (cycle.opened all ≡ cycle.opened (body_of (map action inner.now)))
        × (statements_of (body_of (map action inner.now)) < statements_of all)) }
{
    match only(body)? {
        Act::Block(inner) => Some(inner),
        Act::Set { .. } => None,
        Act::If { .. } => None,
        Act::Case { .. } => None,
    }
}

/// A body without the blocks that hold nothing but one block or statement.
fn opened<'d>(body: &'d [Act]) -> &'d [Act]
    ensures { body_of (map action result.now) ≡ cycle.opened (body_of (map action body.now)) }
{
    let mut rest = body;
    while let Some(inner) = inside(rest) {
        rest = inner;
    }
    rest
}

/// The `if` with an `else` that a body is.
pub(crate) fn choice_of<'d>(body: &'d [Act]) -> Option<Choice<'d>>
    ensures { let all = cycle.opened (body_of (map action body.now)) in
        MatchOption result
        ((d : Flat) (go : List Watched → Actions → Option cycle.Chain) (events : List Watched) →
        headed d go events all ≡ None) (IsChoice all) }
{
    match only(opened(body))? {
        Act::If {
            test,
            yes,
            no,
            spot: _,
        } => match no {
            Some(other) => Some(Choice {
                test,
                taken: yes,
                other,
            }),
            None => None,
        },
        Act::Set { .. } => None,
        Act::Case { .. } => None,
        Act::Block(_) => None,
    }
}
