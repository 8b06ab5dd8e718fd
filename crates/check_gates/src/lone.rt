// Bodies that are one `if` without `else`.

ghost use Rattle.std.specs.Prelude.{◌≡◌, ◌<◌, ◌∷◌, [], length, map, MatchOption};
ghost use Rattle.net_model.specs.Cycle as cycle;
ghost use Rattle.rtl_flat.specs.Process.{Done, Then, action, body_of};
ghost use Rattle.rtl_flat.specs.WellFormed.{statements_of};
ghost use Rattle.check_gates.specs.Forms.{IsLone, IsNotLone};

use rtl_flat::act::Act;
use rtl_flat::expr::SizedExpr;

/// An `if` without an `else`.
#[derive(Clone, Copy)]
pub(crate) struct Lone<'d> {
    pub(crate) test: &'d SizedExpr,
    pub(crate) taken: &'d [Act],
}

/// The element of a list that has one alone.
fn only(all: &[Act]) -> Option<&Act>
    ensures { MatchOption result (length all.now ≡ 1 → ⊥) (λ one. all.now ≡ one.now ∷ []) }
{
    match all {
        [one] => Some(one),
        _ => None,
    }
}

/// The body of the block that a body is.
fn inside(body: &[Act]) -> Option<&[Act]>
    ensures { let all = body_of (map action body.now) in
        MatchOption result (cycle.opened all ≡ all) (λ inner.
        (cycle.opened all ≡ cycle.opened (body_of (map action inner.now)))
        × (statements_of (body_of (map action inner.now)) < statements_of all)) }
{
    match only(body)? {
        Act::Block(inner) => Some(inner),
        Act::Set { .. } => None,
        Act::If { .. } => None,
        Act::Case { .. } => None,
    }
}

/// A body without the blocks that hold nothing but one block or statement.
fn opened(body: &[Act]) -> &[Act]
    ensures { body_of (map action result.now) ≡ cycle.opened (body_of (map action body.now)) }
{
    let mut rest = body;
    while let Some(inner) = inside(rest) {
        rest = inner;
    }
    rest
}

/// The `if` without an `else` that a statement is.
fn lone_of<'d>(one: &'d Act) -> Option<Lone<'d>>
    ensures { MatchOption result (IsNotLone (Then (action one.now) Done)) (IsLone (Then (action one.now) Done)) }
{
    match one {
        Act::If {
            test,
            yes,
            no,
            spot: _,
        } => match no {
            Some(_) => None,
            None => Some(Lone { test, taken: yes }),
        },
        Act::Set { .. } => None,
        Act::Case { .. } => None,
        Act::Block(_) => None,
    }
}

/// The `if` without an `else` that a body is.
pub(crate) fn lone_if<'d>(body: &'d [Act]) -> Option<Lone<'d>>
    ensures { let all = cycle.opened (body_of (map action body.now)) in
        MatchOption result (IsNotLone all) (IsLone all) }
{
    lone_of(only(opened(body))?)
}
