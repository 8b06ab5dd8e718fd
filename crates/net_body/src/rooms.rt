//! How much room bodies want for cases whose items run side by side.

ghost use Rattle.std.specs.Prelude.{◌≡◌, ◌<◌, ◌≤◌, ◌^◌, cond, map};
ghost use Rattle.rtl_flat.specs.Process.{action, body_of, doing};
ghost use Rattle.rtl_flat.specs.WellFormed.{process_statements, statements};
ghost use Rattle.rtl_scan.specs.Bodies.{branches_of, other_of};
ghost use Rattle.rtl_scan.specs.Loads.{items_load, load, other_load};
ghost use Rattle.net_body.specs.Levels.{branch_levels, levels, levels_of, other_levels, process_levels};

use rtl_flat::act::{Act, CaseItem, Does};

/// How deep cases with `parallel_case` stand in one another in the body of a process.
pub(crate) fn process_depth(does: &Does) -> usize
    requires { process_statements (doing does.now) ≤ 100000 }
    ensures exact { result ≡ process_levels (doing does.now) }
    ensures at_most { result ≤ 100000 }
{
    match does {
        Does::Assign {
            target: _,
            value: _,
        } => 0,
        Does::Comb { list: _, body } => depth_of(body),
        Does::Edge { events: _, body } => depth_of(body),
    }
}

/// How deep cases with `parallel_case` stand in one another in statements.
#[cycle(depths)]
pub(crate) fn depth_of(acts: &[Act]) -> usize
    requires { load acts.now < 2 ^ 32 }
    ensures exact { result ≡ levels_of (body_of (map action acts.now)) }
    ensures at_most { result ≤ load acts.now }
{
    let mut most = 0;
    for act in acts {
        most = most.max(depth(act));
    }
    most
}

/// What a case adds.
fn own_depth(parallel: bool) -> usize
    ensures { result ≡ cond parallel 1 0 }
{
    if parallel { 1 } else { 0 }
}

/// How deep they stand in a statement.
#[cycle(depths)]
fn depth(act: &Act) -> usize
    requires { statements (action act.now) < 2 ^ 32 }
    ensures exact { result ≡ levels (action act.now) }
    ensures at_most { result ≤ statements (action act.now) }
{
    match act {
        Act::Set {
            target: _,
            value: _,
            delayed: _,
            spot: _,
        } => 0,
        Act::If {
            test: _,
            yes,
            no,
            spot: _,
        } => depth_of(yes).max(other_depth(no)),
        Act::Case {
            kind: _,
            full: _,
            parallel,
            selector: _,
            items,
            fallback,
            spot: _,
        } => {
            let own = own_depth(*parallel);
            let deepest = item_depth(items);
            (own + deepest).max(other_depth(fallback))
        }
        Act::Block(body) => depth_of(body),
    }
}

/// How deep they stand in a body that may be left out.
#[cycle(depths)]
fn other_depth(body: &Option<Vec<Act>>) -> usize
    requires { other_load body.now < 2 ^ 32 }
    ensures exact { result ≡ other_levels (other_of body.now) }
    ensures at_most { result ≤ other_load body.now }
{
    match body {
        Some(body) => depth_of(body),
        None => 0,
    }
}

/// How deep they stand in the items of a case.
#[cycle(depths)]
fn item_depth(items: &[CaseItem]) -> usize
    requires { items_load items.now < 2 ^ 32 }
    ensures exact { result ≡ branch_levels (branches_of items.now) }
    ensures at_most { result ≤ items_load items.now }
{
    let mut most = 0;
    for item in items {
        most = most.max(depth_of(&item.body));
    }
    most
}
