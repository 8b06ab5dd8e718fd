//! The nonblocking assignments of bodies, whether they run or not.

ghost use Rattle.std.specs.Prelude.{◌+◌, map};
ghost use Rattle.rtl_flat.specs.Process.{action, body_of, doing};
ghost use Rattle.event_tables.specs.rtl_scan.Bodies.{branches_of, other_of};
ghost use Rattle.event_model.specs.Policies.{nonblocking, nonblocking_in, nonblocking_other, nonblocking_branches, nonblocking_of, late};
ghost use Rattle.event_tables.specs.event_write.Rooms.{room, rooms, other_room, branch_rooms};
ghost use Rattle.event_queue.specs.Lates.{IsFew, IsLate, parts_if, room_in};

use rtl_flat::act::{Act, CaseItem, Does};

/// Nonblocking assignments: how many there are, and how many parts their targets have together.
#[derive(Clone, Copy)]
pub(crate) struct Late {
    pub(crate) count: u64,
    pub(crate) parts: u64,
}

impl Late {
    /// None.
    fn none() -> Late
        ensures { IsLate 0 0 result }
    {
        Late { count: 0, parts: 0 }
    }

    /// These and others.
    fn and(self, other: Late) -> Late
        requires { IsFew (self.count + other.count) (self.parts + other.parts) }
        ensures { IsLate (self.count + other.count) (self.parts + other.parts) result }
    {
        Late {
            count: self.count + other.count,
            parts: self.parts + other.parts,
        }
    }
}

/// Those of statements.
#[cycle(lates)]
fn late_in(acts: &[Act]) -> Late
    requires { IsFew (nonblocking_in (body_of (map action acts.now)))
        (rooms (body_of (map action acts.now))) }
    ensures { IsLate (nonblocking_in (body_of (map action acts.now)))
        (rooms (body_of (map action acts.now))) result }
{
    let mut found = Late::none();
    for act in acts {
        found = found.and(late_of(act));
    }
    found
}

/// Those of one statement.
#[cycle(lates)]
fn late_of(act: &Act) -> Late
    requires { IsFew (nonblocking (action act.now)) (room (action act.now)) }
    ensures { IsLate (nonblocking (action act.now)) (room (action act.now)) result }
{
    match act {
        Act::Set {
            target,
            value: _,
            delayed,
            spot: _,
        } => late_set(target.parts.len(), *delayed),
        Act::If {
            test: _,
            yes,
            no,
            spot: _,
        } => late_in(yes).and(late_other(no)),
        Act::Case {
            kind: _,
            full: _,
            parallel: _,
            selector: _,
            items,
            fallback,
            spot: _,
        } => late_items(items).and(late_other(fallback)),
        Act::Block(body) => late_in(body),
    }
}

/// An assignment to a target of so many parts.
fn late_set(parts: usize, delayed: bool) -> Late
    ensures { IsLate (late delayed) (parts_if delayed parts) result }
{
    if delayed {
        return Late {
            count: 1,
            parts: parts as u64,
        };
    }
    Late::none()
}

/// Those of a body that may be left out.
#[cycle(lates)]
fn late_other(body: &Option<Vec<Act>>) -> Late
    requires { IsFew (nonblocking_other (other_of body.now)) (other_room (other_of body.now)) }
    ensures { IsLate (nonblocking_other (other_of body.now))
        (other_room (other_of body.now)) result }
{
    match body {
        Some(body) => late_in(body),
        None => Late::none(),
    }
}

/// Those of the items of a case.
#[cycle(lates)]
fn late_items(items: &[CaseItem]) -> Late
    requires { IsFew (nonblocking_branches (branches_of items.now))
        (branch_rooms (branches_of items.now)) }
    ensures { IsLate (nonblocking_branches (branches_of items.now))
        (branch_rooms (branches_of items.now)) result }
{
    let mut found = Late::none();
    for item in items {
        found = found.and(late_in(&item.body));
    }
    found
}

/// Those of a process.
pub(crate) fn late_at(does: &Does) -> Late
    requires { IsFew (nonblocking_of (doing does.now)) (room_in (doing does.now)) }
    ensures { IsLate (nonblocking_of (doing does.now)) (room_in (doing does.now)) result }
{
    match does {
        Does::Assign {
            target: _,
            value: _,
        } => Late::none(),
        Does::Comb { list: _, body } => late_in(body),
        Does::Edge { events: _, body } => late_in(body),
    }
}
