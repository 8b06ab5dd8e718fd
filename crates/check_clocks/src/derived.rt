//! A7: edges of signals that come from no top input, or from one with two roles.

ghost use Rattle.std.specs.Prelude.{◌≡◌, ◌++◌, length, map, IfOk, OnOk};
ghost use Rattle.std.specs.List.{filter_map};
ghost use Rattle.rtl_flat.specs.Process.{doing, task, watched};
ghost use Rattle.rtl_rule.specs.Parts.{items_of};
ghost use Rattle.rtl_flat.specs.Flats.{flat};
ghost use Rattle.check_clocks.specs.Clocks.{AreDerivedClock, events_of};
ghost use Rattle.check_clocks.specs.Roles.{AreRoles, derived_in, has_top, have_roles, is_derived, is_twice};
ghost use Rattle.check_gates.specs.Tops.{AreTops};

use crate::roles::{Roles, roles_of};
use check_gates::tops::{row_at, tops_of};
use rtl_flat::act::{Does, EventItem, Process};
use rtl_flat::design::Design;
use rtl_flat::expr::SigId;
use rtl_rule::finding::Finding;
use rtl_rule::rule::Rule;
use std::alloc::Global;
use text_ground::memory::Memory;

/// Whether a signal comes from a top input.
fn has_top(tops: &[Vec<u32>], top: u32, signal: SigId) -> bool
    ensures { result ≡ has_top tops.now top signal.0 }
{
    row_at(tops, signal).iter().any(|one| *one == top)
}

/// Whether two items come from a top input.
fn is_twice(tops: &[Vec<u32>], events: &[EventItem], top: u32) -> bool
    ensures { result ≡ is_twice tops.now (map watched events.now) top }
{
    let mut once = false;
    for item in events {
        if has_top(tops, top, item.signal) {
            if once {
                return true;
            }
            once = true;
        }
    }
    false
}

/// Whether one of some top inputs is there twice or has two roles.
fn have_roles(tops: &[Vec<u32>], roles: &Roles, events: &[EventItem], own: &[u32]) -> bool
    ensures { let items = map watched events.now in
        let clocks = roles.now.clocks.items in
        result ≡ have_roles tops.now clocks roles.now.resets.items items own.now }
{
    own.iter()
        .any(|top| is_twice(tops, events, *top) || roles.has_both(*top))
}

/// Whether a signal whose edges a process waits for comes from no top input, or from one that is
/// in the list twice or has two roles.
pub fn is_derived(tops: &[Vec<u32>], roles: &Roles, events: &[EventItem], signal: SigId) -> bool
    ensures { let items = map watched events.now in
        let clocks = roles.now.clocks.items in
        result ≡ is_derived tops.now clocks roles.now.resets.items items signal.0 }
{
    let own = row_at(tops, signal);
    own.is_empty() || have_roles(tops, roles, events, own)
}

/// Adds the findings at the events of a process.
fn push_events(
    tops: &[Vec<u32>],
    roles: &Roles,
    process: &Process,
    events: &[EventItem],
    found: &mut Vec<Finding>,
) -> Result<(), Memory>
    ensures { let items = map watched events.now in
        let clocks = roles.now.clocks.items in
        let resets = roles.now.resets.items in
        let derived = derived_in tops.now clocks resets items (task process.now) in
        OnOk result (found.new.items ≡ found.old.items ++ filter_map derived items) }
{
    for item in events {
        if is_derived(tops, roles, events, item.signal) {
            found.push(Finding {
                rule: Rule::DerivedClock,
                signal: Some(item.signal),
                instance: process.instance,
                spot: process.spot,
            })?;
        }
    }
    Ok(())
}

/// Adds the findings at a process.
fn push_process(
    tops: &[Vec<u32>],
    roles: &Roles,
    process: &Process,
    found: &mut Vec<Finding>,
) -> Result<(), Memory>
    ensures { let does = doing process.now.does in
        let clocks = roles.now.clocks.items in
        let resets = roles.now.resets.items in
        let derived = derived_in tops.now clocks resets (items_of does) (task process.now) in
        OnOk result (found.new.items ≡ found.old.items ++ filter_map derived (events_of does)) }
{
    match &process.does {
        Does::Assign {
            target: _,
            value: _,
        } => Ok(()),
        Does::Comb { list: _, body: _ } => Ok(()),
        Does::Edge { events, body: _ } => push_events(tops, roles, process, events, found),
    }
}

/// The findings at all processes.
fn findings(
    alloc: Global,
    design: &Design,
    tops: &[Vec<u32>],
    roles: &Roles,
) -> Result<Vec<Finding>, Memory>
    ensures { let d = flat design.now in
        let count = length design.now.processes.items in
        let are_roles = AreRoles d count roles.now.clocks.items roles.now.resets.items in
        IfOk result (λ found. AreTops d (length d.signals) tops.now → are_roles →
        AreDerivedClock d found.items) }
{
    let mut found = Vec::new(alloc);
    for process in &design.processes {
        push_process(tops, roles, process, &mut found)?;
    }
    Ok(found)
}

/// The edges of signals that come from no top input, or from one that is in the list twice or has
/// two roles.
pub fn derived_clock(alloc: Global, design: &Design) -> Result<Vec<Finding>, Memory>
    ensures { IfOk result (λ found. AreDerivedClock (flat design.now) found.items) }
{
    let tops = tops_of(alloc, design)?;
    let roles = roles_of(alloc, design, &tops)?;
    findings(alloc, design, &tops, &roles)
}
