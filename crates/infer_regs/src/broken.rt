// The rules that a process that waits for edges breaks.

ghost use Rattle.std.specs.Prelude.{◌≡◌, ◌<◌, ◌↔◌, true, length, map, Some, IfOk};
ghost use Rattle.std.specs.List.{list_any, slice_get};
ghost use Rattle.rtl_flat.specs.Process.{Task, doing, watched};
ghost use Rattle.rtl_flat.specs.Flats.{flat};
ghost use Rattle.net_list.specs.check_sense.Sense.{has_item};
ghost use Rattle.net_list.specs.check_sense.Telling.{level_in};
ghost use Rattle.net_list.specs.check_clocks.Clocks.{events_of};
ghost use Rattle.net_list.specs.check_clocks.Roles.{is_derived};
ghost use Rattle.net_list.specs.Faults.{Waits};
ghost use Rattle.net_list.specs.check_chains.check_parts.Reads.{AreUnknowns};
ghost use Rattle.infer_regs.specs.Facts.{AreFacts};
ghost use Rattle.infer_regs.specs.Judged.{IsJudged};

use crate::facts::Facts;
use net_list::check_chains::branches::has_bad_reset;
use net_list::check_chains::shapes::{has_turned, is_shapeless};
use net_list::check_clocks::derived::is_derived;
use rtl_bits::Edge;
use rtl_flat::act::{Does, EventItem, ProcId};
use rtl_flat::design::Design;
use rtl_rule::rule::Rule;
use std::alloc::Global;
use text_ground::memory::Memory;

/// The events of a process.
pub(crate) fn events_of(does: &Does) -> &[EventItem]
    ensures { map watched result.now ≡ events_of (doing does.now) }
{
    match does {
        Does::Assign {
            target: _,
            value: _,
        } => &[],
        Does::Comb { list: _, body: _ } => &[],
        Does::Edge { events, body: _ } => events,
    }
}

/// Whether an item of a list has no edge.
fn has_level(events: &[EventItem]) -> bool
    ensures { result ≡ has_item (level_in (map watched events.now)) }
{
    for item in events {
        if matches!(item.edge, Edge::No) {
            return true;
        }
    }
    false
}

/// Whether the signal of an item comes from no top input, or from one that has two roles.
fn has_derived(facts: &Facts, events: &[EventItem]) -> bool
    ensures { let items = map watched events.now in
        let clocks = facts.now.roles.clocks.items in
        let derived = is_derived facts.now.tops.items clocks facts.now.roles.resets.items items in
        result ≡ list_any (λ item. derived item.signal.0) events.now }
{
    events.iter().any(|item| is_derived(&facts.tops, &facts.roles, events, item.signal))
}

/// The first rule about its list, its clock or its resets that a process breaks.
pub(crate) fn first_broken(
    alloc: Global,
    design: &Design,
    facts: &Facts,
    p: ProcId,
) -> Result<Option<Rule>, Memory>
    requires there { p.0 < length design.now.processes.items }
    requires waits { Waits (flat design.now) p.0 }
    requires unknown { AreUnknowns (flat design.now) facts.now.unknowns.items }
    requires facts { AreFacts (flat design.now) facts.now.tops.items facts.now.roles.clocks.items
        facts.now.roles.resets.items facts.now.temporaries.items }
    ensures { let d = flat design.now in
        IfOk result (λ rule. (task : Task) → slice_get d.tasks p.0 ≡ Some task
        → IsJudged d p.0 task rule) }
{
    let does = &design.processes[p.0 as usize].does;
    let events = events_of(does);
    if has_level(events) {
        return Ok(Some(Rule::MixedEdges));
    }
    if has_derived(facts, events) {
        return Ok(Some(Rule::DerivedClock));
    }
    if is_shapeless(alloc, design, does)? {
        return Ok(Some(Rule::ResetShape));
    }
    if has_turned(alloc, design, does)? {
        return Ok(Some(Rule::ResetPolarity));
    }
    if has_bad_reset(alloc, design, &facts.temporaries, &facts.unknowns, p)? {
        return Ok(Some(Rule::ResetValue));
    }
    Ok(None)
}
