//! What a process that waits for edges runs.

ghost use Rattle.std.specs.Prelude.{◌≡◌, ◌<◌, length, map, slice_index_or};
ghost use Rattle.std.specs.List.{All};
ghost use Rattle.std.specs.Option.{option_map};
ghost use Rattle.rtl_bits.specs.declared.Bit.TheVariants.{X};
ghost use Rattle.rtl_bits.specs.Bits.{same_bit};
ghost use Rattle.rtl_flat.specs.Value.{store};
ghost use Rattle.event_model.specs.Queue.{happens};
ghost use Rattle.net_model.specs.Cycle.{level};
ghost use Rattle.net_model.specs.Numbers.{bit};
ghost use Rattle.net_list.specs.check_chains.Views.{guard_view};
ghost use Rattle.net_turn.specs.Runs.{active_of, branch_of, numbers_of, run_of, numbers_with, view_of};

use event_model::setting::Setting;
use net_list::check_chains::chain::Guard;
use net_list::clocked::Clocked;
use rtl_bits::{Bit, Edge, Vec4, edge_of};
use rtl_flat::act::Act;
use rtl_flat::expr::SigId;

/// The first bit of a number.
fn first_bit(number: Vec4) -> Bit
    ensures { result ≡ slice_index_or number 0 X }
{
    number.bit(0)
}

/// The first bit of a top input, which may be set.
fn bit_after(before: &[Vec4], turn: &Option<Setting>, top: SigId) -> Bit
    requires { top.0 < length before.now }
    ensures { result ≡ bit (numbers_with (store before.now) turn.now) top.0 0 }
{
    if let Some(setting) = turn {
        if top.0 == setting.signal.0 {
            return first_bit(setting.value);
        }
    }
    first_bit(before[top.0 as usize])
}

/// Whether a bit is the level that an edge goes to.
fn is_at_level(bit: Bit, edge: Edge) -> bool
    ensures { result ≡ same_bit bit (level edge) }
{
    match edge {
        Edge::No => matches!(bit, Bit::X),
        Edge::Pos => matches!(bit, Bit::One),
        Edge::Neg => matches!(bit, Bit::Zero),
    }
}

/// Whether a change is an event.
fn is_event(edge: Edge, old: Bit, new: Bit) -> bool
    ensures { result ≡ happens edge old new }
{
    match edge {
        Edge::No => old != new,
        Edge::Pos => matches!(edge_of(old, new), Edge::Pos),
        Edge::Neg => matches!(edge_of(old, new), Edge::Neg),
    }
}

/// The branch of the strongest reset that is active.
fn active_branch<'a>(
    resets: &[Guard<'a>],
    tops: &[SigId],
    before: &[Vec4],
    turn: &Option<Setting>,
) -> Option<&'a [Act]>
    requires as_many { length tops.now ≡ length resets.now }
    requires tops { All (λ top. top.0 < length before.now) tops.now }
    ensures { option_map (λ branch. view_of branch.now) result
        ≡ branch_of (active_of (numbers_with (store before.now) turn.now)
        (map guard_view resets.now)
        (numbers_of tops.now)) }
{
    for place in 0..resets.len() {
        let guard = resets[place];
        if is_at_level(bit_after(before, turn, tops[place]), guard.item.edge) {
            return Some(guard.branch);
        }
    }
    None
}

/// What a process runs: the branch of its strongest active reset, or where none is active its clocked part at the clock's
/// edge.
pub(crate) fn chosen<'a>(
    one: &Clocked<'a>,
    before: &[Vec4],
    turn: &Option<Setting>,
) -> Option<&'a [Act]>
    requires clock { one.now.clock.0 < length before.now }
    requires as_many { length one.now.resets.items ≡ length one.now.chain.resets.items }
    requires tops { All (λ top. top.0 < length before.now) one.now.resets.items }
    ensures { option_map (λ body. view_of body.now) result
        ≡ run_of (store before.now) (numbers_with (store before.now) turn.now) one.now }
{
    let branch = active_branch(&one.chain.resets, &one.resets, before, turn);
    if branch.is_some() {
        return branch;
    }
    let old = first_bit(before[one.clock.0 as usize]);
    let new = bit_after(before, turn, one.clock);
    if is_event(one.chain.clock.edge, old, new) {
        Some(one.chain.part)
    } else {
        None
    }
}
