// The top inputs that clocks and resets come from.

ghost use Rattle.std.specs.Prelude.{map, IfOk};
ghost use Rattle.std.specs.List.{All};
ghost use Rattle.net_list.specs.rtl_scan.Arrows.{Among};
ghost use Rattle.net_list.specs.rtl_scan.Graph.{row};
ghost use Rattle.net_list.specs.check_chains.Views.{guard_view};
ghost use Rattle.infer_regs.specs.Taken.{AreResetTops, HasTop};

use net_list::check_chains::chain::Guard;
use net_list::check_gates::tops::row_at;
use rtl_flat::expr::SigId;
use std::alloc::Global;
use text_ground::memory::Memory;

/// A top input that a signal comes from.
pub(crate) fn top_of(tops: &[Vec<u32>], signal: SigId) -> SigId
    requires { HasTop tops.now signal.0 }
    ensures { Among (row tops.now signal.0) result.0 }
{
    let own = row_at(tops, signal);
    SigId(own[0])
}

/// Those that resets come from.
pub(crate) fn reset_tops(
    alloc: Global,
    tops: &[Vec<u32>],
    resets: &[Guard<'_>],
) -> Result<Vec<SigId>, Memory>
    requires { All (λ guard. HasTop tops.now guard.item.now.signal.0) resets.now }
    ensures { IfOk result (λ found. AreResetTops tops.now (map guard_view resets.now) found.items) }
{
    let mut found = Vec::new(alloc);
    for guard in resets {
        found.push(top_of(tops, guard.item.signal))?;
    }
    Ok(found)
}
