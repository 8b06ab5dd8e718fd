// How deep gates are nested.

ghost use Rattle.std.specs.Prelude.{◌≡◌, ◌-◌, ◌^◌, map, min};
ghost use Rattle.std.specs.Option.{option_map};
ghost use Rattle.text_grammar.specs.Depth.{gate_depth, gate_pause_depth, greatest, if_any};
ghost use Rattle.rtl_tree.specs.TreeGate.{gate, gate_pause};

use crate::nesting::exprs::{expr_depth, exprs_depth};
use crate::nesting::stmts::{target_depth, ticks_depth};
use rtl_tree::tree::gate::{Gate, GateDelay, GateTicks};

/// Of the delay of gates that may be left out.
pub(crate) fn optional_gate_delay_depth(delay: &Option<GateDelay>) -> u32
    ensures { result ≡ min (if_any gate_pause_depth (option_map gate_pause delay.now)) (2 ^ 32 - 1) }
{
    let Some(delay) = delay else {
        return 0;
    };
    match &delay.ticks {
        GateTicks::One(ticks) => ticks_depth(ticks),
        GateTicks::Two(rise, fall) => expr_depth(rise).max(expr_depth(fall)),
    }
}

pub(crate) fn gates_depth(all: &[Gate]) -> u32
    ensures { result ≡ min (greatest gate_depth (map gate all.now)) (2 ^ 32 - 1) }
{
    let mut most = 0;
    for gate in all {
        let here = target_depth(&gate.output).max(exprs_depth(&gate.terminals));
        most = here.max(most);
    }
    most
}
