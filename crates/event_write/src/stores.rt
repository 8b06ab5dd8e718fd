//! The values of signals.

ghost use Rattle.std.specs.Prelude.{◌≡◌, ◌<◌, ◌≤◌, length};
ghost use Rattle.rtl_flat.specs.Expression.{tree};
ghost use Rattle.rtl_flat.specs.Signs.{width_in, IsExpression};
ghost use Rattle.rtl_flat.specs.Value.{value, store};
ghost use Rattle.event_write.specs.Stored.{AreStored};

use rtl_bits::Vec4;
use rtl_flat::expr::{SigId, SizedExpr};
use rtl_flat::signal::Signal;
use rtl_scan::rtl_expr::eval;

/// How many bits a signal has.
#[tactic(auto, using(crate::proofs::Widths::width_at))]
pub fn width_of(signals: &[Signal], signal: SigId) -> u8
    requires { signal.0 < length signals.now }
    ensures { result ≡ width_in signals.now signal.0 }
{
    signals[signal.0 as usize].width
}

/// The value of an expression where `values` has the value of each signal. It takes no memory.
pub fn evaluate(signals: &[Signal], values: &[Vec4], e: &SizedExpr) -> Vec4
    requires expression { IsExpression signals.now (tree e.now) }
    requires stored { AreStored signals.now values.now }
    ensures bits { result ≡ value (store values.now) (tree e.now) }
    ensures width { length result ≡ e.now.width }
{
    eval(e, values)
}
