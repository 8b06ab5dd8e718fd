//! Which bits an assignment writes.

ghost use Rattle.std.specs.Prelude.{◌≡◌};
ghost use Rattle.std.specs.Option.{option_map};
ghost use Rattle.rtl_flat.specs.Process.{selection};
ghost use Rattle.rtl_flat.specs.Signs.{width_in};
ghost use Rattle.rtl_flat.specs.Value.{store};
ghost use Rattle.rtl_flat.specs.WellFormed.{IsSelection};
ghost use Rattle.event_model.specs.Writes.{span_of, count_of};
ghost use Rattle.event_write.specs.Stored.{AreStored, bit_span, span};

use crate::stores::{evaluate, width_of};
use rtl_bits::Vec4;
use rtl_flat::expr::{Index, Select, SigId};
use rtl_flat::signal::Signal;
use rtl_scan::rtl_expr::places::{computed_place, fixed_place};

/// Bits of a signal: so many, from a place on, which is counted from the least significant.
#[derive(Clone, Copy, PartialEq, Eq, Debug)]
pub struct Span {
    pub at: u8,
    pub count: u8,
}

/// The bit at a place.
fn one_bit(place: Option<u8>) -> Option<Span>
    ensures { option_map span result ≡ option_map bit_span place }
{
    place.map(|at| Span { at, count: 1 })
}

/// The bits that are selected of a signal where `values` has the value of each signal; none where an index means no bit
/// that there is.
pub fn span_of(signals: &[Signal], values: &[Vec4], signal: SigId, select: &Select) -> Option<Span>
    requires inside { IsSelection signals.now signal.0 (selection select.now) }
    requires stored { AreStored signals.now values.now }
    ensures { option_map span result
        ≡ span_of (width_in signals.now) (store values.now) signal.0 (selection select.now) }
{
    let width = width_of(signals, signal);
    match select {
        Select::Whole => Some(Span {
            at: 0,
            count: width,
        }),
        Select::Bit { low, index } => match index {
            Index::Fixed(index) => one_bit(fixed_place(width, *low, *index)),
            Index::Computed(index) => {
                let place = evaluate(signals, values, index);
                one_bit(computed_place(width, *low, index.signed, place))
            }
        },
        Select::Part { low, width } => Some(Span {
            at: *low,
            count: *width,
        }),
    }
}

/// How many bits a selection has, whether its signal has them or not.
pub fn count_of(signals: &[Signal], signal: SigId, select: &Select) -> u8
    requires { IsSelection signals.now signal.0 (selection select.now) }
    ensures { result ≡ count_of (width_in signals.now) signal.0 (selection select.now) }
{
    match select {
        Select::Whole => width_of(signals, signal),
        Select::Bit { low: _, index: _ } => 1,
        Select::Part { low: _, width } => *width,
    }
}
