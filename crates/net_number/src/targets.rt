//! What parts of targets select.

ghost use Rattle.std.specs.Prelude.{◌≡◌, Bool, false, length};
ghost use Rattle.std.specs.Option.{option_map};
ghost use Rattle.rtl_bits.specs.Bits.{has_unknown};
ghost use Rattle.rtl_flat.specs.Expression.{read, tree};
ghost use Rattle.rtl_flat.specs.Process.{selection};
ghost use Rattle.rtl_flat.specs.Sizes.{IsSized};
ghost use Rattle.rtl_flat.specs.Value.{index_number, store, widths};
ghost use Rattle.net_model.specs.Block.{span_by};
ghost use Rattle.net_model.specs.Numbers.{digits};
ghost use Rattle.net_number.specs.Spans.{bit_span, span};

use crate::filling::filled;
use crate::spans::Span;
use crate::walk::number;
use net_model::fill::Fill;
use rtl_bits::Vec4;
use rtl_expr::places::{computed_place, fixed_place};
use rtl_flat::act::TargetPart;
use rtl_flat::expr::{Index, Select, SizedExpr};

/// The number of an index, in which an x or z counts as 0.
fn known_number(index: &SizedExpr, fill: Fill, numbers: &[Vec4]) -> Vec4
    requires { IsSized (length numbers.now) (widths numbers.now) (tree index.now) }
    ensures known { has_unknown result ≡ false }
    ensures number { (signed : Bool)
        → index_number signed result ≡ index_number signed
        (digits fill (store numbers.now) (tree index.now)) }
{
    filled(number(index, fill, numbers), Fill::Zero)
}

/// The bit at a place.
fn one_bit(place: Option<u8>) -> Option<Span>
    ensures { option_map span result ≡ option_map bit_span place }
{
    place.map(|at| Span { at, count: 1 })
}

/// The bits that are selected of a signal by a part of a target; none where an index is outside.
#[tactic(auto, using(crate::proofs::Selected::read_below))]
pub fn span(part: &TargetPart, fill: Fill, numbers: &[Vec4]) -> Option<Span>
    requires { IsSized (length numbers.now) (widths numbers.now)
        (read part.now.signal.0 part.now.select) }
    ensures { option_map span result
        ≡ span_by (widths numbers.now) fill (store numbers.now) part.now.signal.0
        (selection part.now.select) }
{
    let width = numbers[part.signal.0 as usize].width();
    match &part.select {
        Select::Whole => Some(Span {
            at: 0,
            count: width,
        }),
        Select::Bit { low, index } => match index {
            Index::Fixed(index) => one_bit(fixed_place(width, *low, *index)),
            Index::Computed(index) => {
                let place = known_number(index, fill, numbers);
                one_bit(computed_place(width, *low, index.signed, place))
            }
        },
        Select::Part { low, width } => Some(Span {
            at: *low,
            count: *width,
        }),
    }
}
