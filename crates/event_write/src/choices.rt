//! Which branch of an `if` and which item of a case runs.

ghost use Rattle.std.specs.Prelude.{◌≡◌, List, length, map};
ghost use Rattle.std.specs.List.{All};
ghost use Rattle.std.specs.Option.{option_map};
ghost use Rattle.rtl_bits.specs.Bit.{is_one};
ghost use Rattle.rtl_bits.specs.Bits.{truth_bit};
ghost use Rattle.rtl_flat.specs.Expression.{tree};
ghost use Rattle.rtl_flat.specs.Process.{action, body_of};
ghost use Rattle.rtl_flat.specs.Signs.{width_in, IsExpression};
ghost use Rattle.rtl_flat.specs.Sizes.{width_of};
ghost use Rattle.rtl_flat.specs.Value.{store, value};
ghost use Rattle.rtl_scan.specs.Bodies.{branches_of};
ghost use Rattle.event_model.specs.Bodies.{some_matches};
ghost use Rattle.event_write.specs.Choices.{AreMatched, chosen_body};
ghost use Rattle.event_write.specs.Stored.{AreStored};

use crate::stores::evaluate;
use rtl_bits::{Bit, Vec4};
use rtl_flat::act::{Act, CaseItem, CaseKind};
use rtl_flat::expr::SizedExpr;
use rtl_flat::signal::Signal;
use rtl_scan::rtl_expr::is_match;

/// Whether a condition has a 1.
pub fn holds(signals: &[Signal], values: &[Vec4], test: &SizedExpr) -> bool
    requires expression { IsExpression signals.now (tree test.now) }
    requires stored { AreStored signals.now values.now }
    ensures { result ≡ is_one (truth_bit (value (store values.now) (tree test.now))) }
{
    matches!(evaluate(signals, values, test).truth().bit(0), Bit::One)
}

/// Whether some label matches a selector.
fn some_matches(
    signals: &[Signal],
    values: &[Vec4],
    kind: CaseKind,
    selector: Vec4,
    labels: &[SizedExpr],
) -> bool
    requires expressions { All (λ label. IsExpression signals.now (tree label)) labels.now }
    requires widths { All (λ label. label.width ≡ length selector) labels.now }
    requires stored { AreStored signals.now values.now }
    ensures { result ≡ some_matches kind (store values.now) selector (map tree labels.now) }
{
    for label in labels {
        if is_match(kind, selector, evaluate(signals, values, label)) {
            return true;
        }
    }
    false
}

/// The body of the first item with a label that matches.
pub fn chosen_body<'a>(
    signals: &[Signal],
    values: &[Vec4],
    kind: CaseKind,
    selector: Vec4,
    items: &'a [CaseItem],
) -> Option<&'a [Act]>
    requires matched { AreMatched signals.now (length selector) items.now }
    requires stored { AreStored signals.now values.now }
    ensures { option_map (λ body. body_of (map action body.now)) result
        ≡ chosen_body kind (store values.now) selector (branches_of items.now) }
{
    for item in items {
        if some_matches(signals, values, kind, selector, &item.labels) {
            return Some(&item.body);
        }
    }
    None
}
