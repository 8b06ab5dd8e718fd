//! Which branch of an `if` and which item of a case runs.

ghost use Rattle.std.specs.Prelude.{◌≡◌, List, length, map};
ghost use Rattle.std.specs.List.{All};
ghost use Rattle.std.specs.Option.{option_map};
ghost use Rattle.rtl_bits.specs.Bit.{is_one};
ghost use Rattle.rtl_bits.specs.Bits.{truth_bit};
ghost use Rattle.rtl_flat.specs.Expression.{tree};
ghost use Rattle.rtl_flat.specs.Process.{action, body_of};
ghost use Rattle.rtl_flat.specs.Signs.{IsExpression};
ghost use Rattle.rtl_flat.specs.Value.{store};
ghost use Rattle.rtl_scan.specs.Bodies.{branches_of};
ghost use Rattle.net_model.specs.Block.{some_meets};
ghost use Rattle.net_model.specs.Numbers.{digits};
ghost use Rattle.net_body.specs.Bodies.{AreMatched, chosen_body};
ghost use Rattle.net_body.specs.Marks.{AreStored};

use net_model::fill::Fill;
use net_number::{number, some_meet};
use rtl_bits::{Bit, Vec4};
use rtl_flat::act::{Act, CaseItem, CaseKind};
use rtl_flat::design::Design;
use rtl_flat::expr::SizedExpr;

/// The number of an expression. It takes no memory.
pub(crate) fn evaluate(design: &Design, e: &SizedExpr, fill: Fill, numbers: &[Vec4]) -> Vec4
    requires expression { IsExpression design.now.signals.items (tree e.now) }
    requires stored { AreStored design.now.signals.items numbers.now }
    ensures bits { result ≡ digits fill (store numbers.now) (tree e.now) }
    ensures width { length result ≡ e.now.width }
{
    number(e, fill, numbers)
}

/// Whether a condition has a 1.
pub(crate) fn holds(design: &Design, test: &SizedExpr, fill: Fill, numbers: &[Vec4]) -> bool
    requires expression { IsExpression design.now.signals.items (tree test.now) }
    requires stored { AreStored design.now.signals.items numbers.now }
    ensures { result ≡ is_one (truth_bit (digits fill (store numbers.now) (tree test.now))) }
{
    matches!(
        evaluate(design, test, fill, numbers).truth().bit(0),
        Bit::One
    )
}

/// Whether some label matches the number of a selector.
pub(crate) fn item_meets(
    design: &Design,
    kind: CaseKind,
    selector: Vec4,
    labels: &[SizedExpr],
    fill: Fill,
    numbers: &[Vec4],
) -> bool
    requires expressions { All (λ label. IsExpression design.now.signals.items (tree label))
        labels.now }
    requires widths { All (λ label. label.width ≡ length selector) labels.now }
    requires stored { AreStored design.now.signals.items numbers.now }
    ensures { result ≡ some_meets fill (store numbers.now) kind selector (map tree labels.now) }
{
    some_meet(kind, selector, labels, fill, numbers)
}

/// The body of the first item with a label that matches.
pub(crate) fn chosen_body<'a>(
    design: &Design,
    kind: CaseKind,
    selector: Vec4,
    items: &'a [CaseItem],
    fill: Fill,
    numbers: &[Vec4],
) -> Option<&'a [Act]>
    requires matched { AreMatched design.now.signals.items (length selector) items.now }
    requires stored { AreStored design.now.signals.items numbers.now }
    ensures { option_map (λ body. body_of (map action body.now)) result
        ≡ chosen_body fill (store numbers.now) kind selector (branches_of items.now) }
{
    for item in items {
        if item_meets(design, kind, selector, &item.labels, fill, numbers) {
            return Some(&item.body);
        }
    }
    None
}
