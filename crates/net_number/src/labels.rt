//! Labels of a case.

ghost use Rattle.std.specs.Prelude.{◌≡◌, length, map};
ghost use Rattle.std.specs.List.{All};
ghost use Rattle.rtl_flat.specs.Expression.{tree};
ghost use Rattle.rtl_flat.specs.Sizes.{IsSized};
ghost use Rattle.rtl_flat.specs.Value.{store, widths};
ghost use Rattle.net_model.specs.Block.{some_meets};
ghost use Rattle.net_model.specs.Numbers.{is_literal, label_digits, label_meets};

use crate::walk::number;
use net_model::fill::Fill;
use rtl_bits::Vec4;
use rtl_expr::{eval, is_match};
use rtl_flat::act::CaseKind;
use rtl_flat::expr::{Node, SizedExpr};

/// Whether a label matches the number of a selector.
pub fn meets(
    kind: CaseKind,
    selector: Vec4,
    label: &SizedExpr,
    fill: Fill,
    numbers: &[Vec4],
) -> bool
    requires sized { IsSized (length numbers.now) (widths numbers.now) (tree label.now) }
    requires width { length selector ≡ label.now.width }
    ensures { result ≡ label_meets fill (store numbers.now) kind selector (tree label.now) }
{
    is_match(kind, selector, label_digits(label, fill, numbers))
}

/// Whether some label does.
pub fn some_meet(
    kind: CaseKind,
    selector: Vec4,
    labels: &[SizedExpr],
    fill: Fill,
    numbers: &[Vec4],
) -> bool
    requires sized { All (λ label. IsSized (length numbers.now) (widths numbers.now) (tree label))
        labels.now }
    requires widths { All (λ label. length selector ≡ label.width) labels.now }
    ensures { result ≡ some_meets fill (store numbers.now) kind selector (map tree labels.now) }
{
    for label in labels {
        if meets(kind, selector, label, fill, numbers) {
            return true;
        }
    }
    false
}

/// What a label is compared with: a literal keeps its x and z bits.
fn label_digits(label: &SizedExpr, fill: Fill, numbers: &[Vec4]) -> Vec4
    requires { IsSized (length numbers.now) (widths numbers.now) (tree label.now) }
    ensures bits { result ≡ label_digits fill (store numbers.now) (tree label.now) }
    ensures width { length result ≡ label.now.width }
{
    if is_literal(label) {
        eval(label, numbers)
    } else {
        number(label, fill, numbers)
    }
}

/// Whether a label is one literal.
fn is_literal(label: &SizedExpr) -> bool
    ensures { result ≡ is_literal (tree label.now) }
{
    matches!(&label.node, Node::Literal(_))
}
