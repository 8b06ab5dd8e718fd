//! Labels of a case.

ghost use Rattle.std.specs.Prelude.{◌≡◌, length};
ghost use Rattle.rtl_flat.specs.Labels.{label_matches};

use rtl_bits::Vec4;
use rtl_flat::act::CaseKind;

/// Whether a label of a case matches its selector, both at the width of the widest of them.
pub fn is_match(kind: CaseKind, selector: Vec4, label: Vec4) -> bool
    requires { length selector ≡ length label }
    ensures { result ≡ label_matches kind selector label }
{
    match kind {
        CaseKind::Plain => selector.matches(label),
        CaseKind::Z => selector.matches_z(label),
        CaseKind::X => selector.matches_x(label),
    }
}
