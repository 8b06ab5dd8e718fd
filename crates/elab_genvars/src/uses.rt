// Uses of names.

ghost use Rattle.std.specs.Prelude.{◌≡◌};
ghost use Rattle.std.specs.Option.{option_map};
ghost use Rattle.elab_genvars.specs.Genvars.{genvar_faults, told_of};
ghost use Rattle.elab_scope.specs.Faults.{after, keep};
ghost use Rattle.rtl_tree.specs.TreeExpr.{identifier};

use crate::sorts::Sorts;
use elab_scope::known::Known;
use rtl_tree::tree::names::Name;

/// The one of two names that is told: the first in the text.
fn keep<'a>(best: Option<&'a Name>, name: &'a Name) -> Option<&'a Name>
    ensures { option_map told_of result ≡ keep (option_map told_of best.entry) (told_of name.entry) }
{
    match best {
        Some(best) if best.at <= name.at => Some(best),
        _ => Some(name),
    }
}

/// The use of a name, of which bits are selected or not: a genvar has a number, and no bits.
pub(crate) fn judge_use<'a, S: Sorts>(
    name: &'a Name,
    selected: bool,
    names: &S,
    best: Option<&'a Name>,
) -> Option<&'a Name>
    ensures { option_map told_of result ≡ after (option_map told_of best.entry)
        (genvar_faults (S.sorts names.now) selected (identifier name.now)) }
{
    match names.sort(&name.text) {
        Some(Known::Integer(number)) if selected || number.is_none() => { keep(best, name) }
        _ => best,
    }
}
