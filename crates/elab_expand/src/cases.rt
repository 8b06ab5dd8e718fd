//! The choices of a generate `case`.

ghost use Rattle.std.specs.Prelude.{◌≡◌, IfOk, map, None};
ghost use Rattle.rtl_tree.specs.TreeExpr.{formula};
ghost use Rattle.rtl_tree.specs.TreeWritten.{choice, choice_row};
ghost use Rattle.elab_expand.specs.Expansions.{choices_judged, labels_judged, matches, pick};
ghost use Rattle.elab_expand.specs.Openings.{tally};
ghost use Rattle.elab_expand.specs.Scoping.{scopes};

use crate::scopes::Scopes;
use crate::tally::Tally;
use rtl_tree::tree::expr::Expr;
use rtl_tree::tree::written::GenerateChoice;
use std::alloc::Global;
use text_ground::memory::Memory;

/// Whether one of these labels has the number; they are worked out up to the first that has it.
fn has_label(
    alloc: Global,
    within: Scopes<'_>,
    at: u32,
    number: i64,
    labels: &[Expr],
    so_far: &mut Tally,
) -> Result<bool, Memory>
    ensures found { IfOk result (λ found. found ≡ matches (scopes within.entry) number (map formula labels.now)) }
    ensures judged { IfOk result (λ _. tally so_far.new
        ≡ labels_judged (scopes within.entry) at number (map formula labels.now) (tally so_far.old)) }
{
    for label in labels {
        if let Ok(other) = so_far.judge(alloc, within, at, label)? {
            if other == number {
                return Ok(true);
            }
        }
    }
    Ok(false)
}

/// Which choice is taken: the first with an equal label, else the default.
pub(crate) fn pick(
    alloc: Global,
    within: Scopes<'_>,
    at: u32,
    number: i64,
    choices: &[GenerateChoice],
    so_far: &mut Tally,
) -> Result<Option<usize>, Memory>
    ensures found { IfOk result (λ found.
        found ≡ pick (scopes within.entry) number 0 (choice_row (map choice choices.now)) None) }
    ensures judged { IfOk result (λ _. tally so_far.new
        ≡ choices_judged (scopes within.entry) at number (choice_row (map choice choices.now)) (tally so_far.old)) }
{
    let mut default = None;
    for (place, one) in choices.iter().enumerate() {
        match one {
            GenerateChoice::Labelled(labels, _) => {
                if has_label(alloc, within, at, number, labels, so_far)? {
                    return Ok(Some(place));
                }
            }
            GenerateChoice::Default(_, _) => default = Some(place),
        }
    }
    Ok(default)
}
