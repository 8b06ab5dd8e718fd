// The terminals of gates have one bit each.

ghost use Rattle.std.specs.Prelude.{◌≡◌, map};
ghost use Rattle.std.specs.Option.{option_map};
ghost use Rattle.rtl_tree.specs.TreeExpr.{formula};
ghost use Rattle.rtl_tree.specs.TreeItem.{gate_drive};
ghost use Rattle.rtl_tree.specs.TreeStmt.{target};
ghost use Rattle.elab_body.specs.elab_scope.Faults.{after, refusal};
ghost use Rattle.elab_body.specs.elab_scope.Names.{meanings};
ghost use Rattle.elab_parts.specs.Gates.{gate_faults, input_faults, one_bit_faults, output_faults, terminal_faults};

use elab_body::elab_scope::fault::{Cause, Fault};
use elab_body::elab_scope::names::Names;
use elab_body::elab_scope::own::breadth;
use elab_body::elab_scope::targets::breadth_of_target;
use elab_body::elab_scope::widths::Breadth;
use rtl_tree::tree::expr::Expr;
use rtl_tree::tree::item::GateDrive;
use rtl_tree::tree::stmt::Lvalue;

/// A terminal at a place.
fn judge_terminal<'a>(at: u32, breadth: Breadth, best: Option<Fault<'a>>) -> Option<Fault<'a>>
    ensures { option_map refusal result
        ≡ after (option_map refusal best.entry) (one_bit_faults at breadth) }
{
    match breadth {
        Breadth::Bits(1) | Breadth::Hidden => best,
        Breadth::Bits(_) | Breadth::Unfit => {
            let cause = Cause::Width;
            Fault::keep(best, Fault { at, cause })
        }
    }
}

/// The inputs of a gate.
#[tactic(auto, using(crate::proofs::Borrowed::after_append))]
fn judge_inputs<'a>(value: &Expr, names: &Names, best: Option<Fault<'a>>) -> Option<Fault<'a>>
    ensures { option_map refusal result
        ≡ after (option_map refusal best.entry)
        (input_faults (meanings names.now) (formula value.now)) }
{
    match value {
        Expr::Parens(_, inner) => judge_terminal(inner.place(), breadth(inner, names), best),
        Expr::Unary(_, _, operand) => judge_inputs(operand, names, best),
        Expr::Binary(_, _, left, right) => {
            let best = judge_inputs(left, names, best);
            judge_inputs(right, names, best)
        }
        Expr::Number(..)
        | Expr::Read(..)
        | Expr::ReadBit(..)
        | Expr::ReadPart(..)
        | Expr::Apply(..)
        | Expr::Concat(..)
        | Expr::Repeat(..)
        | Expr::Choose(..) => best,
    }
}

#[tactic(auto, using(crate::proofs::Borrowed::after_append))]
fn judge_outputs<'a>(
    outputs: &[Lvalue],
    names: &Names,
    best: Option<Fault<'a>>,
) -> Option<Fault<'a>>
    ensures { option_map refusal result
        ≡ after (option_map refusal best.entry)
        (output_faults (meanings names.now) (map target outputs.now)) }
{
    let mut best = best;
    for output in outputs {
        best = judge_terminal(output.place(), breadth_of_target(output, names), best);
    }
    best
}

#[tactic(auto, using(crate::proofs::Borrowed::after_append))]
fn judge_gate<'a>(drive: &GateDrive, names: &Names, best: Option<Fault<'a>>) -> Option<Fault<'a>>
    ensures { option_map refusal result
        ≡ after (option_map refusal best.entry)
        (gate_faults (meanings names.now) (gate_drive drive.now)) }
{
    let best = judge_outputs(&drive.outputs, names, best);
    judge_inputs(&drive.value, names, best)
}

/// The terminals of gates.
#[tactic(auto, using(crate::proofs::Borrowed::after_append))]
pub fn judge_terminals<'a>(
    drives: &[GateDrive],
    names: &Names,
    best: Option<Fault<'a>>,
) -> Option<Fault<'a>>
    ensures { option_map refusal result
        ≡ after (option_map refusal best.entry)
        (terminal_faults (meanings names.now) (map gate_drive drives.now)) }
{
    let mut best = best;
    for drive in drives {
        best = judge_gate(drive, names, best);
    }
    best
}
