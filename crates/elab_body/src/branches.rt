//! The branches of an `if` that are left.

ghost use Rattle.std.specs.Prelude.{◌≡◌};
ghost use Rattle.rtl_const.specs.Constant.{constant, is_true};
ghost use Rattle.rtl_tree.specs.TreeExpr.{formula};
ghost use Rattle.elab_nodes.specs.elab_scope.Expressions.{faults};
ghost use Rattle.elab_nodes.specs.elab_scope.Names.{meanings, numbers_in};
ghost use Rattle.elab_nodes.specs.Nodes.{node_count};
ghost use Rattle.elab_body.specs.Courses.{chosen, condition_steps, course, goes_on};
ghost use Rattle.elab_body.specs.Steps.{passed};

use crate::progress::Progress;
use elab_nodes::elab_scope::names::Names;
use rtl_const::evaluate::constant;
use rtl_const::fault::ConstFault;
use rtl_tree::tree::expr::Expr;

/// The branches of an `if` that are left.
#[derive(Clone, Copy, PartialEq, Eq, Debug)]
pub enum Chosen {
    /// The condition is constant and true.
    Taken,
    /// The condition is constant and false.
    Otherwise,
    /// The condition isn't constant.
    Both,
}

fn is_true(number: i64) -> bool
    ensures { result ≡ is_true number }
{
    number != 0
}

/// The branches that a condition leaves.
pub fn branches_of(condition: Result<i64, ConstFault>) -> Chosen
    ensures { result ≡ chosen condition }
{
    match condition {
        Ok(number) if is_true(number) => Chosen::Taken,
        Ok(_) => Chosen::Otherwise,
        Err(_) => Chosen::Both,
    }
}

/// Whether a loop goes on.
pub fn goes_on(condition: Result<i64, ConstFault>) -> bool
    ensures { result ≡ goes_on condition }
{
    match condition {
        Ok(number) => is_true(number),
        Err(_) => false,
    }
}

/// The condition of an `if`, which counts where both branches are left.
pub(crate) fn judge_condition<'a>(
    at: u32,
    condition: &'a Expr,
    names: &Names,
    so_far: Progress<'a>,
) -> Progress<'a>
    ensures { course result ≡ passed (course so_far.entry)
        (condition_steps at (constant (numbers_in (meanings names.now)) (formula condition.now))
        (node_count (meanings names.now) (formula condition.now))
        (faults (meanings names.now) (formula condition.now))) }
{
    match constant(condition, names) {
        Ok(_) => so_far.judge(condition, names),
        Err(_) => {
            let so_far = so_far.count(at);
            so_far
                .spend_expression(at, condition, names)
                .judge(condition, names)
        }
    }
}
