//! The faults of expressions.

ghost use Rattle.std.specs.Prelude.{◌≡◌, ◌++◌, map};
ghost use Rattle.std.specs.Option.{option_map};
ghost use Rattle.rtl_const.specs.Constant.{constant};
ghost use Rattle.rtl_tree.specs.TreeExpr.{Concat, Parens, Read, ReadBit, ReadPart, Unary, formula, formula_row, identifier};
ghost use Rattle.elab_scope.specs.Expressions.{constant_faults, faults, row_faults};
ghost use Rattle.elab_scope.specs.Faults.{after, refusal};
ghost use Rattle.elab_scope.specs.Names.{meanings, numbers_in};
ghost use Rattle.elab_scope.specs.Own.{breadth, function_breadth, operation_breadth, prefix_breadth, row_breadth};
ghost use Rattle.elab_scope.specs.Powers.{operation_faults, power_faults};
ghost use Rattle.elab_scope.specs.Rules.{function_faults, part_faults, run_faults, width_faults};
ghost use Rattle.elab_scope.specs.Selects.{lsb_in, msb_in};
ghost use Rattle.elab_scope.specs.Widths.{fit, repeated};

use crate::fault::Fault;
use crate::names::Names;
use crate::operators::{Operation, Prefix, binary, unary};
use crate::own::{function_breadth, name_breadth, part_breadth};
use crate::selects::ends_of;
use crate::widths::{Breadth, breadth_of};
use crate::{powers, rules};
use rtl_const::evaluate::constant;
use rtl_const::fault::ConstFault;
use rtl_tree::tree::expr::Expr;
use rtl_tree::tree::names::Name;
use rtl_tree::tree::operators::{PartKind, SystemFunction, UnaryOperator};

/// What is found of an expression.
#[derive(Clone, Copy)]
pub struct Judged<'a> {
    /// How many bits it has by itself.
    pub breadth: Breadth,
    /// The fault that is told after its own.
    pub best: Option<Fault<'a>>,
}

/// An expression of this breadth, after the faults of its parts.
fn whole<'a>(at: u32, breadth: Breadth, best: Option<Fault<'a>>) -> Judged<'a>
    ensures breadth { result.breadth ≡ breadth }
    ensures best { option_map refusal result.best
        ≡ after (option_map refusal best.entry) (width_faults at breadth) }
{
    Judged {
        breadth,
        best: rules::width(at, breadth, best),
    }
}

/// The faults of an expression, after `best`, and how many bits it has by itself.
#[cycle(judge)]
#[tactic(auto, using(crate::proofs::Least::after_append, crate::proofs::Views::concat_breadth))]
pub fn judge<'a>(e: &'a Expr, names: &Names, best: Option<Fault<'a>>) -> Judged<'a>
    ensures breadth { result.breadth ≡ breadth (meanings names.now) (formula e.now) }
    ensures best { option_map refusal result.best
        ≡ after (option_map refusal best.entry) (faults (meanings names.now) (formula e.now)) }
{
    match e {
        Expr::Number(value, at) => whole(*at, breadth_of(u32::from(value.width)), best),
        Expr::Read(name) => judge_name(name, names, best),
        Expr::ReadBit(name, index) => judge_bit(name, index, names, best),
        Expr::ReadPart(name, kind, first, second) => {
            let best = rules::select(name, names.find(&name.text), best);
            let best = judge_constant(first, names, best);
            let best = judge_constant(second, names, best);
            judge_part(name, *kind, first, second, names, best)
        }
        Expr::Parens(at, inner) => judge_inner(*at, inner, names, best),
        Expr::Apply(function, at, inner) => {
            let inner = judge(inner, names, best);
            applied(*function, *at, e, names, inner)
        }
        Expr::Concat(at, parts) => judge_concat(*at, parts, names, best),
        Expr::Repeat(at, times, parts) => {
            let best = judge(times, names, best).best;
            let times = constant(times, names);
            judge_copies(*at, times, parts, names, rules::times(*at, times, best))
        }
        Expr::Unary(operator, at, operand) => judge_unary(*operator, *at, operand, names, best),
        Expr::Binary(operator, at, left, right) => {
            let operation = binary(*operator);
            let first = judge(left, names, best);
            let second = judge(right, names, first.best);
            let breadth = combined(operation, first.breadth, second.breadth);
            let judged = whole(*at, breadth, second.best);
            operated(operation, *at, left, e, names, judged)
        }
        Expr::Choose(at, condition, taken, otherwise) => {
            let condition = judge(condition, names, best);
            let taken = judge(taken, names, condition.best);
            let otherwise = judge(otherwise, names, taken.best);
            whole(*at, taken.breadth.wider(otherwise.breadth), otherwise.best)
        }
    }
}

/// A name that is read whole.
fn judge_name<'a>(name: &'a Name, names: &Names, best: Option<Fault<'a>>) -> Judged<'a>
    ensures breadth { result.breadth ≡ breadth (meanings names.now) (Read (identifier name.now)) }
    ensures best { option_map refusal result.best ≡ after (option_map refusal best.entry)
        (faults (meanings names.now) (Read (identifier name.now))) }
{
    let known = names.find(&name.text);
    Judged {
        breadth: name_breadth(known),
        best: rules::read(name, known, best),
    }
}

/// A bit that is selected.
#[cycle(judge)]
#[tactic(auto, using(crate::proofs::Least::after_append))]
fn judge_bit<'a>(
    name: &'a Name,
    index: &'a Expr,
    names: &Names,
    best: Option<Fault<'a>>,
) -> Judged<'a>
    ensures breadth { result.breadth
        ≡ breadth (meanings names.now) (ReadBit (identifier name.now) (formula index.now)) }
    ensures best { option_map refusal result.best ≡ after (option_map refusal best.entry)
        (faults (meanings names.now) (ReadBit (identifier name.now) (formula index.now))) }
{
    let best = rules::select(name, names.find(&name.text), best);
    Judged {
        breadth: Breadth::Bits(1),
        best: judge(index, names, best).best,
    }
}

/// A part that is selected, where the name and the ends by themselves are judged before.
#[tactic(auto, using(crate::proofs::Least::after_append))]
pub(crate) fn judge_part<'a>(
    name: &'a Name,
    kind: PartKind,
    first: &Expr,
    second: &Expr,
    names: &Names,
    best: Option<Fault<'a>>,
) -> Judged<'a>
    ensures breadth { result.breadth ≡ breadth (meanings names.now)
        (ReadPart (identifier name.now) kind (formula first.now) (formula second.now)) }
    ensures best { let scope = meanings names.now in
        option_map refusal result.best ≡ after (option_map refusal best.entry)
        (run_faults name.now.at kind (constant (numbers_in scope) (formula second.now))
        ++ part_faults name.now.at (scope name.now.text)
        (msb_in scope kind (formula first.now) (formula second.now))
        (lsb_in scope kind (formula first.now) (formula second.now))) }
{
    let known = names.find(&name.text);
    let ends = ends_of(kind, first, second, names);
    let best = rules::run(name.at, kind, constant(second, names), best);
    Judged {
        breadth: part_breadth(known, ends.msb, ends.lsb),
        best: rules::part(name.at, known, ends.msb, ends.lsb, best),
    }
}

/// A function of the system, where its argument is judged before.
#[tactic(auto, using(crate::proofs::Least::after_append))]
fn applied<'a>(
    function: SystemFunction,
    at: u32,
    e: &Expr,
    names: &Names,
    argument: Judged<'a>,
) -> Judged<'a>
    ensures breadth { result.breadth ≡ function_breadth function argument.entry.breadth }
    ensures best { option_map refusal result.best ≡ after (option_map refusal argument.entry.best)
        (width_faults at (function_breadth function argument.entry.breadth)
        ++ function_faults function (constant (numbers_in (meanings names.now)) (formula e.now))) }
{
    let judged = whole(
        at,
        function_breadth(function, argument.breadth),
        argument.best,
    );
    Judged {
        breadth: judged.breadth,
        best: rules::function(function, constant(e, names), judged.best),
    }
}

/// An operator between operands, where all but the faults of a power is judged before.
fn operated<'a>(
    operation: Operation,
    at: u32,
    left: &Expr,
    e: &Expr,
    names: &Names,
    judged: Judged<'a>,
) -> Judged<'a>
    ensures breadth { result.breadth ≡ judged.entry.breadth }
    ensures best { option_map refusal result.best ≡ after (option_map refusal judged.entry.best)
        (operation_faults operation (power_faults (meanings names.now) at (formula left.now)
        (formula e.now))) }
{
    match operation {
        Operation::Power => Judged {
            breadth: judged.breadth,
            best: powers::power(at, left, e, names, judged.best),
        },
        _ => judged,
    }
}

/// An expression in parentheses.
#[cycle(judge)]
#[tactic(auto, using(crate::proofs::Least::after_append))]
fn judge_inner<'a>(at: u32, inner: &'a Expr, names: &Names, best: Option<Fault<'a>>) -> Judged<'a>
    ensures breadth { result.breadth ≡ breadth (meanings names.now) (Parens at (formula inner.now)) }
    ensures best { option_map refusal result.best ≡ after (option_map refusal best.entry)
        (faults (meanings names.now) (Parens at (formula inner.now))) }
{
    let inner = judge(inner, names, best);
    whole(at, inner.breadth, inner.best)
}

/// A concatenation.
#[cycle(judge)]
#[tactic(auto, using(crate::proofs::Least::after_append))]
fn judge_concat<'a>(
    at: u32,
    parts: &'a [Expr],
    names: &Names,
    best: Option<Fault<'a>>,
) -> Judged<'a>
    ensures breadth { result.breadth
        ≡ breadth (meanings names.now) (Concat at (formula_row (map formula parts.now))) }
    ensures best { option_map refusal result.best ≡ after (option_map refusal best.entry)
        (faults (meanings names.now) (Concat at (formula_row (map formula parts.now)))) }
{
    let parts = judge_row(parts, names, best);
    whole(at, parts.breadth.fit(), parts.best)
}

/// What is repeated this often, where the number of times is judged before.
#[cycle(judge)]
#[tactic(auto, using(crate::proofs::Least::after_append))]
fn judge_copies<'a>(
    at: u32,
    times: Result<i64, ConstFault>,
    parts: &'a [Expr],
    names: &Names,
    best: Option<Fault<'a>>,
) -> Judged<'a>
    ensures breadth { let row = formula_row (map formula parts.now) in
        result.breadth ≡ repeated times (fit (row_breadth (meanings names.now) row)) }
    ensures best { let row = formula_row (map formula parts.now) in
        option_map refusal result.best ≡ after (option_map refusal best.entry)
        (row_faults (meanings names.now) row
        ++ width_faults at (repeated times (fit (row_breadth (meanings names.now) row)))) }
{
    let parts = judge_row(parts, names, best);
    whole(at, parts.breadth.fit().repeated(times), parts.best)
}

/// An operator before its operand.
#[cycle(judge)]
#[tactic(auto, using(crate::proofs::Least::after_append))]
fn judge_unary<'a>(
    operator: UnaryOperator,
    at: u32,
    operand: &'a Expr,
    names: &Names,
    best: Option<Fault<'a>>,
) -> Judged<'a>
    ensures breadth { result.breadth
        ≡ breadth (meanings names.now) (Unary operator at (formula operand.now)) }
    ensures best { option_map refusal result.best ≡ after (option_map refusal best.entry)
        (faults (meanings names.now) (Unary operator at (formula operand.now))) }
{
    let operand = judge(operand, names, best);
    whole(at, prefixed(unary(operator), operand.breadth), operand.best)
}

/// How many bits an operand makes.
fn prefixed(operator: Prefix, operand: Breadth) -> Breadth
    ensures { result ≡ prefix_breadth operator operand }
{
    match operator {
        Prefix::Turn(_) => operand,
        Prefix::Fold(_) => Breadth::Bits(1),
    }
}

/// How many bits two operands make.
fn combined(operation: Operation, left: Breadth, right: Breadth) -> Breadth
    ensures { result ≡ operation_breadth operation left right }
{
    match operation {
        Operation::Join(_) => left.wider(right),
        Operation::Compare(_) | Operation::Link(_) => Breadth::Bits(1),
        Operation::Shift(_) | Operation::Power => left,
    }
}

/// The faults of an expression that has to be constant.
#[cycle(judge)]
#[tactic(auto, using(crate::proofs::Least::after_append))]
pub fn judge_constant<'a>(e: &'a Expr, names: &Names, best: Option<Fault<'a>>) -> Option<Fault<'a>>
    ensures { option_map refusal result
        ≡ after (option_map refusal best.entry)
        (constant_faults (meanings names.now) (formula e.now)) }
{
    rules::number(constant(e, names), judge(e, names, best).best)
}

/// The faults of parts that stand beside one another.
#[cycle(judge)]
#[tactic(auto, using(crate::proofs::Least::after_append, crate::proofs::Views::beside_beside, crate::proofs::Views::beside_none, crate::proofs::Views::row_alone))]
fn judge_row<'a>(parts: &'a [Expr], names: &Names, best: Option<Fault<'a>>) -> Judged<'a>
    ensures breadth { result.breadth
        ≡ row_breadth (meanings names.now) (formula_row (map formula parts.now)) }
    ensures best { option_map refusal result.best
        ≡ after (option_map refusal best.entry)
        (row_faults (meanings names.now) (formula_row (map formula parts.now))) }
{
    let mut breadth = Breadth::Bits(0);
    let mut best = best;
    for part in parts {
        let part = judge(part, names, best);
        breadth = breadth.beside(part.breadth);
        best = part.best;
    }
    Judged { breadth, best }
}
