// Expressions (IEEE 1364-2001 annexes A.8.3 and A.8.4).

ghost use Rattle.std.specs.Prelude.{◌≡◌, option_map};
ghost use Rattle.text_survey.specs.Table as spec;
ghost use Rattle.text_survey.specs.TableItem as items;
ghost use Rattle.text_survey.specs.Rule as rules;

use super::{go, optional, statement};
use crate::task::{Level, Move, Taking, Task};
use rtl_tree::symbol::Symbol;

impl Level {
    fn rank(self) -> u8
        ensures { result ≡ spec.rank self }
    {
        match self {
            Level::Operand => 0,
            Level::Power => 1,
            Level::Product => 2,
            Level::Sum => 3,
            Level::Shift => 4,
            Level::Comparison => 5,
            Level::Equality => 6,
            Level::And => 7,
            Level::Xor => 8,
            Level::Or => 9,
            Level::LogicalAnd => 10,
            Level::LogicalOr => 11,
        }
    }
}

/// The rank of the operator that comes next: 0 for a select, 12 for `?`, 13 where an expression ends.
fn looseness(next: Option<Symbol>) -> u8
    ensures { result ≡ spec.looseness next }
{
    match next {
        Some(Symbol::OpenBracket) => 0,
        Some(Symbol::StarStar) => 1,
        Some(Symbol::Star | Symbol::Slash | Symbol::Percent) => 2,
        Some(Symbol::Plus | Symbol::Minus) => 3,
        Some(Symbol::ShiftLeft | Symbol::ShiftRight) => 4,
        Some(Symbol::ArithmeticShiftLeft | Symbol::ArithmeticShiftRight) => 4,
        Some(Symbol::Less | Symbol::LessEquals | Symbol::Greater | Symbol::GreaterEquals) => 5,
        Some(Symbol::EqualEquals | Symbol::BangEquals) => 6,
        Some(Symbol::CaseEquals | Symbol::CaseBangEquals) => 6,
        Some(Symbol::Ampersand) => 7,
        Some(Symbol::Caret | Symbol::TildeCaret) => 8,
        Some(Symbol::Bar) => 9,
        Some(Symbol::AndAnd) => 10,
        Some(Symbol::OrOr) => 11,
        Some(Symbol::Question) => 12,
        _ => 13,
    }
}

fn operand(next: Option<Symbol>) -> Option<Move>
    ensures { option_map spec.plain result ≡ spec.operand next }
{
    match next {
        Some(Symbol::Number) => go(Taking::Node, &[Task::Wrap]),
        Some(Symbol::Name) => go(Taking::Node, &[Task::Select, Task::Wrap]),
        Some(Symbol::OpenParen) => go(
            Taking::Node,
            &[
                Task::Expression,
                Task::Expect(Symbol::CloseParen),
                Task::Wrap,
            ],
        ),
        Some(Symbol::ToSigned | Symbol::ToUnsigned | Symbol::Clog2) => go(
            Taking::Node,
            &[
                Task::Expect(Symbol::OpenParen),
                Task::Expression,
                Task::Expect(Symbol::CloseParen),
                Task::Wrap,
            ],
        ),
        Some(Symbol::OpenBrace) => go(Taking::Node, &[Task::Expression, Task::Parts, Task::Wrap]),
        _ => signed(next),
    }
}

/// An operand after the operator before it.
fn signed(next: Option<Symbol>) -> Option<Move>
    ensures { option_map spec.plain result ≡ spec.signed next }
{
    match next {
        Some(Symbol::Plus | Symbol::Minus | Symbol::Bang | Symbol::Tilde)
        | Some(Symbol::Ampersand | Symbol::TildeAmpersand | Symbol::Bar)
        | Some(Symbol::TildeBar | Symbol::Caret | Symbol::TildeCaret) => go(
            Taking::Operator,
            &[Task::Level(Level::Operand), Task::Wrap],
        ),
        _ => None,
    }
}

fn leveled(level: Level, next: Option<Symbol>) -> Option<Move>
    ensures { option_map spec.plain result ≡ spec.leveled level next }
{
    use Level::{
        And, Comparison, Equality, LogicalAnd, LogicalOr, Operand, Or, Power, Product, Shift, Sum,
        Xor,
    };
    use Task::Chain;
    match level {
        Operand => operand(next),
        Power => go(Taking::Nothing, &[Task::Level(Operand), Chain(Power)]),
        Product => go(Taking::Nothing, &[Task::Level(Power), Chain(Product)]),
        Sum => go(Taking::Nothing, &[Task::Level(Product), Chain(Sum)]),
        Shift => go(Taking::Nothing, &[Task::Level(Sum), Chain(Shift)]),
        Comparison => go(Taking::Nothing, &[Task::Level(Shift), Chain(Comparison)]),
        Equality => go(Taking::Nothing, &[Task::Level(Comparison), Chain(Equality)]),
        And => go(Taking::Nothing, &[Task::Level(Equality), Chain(And)]),
        Xor => go(Taking::Nothing, &[Task::Level(And), Chain(Xor)]),
        Or => go(Taking::Nothing, &[Task::Level(Xor), Chain(Or)]),
        LogicalAnd => go(Taking::Nothing, &[Task::Level(Or), Chain(LogicalAnd)]),
        LogicalOr => go(
            Taking::Nothing,
            &[Task::Level(LogicalAnd), Chain(LogicalOr)],
        ),
    }
}

/// An operator of this level with its right operand, and further ones.
fn link(level: Level) -> Option<Move>
    ensures { option_map spec.plain result ≡ spec.link level }
{
    use Level::{
        And, Comparison, Equality, LogicalAnd, LogicalOr, Operand, Or, Power, Product, Shift, Sum,
        Xor,
    };
    use Taking::Operator;
    use Task::{Chain, Join, Wrap};
    match level {
        Operand => go(
            Operator,
            &[Task::Level(Operand), Join, Wrap, Chain(Operand)],
        ),
        Power => go(Operator, &[Task::Level(Operand), Join, Wrap, Chain(Power)]),
        Product => go(Operator, &[Task::Level(Power), Join, Wrap, Chain(Product)]),
        Sum => go(Operator, &[Task::Level(Product), Join, Wrap, Chain(Sum)]),
        Shift => go(Operator, &[Task::Level(Sum), Join, Wrap, Chain(Shift)]),
        Comparison => go(
            Operator,
            &[Task::Level(Shift), Join, Wrap, Chain(Comparison)],
        ),
        Equality => go(
            Operator,
            &[Task::Level(Comparison), Join, Wrap, Chain(Equality)],
        ),
        And => go(Operator, &[Task::Level(Equality), Join, Wrap, Chain(And)]),
        Xor => go(Operator, &[Task::Level(And), Join, Wrap, Chain(Xor)]),
        Or => go(Operator, &[Task::Level(Xor), Join, Wrap, Chain(Or)]),
        LogicalAnd => go(Operator, &[Task::Level(Or), Join, Wrap, Chain(LogicalAnd)]),
        LogicalOr => go(
            Operator,
            &[Task::Level(LogicalAnd), Join, Wrap, Chain(LogicalOr)],
        ),
    }
}

fn chain(level: Level, next: Option<Symbol>) -> Option<Move>
    ensures { option_map spec.plain result ≡ spec.chain level next }
{
    if looseness(next) == level.rank() {
        link(level)
    } else {
        go(Taking::Nothing, &[])
    }
}

fn choice(next: Option<Symbol>) -> Option<Move>
    ensures { option_map spec.plain result ≡ spec.choice next }
{
    match next {
        Some(Symbol::Question) => go(
            Taking::Operator,
            &[
                Task::Expression,
                Task::Expect(Symbol::Colon),
                Task::Expression,
                Task::Wrap,
            ],
        ),
        _ => go(Taking::Nothing, &[]),
    }
}

fn select_end(next: Option<Symbol>) -> Option<Move>
    ensures { option_map spec.plain result ≡ spec.select_end next }
{
    match next {
        Some(Symbol::CloseBracket) => go(Taking::Token, &[]),
        Some(Symbol::Colon | Symbol::PlusColon | Symbol::MinusColon) => go(
            Taking::Token,
            &[Task::Expression, Task::Expect(Symbol::CloseBracket)],
        ),
        _ => None,
    }
}

fn parts(next: Option<Symbol>) -> Option<Move>
    ensures { option_map spec.plain result ≡ spec.parts next }
{
    match next {
        Some(Symbol::OpenBrace) => go(
            Taking::Token,
            &[
                Task::Expression,
                Task::Expressions,
                Task::Expect(Symbol::CloseBrace),
                Task::Expect(Symbol::CloseBrace),
            ],
        ),
        _ => go(
            Taking::Nothing,
            &[Task::Expressions, Task::Expect(Symbol::CloseBrace)],
        ),
    }
}

pub fn expression(task: Task, next: Option<Symbol>) -> Option<Move>
    ensures { option_map spec.plain result ≡ rules.expression task next }
{
    match task {
        Task::Expression => go(
            Taking::Nothing,
            &[Task::Level(Level::LogicalOr), Task::Choice, Task::Join],
        ),
        Task::Level(k) => leveled(k, next),
        Task::Chain(k) => chain(k, next),
        Task::Choice => choice(next),
        Task::Select => optional(
            Symbol::OpenBracket,
            next,
            &[Task::Expression, Task::SelectEnd],
        ),
        Task::SelectEnd => select_end(next),
        Task::Parts => parts(next),
        Task::Expressions => optional(Symbol::Comma, next, &[Task::Expression, Task::Expressions]),
        _ => statement(task, next),
    }
}
