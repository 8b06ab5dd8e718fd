// Gates (IEEE 1364-2001 annex A.3).

ghost use Rattle.std.specs.Prelude.{◌≡◌, option_map};
ghost use Rattle.text_survey.specs.Table as spec;
ghost use Rattle.text_survey.specs.TableGate as table;
ghost use Rattle.text_survey.specs.Rule as rules;

use super::item::instance;
use super::{go, optional};
use crate::task::{Level, Move, Taking, Task};
use rtl_tree::symbol::Symbol;

const OPEN: Task = Task::Expect(Symbol::OpenParen);

const CLOSE: Task = Task::Expect(Symbol::CloseParen);

const COMMA: Task = Task::Expect(Symbol::Comma);

/// An item of gates.
pub fn gates(next: Option<Symbol>) -> Option<Move>
    ensures { option_map spec.plain result ≡ table.gates next }
{
    const SEMICOLON: Task = Task::Expect(Symbol::Semicolon);
    match next {
        Some(Symbol::And | Symbol::Nand | Symbol::Or)
        | Some(Symbol::Nor | Symbol::Xor | Symbol::Xnor) => go(
            Taking::Token,
            &[Task::GateDelay, Task::Gate, Task::Gates, SEMICOLON],
        ),
        Some(Symbol::Buf | Symbol::Not) => go(
            Taking::Token,
            &[Task::GateDelay, Task::Buffer, Task::Buffers, SEMICOLON],
        ),
        _ => None,
    }
}

fn gate_ticks(next: Option<Symbol>) -> Option<Move>
    ensures { option_map spec.plain result ≡ table.gate_ticks next }
{
    match next {
        Some(Symbol::Number | Symbol::Name) => go(Taking::Token, &[]),
        Some(Symbol::OpenParen) => go(Taking::Token, &[Task::Expression, Task::Fall, CLOSE]),
        _ => None,
    }
}

/// Where a name comes, it may be an output, and then a comma may follow it.
fn output_or_input(next: Option<Symbol>) -> Option<Move>
    ensures { option_map spec.plain result ≡ table.output_or_input next }
{
    match next {
        Some(Symbol::Name) => go(Taking::Node, &[Task::Select, Task::Wrap, Task::AfterName]),
        _ => go(Taking::Nothing, &[Task::Expression]),
    }
}

/// After a comma further terminals; else the rest of an expression that begins with the name.
fn after_name(next: Option<Symbol>) -> Option<Move>
    ensures { option_map spec.plain result ≡ table.after_name next }
{
    use Task::Chain;
    match next {
        Some(Symbol::Comma) => go(Taking::Token, &[Task::Join, Task::OutputOrInput]),
        _ => go(
            Taking::Nothing,
            &[
                Chain(Level::Power),
                Chain(Level::Product),
                Chain(Level::Sum),
                Chain(Level::Shift),
                Chain(Level::Comparison),
                Chain(Level::Equality),
                Chain(Level::And),
                Chain(Level::Xor),
                Chain(Level::Or),
                Chain(Level::LogicalAnd),
                Chain(Level::LogicalOr),
                Task::Choice,
                Task::Join,
            ],
        ),
    }
}

/// What stands in items of gates.
pub fn gate(task: Task, next: Option<Symbol>) -> Option<Move>
    ensures { option_map spec.plain result ≡ rules.gate task next }
{
    use Task::{Buffer, Buffers, Expression, Expressions, Gate, GateName, Gates, OutputOrInput};
    match task {
        Task::GateDelay => optional(Symbol::Hash, next, &[Task::GateTicks]),
        Task::GateTicks => gate_ticks(next),
        Task::Fall => optional(Symbol::Comma, next, &[Expression]),
        GateName => optional(Symbol::Name, next, &[]),
        Gate => go(
            Taking::Nothing,
            &[
                GateName,
                OPEN,
                Task::Target,
                COMMA,
                Expression,
                Expressions,
                CLOSE,
            ],
        ),
        Gates => optional(Symbol::Comma, next, &[Gate, Gates]),
        Buffer => go(
            Taking::Nothing,
            &[GateName, OPEN, Task::Target, COMMA, OutputOrInput, CLOSE],
        ),
        Buffers => optional(Symbol::Comma, next, &[Buffer, Buffers]),
        OutputOrInput => output_or_input(next),
        Task::AfterName => after_name(next),
        _ => instance(task, next),
    }
}
