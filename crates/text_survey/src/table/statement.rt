// Attributes, targets, delays and statements (IEEE 1364-2001 annexes A.6, A.8.5, A.9.1).

ghost use Rattle.std.specs.Prelude.{◌≡◌, option_map};
ghost use Rattle.text_survey.specs.Table as spec;
ghost use Rattle.text_survey.specs.TableStatement as statements;
ghost use Rattle.text_survey.specs.TableItem as items;
ghost use Rattle.text_survey.specs.Rule as rules;

use super::{go, item, optional, required, unless};
use crate::task::{Move, Taking, Task};
use rtl_tree::symbol::Symbol;

fn attribute_constant(next: Option<Symbol>) -> Option<Move>
    ensures { option_map spec.plain result ≡ statements.attribute_constant next }
{
    match next {
        Some(Symbol::Quoted) => go(Taking::Token, &[]),
        _ => go(Taking::Ahead, &[Task::Expression, Task::Forget]),
    }
}

fn target(next: Option<Symbol>) -> Option<Move>
    ensures { option_map spec.plain result ≡ statements.target next }
{
    match next {
        Some(Symbol::Name) => go(Taking::Node, &[Task::Select, Task::Wrap, Task::Join]),
        Some(Symbol::OpenBrace) => go(
            Taking::Node,
            &[
                Task::Target,
                Task::Targets,
                Task::Expect(Symbol::CloseBrace),
                Task::Wrap,
                Task::Join,
            ],
        ),
        _ => None,
    }
}

fn ticks(next: Option<Symbol>) -> Option<Move>
    ensures { option_map spec.plain result ≡ statements.ticks next }
{
    match next {
        Some(Symbol::Number | Symbol::Name) => go(Taking::Token, &[]),
        Some(Symbol::OpenParen) => go(
            Taking::Token,
            &[Task::Expression, Task::Expect(Symbol::CloseParen)],
        ),
        _ => None,
    }
}

fn assigner(next: Option<Symbol>) -> Option<Move>
    ensures { option_map spec.plain result ≡ statements.assigner next }
{
    match next {
        Some(Symbol::Equals | Symbol::LessEquals) => go(Taking::Token, &[]),
        _ => None,
    }
}

/// The statements that begin with a word.
fn worded(next: Option<Symbol>) -> Option<Move>
    ensures { option_map spec.plain result ≡ statements.worded next }
{
    match next {
        Some(Symbol::If) => go(
            Taking::Node,
            &[
                Task::Expect(Symbol::OpenParen),
                Task::Expression,
                Task::Expect(Symbol::CloseParen),
                Task::Statement,
                Task::Else,
            ],
        ),
        Some(Symbol::Case | Symbol::Casez | Symbol::Casex) => go(
            Taking::Node,
            &[
                Task::Expect(Symbol::OpenParen),
                Task::Expression,
                Task::Expect(Symbol::CloseParen),
                Task::FirstBranch,
                Task::Expect(Symbol::Endcase),
                Task::Wrap,
                Task::Join,
            ],
        ),
        Some(Symbol::Begin) => go(
            Taking::Node,
            &[
                Task::Label,
                Task::Statements,
                Task::Expect(Symbol::End),
                Task::Wrap,
                Task::Join,
            ],
        ),
        _ => looped(next),
    }
}

fn looped(next: Option<Symbol>) -> Option<Move>
    ensures { option_map spec.plain result ≡ statements.looped next }
{
    match next {
        Some(Symbol::For) => go(
            Taking::Node,
            &[
                Task::Expect(Symbol::OpenParen),
                Task::Name,
                Task::Expect(Symbol::Equals),
                Task::Expression,
                Task::Expect(Symbol::Semicolon),
                Task::Expression,
                Task::Expect(Symbol::Semicolon),
                Task::Name,
                Task::Expect(Symbol::Equals),
                Task::Expression,
                Task::Expect(Symbol::CloseParen),
                Task::Statement,
                Task::Wrap,
                Task::Join,
            ],
        ),
        _ => None,
    }
}

/// A statement; attributes may stand before it.
fn one_statement(next: Option<Symbol>) -> Option<Move>
    ensures { option_map spec.plain result ≡ statements.one_statement next }
{
    match next {
        Some(Symbol::OpenAttribute) => go(
            Taking::Token,
            &[
                Task::Attribute,
                Task::Attributes,
                Task::Expect(Symbol::CloseAttribute),
                Task::Statement,
            ],
        ),
        Some(Symbol::Semicolon) => go(Taking::Node, &[Task::Wrap, Task::Join]),
        Some(Symbol::Hash) => go(
            Taking::Node,
            &[Task::Ticks, Task::Statement, Task::Wrap, Task::Join],
        ),
        Some(Symbol::Name | Symbol::OpenBrace) => go(
            Taking::Ahead,
            &[
                Task::Target,
                Task::Assigner,
                Task::Delay,
                Task::Expression,
                Task::Expect(Symbol::Semicolon),
                Task::Wrap,
                Task::Join,
            ],
        ),
        _ => worded(next),
    }
}

/// The rest of an `if` after its first statement: an `else` belongs to the nearest one.
fn otherwise(next: Option<Symbol>) -> Option<Move>
    ensures { option_map spec.plain result ≡ statements.otherwise next }
{
    match next {
        Some(Symbol::Else) => go(Taking::Token, &[Task::Statement, Task::Wrap, Task::Join]),
        _ => go(Taking::Nothing, &[Task::Wrap, Task::Join]),
    }
}

/// The items of a case: the first, further ones before the default, and those after it.
fn branch(task: Task, next: Option<Symbol>) -> Option<Move>
    ensures { option_map spec.plain result ≡ rules.branch task next }
{
    match task {
        Task::FirstBranch => first_branch(next),
        Task::Branches => branches(next),
        Task::Labelled => unless(
            Symbol::Endcase,
            next,
            &[
                Task::Expression,
                Task::Expressions,
                Task::Expect(Symbol::Colon),
                Task::Statement,
                Task::Labelled,
            ],
        ),
        Task::DefaultColon => optional(Symbol::Colon, next, &[]),
        _ => item(task, next),
    }
}

fn first_branch(next: Option<Symbol>) -> Option<Move>
    ensures { option_map spec.plain result ≡ statements.first_branch next }
{
    match next {
        Some(Symbol::Default) => go(
            Taking::Token,
            &[Task::DefaultColon, Task::Statement, Task::Labelled],
        ),
        _ => go(
            Taking::Nothing,
            &[
                Task::Expression,
                Task::Expressions,
                Task::Expect(Symbol::Colon),
                Task::Statement,
                Task::Branches,
            ],
        ),
    }
}

fn branches(next: Option<Symbol>) -> Option<Move>
    ensures { option_map spec.plain result ≡ statements.branches next }
{
    match next {
        Some(Symbol::Endcase) => go(Taking::Nothing, &[]),
        _ => first_branch(next),
    }
}

pub fn statement(task: Task, next: Option<Symbol>) -> Option<Move>
    ensures { option_map spec.plain result ≡ rules.statement task next }
{
    match task {
        Task::Attribute => required(Symbol::Name, next, &[Task::AttributeValue]),
        Task::Attributes => optional(Symbol::Comma, next, &[Task::Attribute, Task::Attributes]),
        Task::AttributeValue => optional(Symbol::Equals, next, &[Task::AttributeConstant]),
        Task::AttributeConstant => attribute_constant(next),
        Task::Target => target(next),
        Task::Targets => optional(Symbol::Comma, next, &[Task::Target, Task::Targets]),
        Task::Delay => optional(Symbol::Hash, next, &[Task::Ticks]),
        Task::Ticks => ticks(next),
        Task::Assigner => assigner(next),
        Task::Statement => one_statement(next),
        Task::Else => otherwise(next),
        Task::Label => optional(Symbol::Colon, next, &[Task::Name]),
        Task::Statements => unless(Symbol::End, next, &[Task::Statement, Task::Statements]),
        _ => branch(task, next),
    }
}
