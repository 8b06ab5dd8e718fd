// Generate constructs (IEEE 1364-2001 section 12.1.3 and annex A.4.2).

ghost use Rattle.std.specs.Prelude.{◌≡◌, option_map};
ghost use Rattle.text_survey.specs.Table as spec;
ghost use Rattle.text_survey.specs.TableGenerate as table;
ghost use Rattle.text_survey.specs.Rule as rules;

use super::gate::gates;
use super::item::declared;
use super::{go, unless};
use crate::task::{Move, Taking, Task};
use rtl_tree::symbol::Symbol;

const OPEN: Task = Task::Expect(Symbol::OpenParen);

const CLOSE: Task = Task::Expect(Symbol::CloseParen);

const EQUALS: Task = Task::Expect(Symbol::Equals);

const SEMICOLON: Task = Task::Expect(Symbol::Semicolon);

/// The items of generate constructs that attributes may stand before.
pub fn region(next: Option<Symbol>) -> Option<Move>
    ensures { option_map spec.plain result ≡ table.region next }
{
    match next {
        Some(Symbol::Genvar) => go(Taking::Token, &[Task::Name, Task::Names, SEMICOLON]),
        Some(Symbol::Generate) => go(
            Taking::Node,
            &[
                Task::RegionItems,
                Task::Expect(Symbol::Endgenerate),
                Task::Wrap,
                Task::Join,
            ],
        ),
        _ => gates(next),
    }
}

/// An item; attributes stand before no `if`, `case` or `for`.
fn one_item(next: Option<Symbol>) -> Option<Move>
    ensures { option_map spec.plain result ≡ table.one_item next }
{
    match next {
        Some(Symbol::If) => go(
            Taking::Node,
            &[OPEN, Task::Expression, CLOSE, Task::Made, Task::MadeElse],
        ),
        Some(Symbol::Case) => go(
            Taking::Node,
            &[
                OPEN,
                Task::Expression,
                CLOSE,
                Task::FirstChoice,
                Task::Expect(Symbol::Endcase),
                Task::Wrap,
                Task::Join,
            ],
        ),
        _ => looped(next),
    }
}

fn looped(next: Option<Symbol>) -> Option<Move>
    ensures { option_map spec.plain result ≡ table.looped next }
{
    match next {
        Some(Symbol::For) => go(
            Taking::Node,
            &[
                OPEN,
                Task::Name,
                EQUALS,
                Task::Expression,
                SEMICOLON,
                Task::Expression,
                SEMICOLON,
                Task::Name,
                EQUALS,
                Task::Expression,
                CLOSE,
                Task::Made,
                Task::Wrap,
                Task::Join,
            ],
        ),
        _ => go(Taking::Nothing, &[Task::MarkedItem]),
    }
}

/// What a construct makes.
fn made(next: Option<Symbol>) -> Option<Move>
    ensures { option_map spec.plain result ≡ table.made next }
{
    const END: Task = Task::Expect(Symbol::End);
    match next {
        Some(Symbol::Semicolon) => go(Taking::Node, &[Task::Wrap, Task::Join]),
        Some(Symbol::Begin) => go(
            Taking::Node,
            &[Task::Label, Task::BlockItems, END, Task::Wrap, Task::Join],
        ),
        _ => go(Taking::Nothing, &[Task::Item]),
    }
}

/// The rest of an `if` after its first block: an `else` belongs to the nearest one.
fn made_else(next: Option<Symbol>) -> Option<Move>
    ensures { option_map spec.plain result ≡ table.made_else next }
{
    match next {
        Some(Symbol::Else) => go(Taking::Token, &[Task::Made, Task::Wrap, Task::Join]),
        _ => go(Taking::Nothing, &[Task::Wrap, Task::Join]),
    }
}

fn first_choice(next: Option<Symbol>) -> Option<Move>
    ensures { option_map spec.plain result ≡ table.first_choice next }
{
    match next {
        Some(Symbol::Default) => go(
            Taking::Token,
            &[Task::DefaultColon, Task::Made, Task::LabelledChoices],
        ),
        _ => go(
            Taking::Nothing,
            &[
                Task::Expression,
                Task::Expressions,
                Task::Expect(Symbol::Colon),
                Task::Made,
                Task::Choices,
            ],
        ),
    }
}

fn choices(next: Option<Symbol>) -> Option<Move>
    ensures { option_map spec.plain result ≡ table.choices next }
{
    match next {
        Some(Symbol::Endcase) => go(Taking::Nothing, &[]),
        _ => first_choice(next),
    }
}

/// What stands in generate constructs.
pub fn generate(task: Task, next: Option<Symbol>) -> Option<Move>
    ensures { option_map spec.plain result ≡ rules.generate task next }
{
    match task {
        Task::Item => one_item(next),
        Task::RegionItems => unless(Symbol::Endgenerate, next, &[Task::Item, Task::RegionItems]),
        Task::BlockItems => unless(Symbol::End, next, &[Task::Item, Task::BlockItems]),
        Task::Made => made(next),
        Task::MadeElse => made_else(next),
        Task::FirstChoice => first_choice(next),
        Task::Choices => choices(next),
        Task::LabelledChoices => unless(
            Symbol::Endcase,
            next,
            &[
                Task::Expression,
                Task::Expressions,
                Task::Expect(Symbol::Colon),
                Task::Made,
                Task::LabelledChoices,
            ],
        ),
        _ => declared(task, next),
    }
}
