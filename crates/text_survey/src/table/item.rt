// Items of modules (IEEE 1364-2001 annexes A.1.5, A.2, A.4 and A.6).

ghost use Rattle.std.specs.Prelude.{◌≡◌, option_map};
ghost use Rattle.text_survey.specs.Table as spec;
ghost use Rattle.text_survey.specs.TableItem as items;
ghost use Rattle.text_survey.specs.Rule as rules;

use super::gate::gate;
use super::generate::{generate, region};
use super::{go, modules, optional, required, unless};
use crate::task::{Move, Taking, Task};
use rtl_tree::symbol::Symbol;

fn declaration(next: Option<Symbol>) -> Option<Move>
    ensures { option_map spec.plain result ≡ items.declaration next }
{
    match next {
        Some(Symbol::Input | Symbol::Output) => go(
            Taking::Token,
            &[
                Task::PortKind,
                Task::Sign,
                Task::Range,
                Task::Name,
                Task::Names,
                Task::Expect(Symbol::Semicolon),
            ],
        ),
        Some(Symbol::Wire) => go(
            Taking::Token,
            &[
                Task::Sign,
                Task::Range,
                Task::Net,
                Task::Nets,
                Task::Expect(Symbol::Semicolon),
            ],
        ),
        Some(Symbol::Reg) => go(
            Taking::Token,
            &[
                Task::Sign,
                Task::Range,
                Task::Variable,
                Task::Variables,
                Task::Expect(Symbol::Semicolon),
            ],
        ),
        _ => plain_declaration(next),
    }
}

fn plain_declaration(next: Option<Symbol>) -> Option<Move>
    ensures { option_map spec.plain result ≡ items.plain_declaration next }
{
    match next {
        Some(Symbol::Integer) => go(
            Taking::Token,
            &[Task::Name, Task::Names, Task::Expect(Symbol::Semicolon)],
        ),
        Some(Symbol::Parameter | Symbol::Localparam) => go(
            Taking::Token,
            &[
                Task::Range,
                Task::Setting,
                Task::Settings,
                Task::Expect(Symbol::Semicolon),
            ],
        ),
        _ => region(next),
    }
}

/// An item that attributes may stand before.
pub fn marked_item(next: Option<Symbol>) -> Option<Move>
    ensures { option_map spec.plain result ≡ items.marked_item next }
{
    match next {
        Some(Symbol::OpenAttribute) => go(
            Taking::Token,
            &[
                Task::Attribute,
                Task::Attributes,
                Task::Expect(Symbol::CloseAttribute),
                Task::MarkedItem,
            ],
        ),
        Some(Symbol::Assign) => go(
            Taking::Token,
            &[
                Task::Delay,
                Task::Drive,
                Task::Drives,
                Task::Expect(Symbol::Semicolon),
            ],
        ),
        Some(Symbol::Always) => go(
            Taking::Token,
            &[Task::Expect(Symbol::At), Task::Sensitivity, Task::Statement],
        ),
        Some(Symbol::Name) => go(
            Taking::Token,
            &[
                Task::Overrides,
                Task::Instance,
                Task::Instances,
                Task::Expect(Symbol::Semicolon),
            ],
        ),
        _ => declaration(next),
    }
}

fn port_kind(next: Option<Symbol>) -> Option<Move>
    ensures { option_map spec.plain result ≡ items.port_kind next }
{
    match next {
        Some(Symbol::Wire | Symbol::Reg) => go(Taking::Token, &[]),
        _ => go(Taking::Nothing, &[]),
    }
}

fn initial(next: Option<Symbol>) -> Option<Move>
    ensures { option_map spec.plain result ≡ items.initial next }
{
    match next {
        Some(Symbol::Equals) => go(Taking::Node, &[Task::Expression, Task::Forget]),
        _ => go(Taking::Nothing, &[]),
    }
}

fn sensitivity(next: Option<Symbol>) -> Option<Move>
    ensures { option_map spec.plain result ≡ items.sensitivity next }
{
    match next {
        Some(Symbol::Star) => go(Taking::Token, &[]),
        Some(Symbol::OpenParen) => go(Taking::Token, &[Task::EventList]),
        _ => None,
    }
}

fn event_list(next: Option<Symbol>) -> Option<Move>
    ensures { option_map spec.plain result ≡ items.event_list next }
{
    match next {
        Some(Symbol::Star) => go(Taking::Token, &[Task::Expect(Symbol::CloseParen)]),
        _ => go(
            Taking::Nothing,
            &[Task::Event, Task::Events, Task::Expect(Symbol::CloseParen)],
        ),
    }
}

fn event(next: Option<Symbol>) -> Option<Move>
    ensures { option_map spec.plain result ≡ items.event next }
{
    match next {
        Some(Symbol::Posedge | Symbol::Negedge) => go(Taking::Token, &[Task::Name]),
        Some(Symbol::Name) => go(Taking::Token, &[Task::EventSelect]),
        _ => None,
    }
}

fn event_select_end(next: Option<Symbol>) -> Option<Move>
    ensures { option_map spec.plain result ≡ items.event_select_end next }
{
    match next {
        Some(Symbol::CloseBracket) => go(Taking::Token, &[]),
        Some(Symbol::Colon) => go(
            Taking::Token,
            &[Task::Expression, Task::Expect(Symbol::CloseBracket)],
        ),
        _ => None,
    }
}

fn events(next: Option<Symbol>) -> Option<Move>
    ensures { option_map spec.plain result ≡ items.events next }
{
    match next {
        Some(Symbol::Or | Symbol::Comma) => go(Taking::Token, &[Task::Event, Task::Events]),
        _ => go(Taking::Nothing, &[]),
    }
}

/// All by position or all by name; a single empty one is none.
fn arguments(next: Option<Symbol>) -> Option<Move>
    ensures { option_map spec.plain result ≡ items.arguments next }
{
    match next {
        Some(Symbol::Dot) => go(Taking::Nothing, &[Task::NamedArgument, Task::Associated]),
        Some(Symbol::Comma) => go(Taking::Nothing, &[Task::Positional]),
        _ => go(Taking::Nothing, &[Task::Expression, Task::Positional]),
    }
}

fn argument(next: Option<Symbol>) -> Option<Move>
    ensures { option_map spec.plain result ≡ items.argument next }
{
    match next {
        Some(Symbol::Comma | Symbol::CloseParen) => go(Taking::Nothing, &[]),
        _ => go(Taking::Nothing, &[Task::Expression]),
    }
}

/// What an `always` waits for.
fn waiting(task: Task, next: Option<Symbol>) -> Option<Move>
    ensures { option_map spec.plain result ≡ rules.waiting task next }
{
    match task {
        Task::Sensitivity => sensitivity(next),
        Task::EventList => event_list(next),
        Task::Event => event(next),
        Task::Events => events(next),
        Task::EventSelect => optional(
            Symbol::OpenBracket,
            next,
            &[Task::Expression, Task::EventSelectEnd],
        ),
        Task::EventSelectEnd => event_select_end(next),
        _ => gate(task, next),
    }
}

pub fn instance(task: Task, next: Option<Symbol>) -> Option<Move>
    ensures { option_map spec.plain result ≡ rules.instance task next }
{
    const CLOSE: Task = Task::Expect(Symbol::CloseParen);
    match task {
        Task::Overrides => optional(
            Symbol::Hash,
            next,
            &[Task::Expect(Symbol::OpenParen), Task::Arguments, CLOSE],
        ),
        Task::Instance => required(
            Symbol::Name,
            next,
            &[Task::Expect(Symbol::OpenParen), Task::Connections, CLOSE],
        ),
        Task::Instances => optional(Symbol::Comma, next, &[Task::Instance, Task::Instances]),
        Task::Connections => unless(Symbol::CloseParen, next, &[Task::Arguments]),
        Task::Arguments => arguments(next),
        Task::Argument => argument(next),
        Task::Positional => optional(Symbol::Comma, next, &[Task::Argument, Task::Positional]),
        Task::NamedArgument => required(
            Symbol::Dot,
            next,
            &[
                Task::Name,
                Task::Expect(Symbol::OpenParen),
                Task::Argument,
                CLOSE,
            ],
        ),
        Task::Associated => optional(
            Symbol::Comma,
            next,
            &[Task::NamedArgument, Task::Associated],
        ),
        _ => modules(task, next),
    }
}

/// What stands in declarations.
pub fn declared(task: Task, next: Option<Symbol>) -> Option<Move>
    ensures { option_map spec.plain result ≡ rules.declared task next }
{
    match task {
        Task::PortKind => port_kind(next),
        Task::Sign => optional(Symbol::Signed, next, &[]),
        Task::Range => optional(
            Symbol::OpenBracket,
            next,
            &[
                Task::Expression,
                Task::Expect(Symbol::Colon),
                Task::Expression,
                Task::Expect(Symbol::CloseBracket),
            ],
        ),
        Task::Value => optional(Symbol::Equals, next, &[Task::Expression]),
        Task::Initial => initial(next),
        Task::Net => required(Symbol::Name, next, &[Task::Value]),
        Task::Nets => optional(Symbol::Comma, next, &[Task::Net, Task::Nets]),
        Task::Variable => required(Symbol::Name, next, &[Task::Initial]),
        Task::Variables => optional(Symbol::Comma, next, &[Task::Variable, Task::Variables]),
        _ => waiting(task, next),
    }
}

pub fn item(task: Task, next: Option<Symbol>) -> Option<Move>
    ensures { option_map spec.plain result ≡ rules.item task next }
{
    match task {
        Task::MarkedItem => marked_item(next),
        Task::Items => unless(Symbol::Endmodule, next, &[Task::Item, Task::Items]),
        Task::Name => required(Symbol::Name, next, &[]),
        Task::Names => optional(Symbol::Comma, next, &[Task::Name, Task::Names]),
        Task::Setting => required(
            Symbol::Name,
            next,
            &[Task::Expect(Symbol::Equals), Task::Expression],
        ),
        Task::Settings => optional(Symbol::Comma, next, &[Task::Setting, Task::Settings]),
        Task::Drive => go(
            Taking::Nothing,
            &[Task::Target, Task::Expect(Symbol::Equals), Task::Expression],
        ),
        Task::Drives => optional(Symbol::Comma, next, &[Task::Drive, Task::Drives]),
        _ => generate(task, next),
    }
}
