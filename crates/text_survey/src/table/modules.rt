// Modules (IEEE 1364-2001 annexes A.1.3 and A.1.4).

ghost use Rattle.std.specs.Prelude.{◌≡◌, option_map};
ghost use Rattle.text_survey.specs.Table as spec;
ghost use Rattle.text_survey.specs.TableItem as items;
ghost use Rattle.text_survey.specs.Rule as rules;

use super::{go, optional, required};
use crate::task::{Move, Taking, Task};
use rtl_tree::symbol::Symbol;

fn source(next: Option<Symbol>) -> Option<Move>
    ensures { option_map spec.plain result ≡ items.source next }
{
    match next {
        None => go(Taking::Nothing, &[]),
        Some(_) => go(Taking::Nothing, &[Task::Module, Task::Source]),
    }
}

/// A module; attributes may stand before it.
fn one_module(next: Option<Symbol>) -> Option<Move>
    ensures { option_map spec.plain result ≡ items.one_module next }
{
    match next {
        Some(Symbol::OpenAttribute) => go(
            Taking::Token,
            &[
                Task::Attribute,
                Task::Attributes,
                Task::Expect(Symbol::CloseAttribute),
                Task::Module,
            ],
        ),
        Some(Symbol::Module) => go(
            Taking::Token,
            &[
                Task::Name,
                Task::Parameters,
                Task::Ports,
                Task::Expect(Symbol::Semicolon),
                Task::Items,
                Task::Expect(Symbol::Endmodule),
            ],
        ),
        _ => None,
    }
}

fn head_parameter(next: Option<Symbol>) -> Option<Move>
    ensures { option_map spec.plain result ≡ items.head_parameter next }
{
    match next {
        Some(Symbol::Parameter) => go(Taking::Token, &[Task::Range, Task::Setting]),
        _ => go(Taking::Nothing, &[Task::Setting]),
    }
}

/// The ports in the head of a module, after the parenthesis.
fn port_list(next: Option<Symbol>) -> Option<Move>
    ensures { option_map spec.plain result ≡ items.port_list next }
{
    match next {
        Some(Symbol::CloseParen) => go(Taking::Token, &[]),
        Some(Symbol::Input | Symbol::Output) => go(
            Taking::Nothing,
            &[
                Task::Port,
                Task::HeadPorts,
                Task::Expect(Symbol::CloseParen),
            ],
        ),
        _ => go(
            Taking::Nothing,
            &[Task::Name, Task::Names, Task::Expect(Symbol::CloseParen)],
        ),
    }
}

fn port(next: Option<Symbol>) -> Option<Move>
    ensures { option_map spec.plain result ≡ items.port next }
{
    match next {
        Some(Symbol::Input | Symbol::Output) => go(
            Taking::Token,
            &[Task::PortKind, Task::Sign, Task::Range, Task::Name],
        ),
        _ => go(Taking::Nothing, &[Task::Name]),
    }
}

pub fn modules(task: Task, next: Option<Symbol>) -> Option<Move>
    ensures { option_map spec.plain result ≡ rules.modules task next }
{
    match task {
        Task::Source => source(next),
        Task::Module => one_module(next),
        Task::Parameters => optional(
            Symbol::Hash,
            next,
            &[
                Task::Expect(Symbol::OpenParen),
                Task::FirstParameter,
                Task::HeadParameters,
                Task::Expect(Symbol::CloseParen),
            ],
        ),
        Task::FirstParameter => required(Symbol::Parameter, next, &[Task::Range, Task::Setting]),
        Task::HeadParameter => head_parameter(next),
        Task::HeadParameters => optional(
            Symbol::Comma,
            next,
            &[Task::HeadParameter, Task::HeadParameters],
        ),
        Task::Ports => optional(Symbol::OpenParen, next, &[Task::PortList]),
        Task::PortList => port_list(next),
        Task::Port => port(next),
        Task::HeadPorts => optional(Symbol::Comma, next, &[Task::Port, Task::HeadPorts]),
        _ => None,
    }
}
