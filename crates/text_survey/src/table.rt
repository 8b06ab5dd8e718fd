// What becomes of a task, by the next token alone.

ghost use Rattle.std.specs.Prelude.{◌≡◌, option_map};
ghost use Rattle.text_survey.specs.Table as spec;
ghost use Rattle.text_survey.specs.TableItem as items;
ghost use Rattle.text_survey.specs.Rule as rules;

mod expression;
mod gate;
mod generate;
mod item;
mod modules;
mod statement;

use crate::task::{Move, Taking, Task};
use expression::expression;
use item::item;
use modules::modules;
use rtl_tree::symbol::Symbol;
use statement::statement;

#[tactic(auto, unfolding(crate::specs::Table::same_symbol))]
fn same_symbol(a: Symbol, b: Symbol) -> bool
    ensures { result ≡ spec.same_symbol a b }
{
    a == b
}

fn is_next(mark: Symbol, next: Option<Symbol>) -> bool
    ensures { result ≡ spec.is_next mark next }
{
    match next {
        Some(symbol) => same_symbol(symbol, mark),
        None => false,
    }
}

fn go(taking: Taking, tasks: &'static [Task]) -> Option<Move>
    ensures { option_map spec.plain result ≡ spec.go taking tasks.now }
{
    Some(Move { taking, tasks })
}

/// A token with this symbol, and what follows it.
fn required(mark: Symbol, next: Option<Symbol>, tasks: &'static [Task]) -> Option<Move>
    ensures { option_map spec.plain result ≡ spec.required mark next tasks.now }
{
    if is_next(mark, next) {
        go(Taking::Token, tasks)
    } else {
        None
    }
}

/// The same, where it may be left out.
fn optional(mark: Symbol, next: Option<Symbol>, tasks: &'static [Task]) -> Option<Move>
    ensures { option_map spec.plain result ≡ spec.optional mark next tasks.now }
{
    if is_next(mark, next) {
        go(Taking::Token, tasks)
    } else {
        go(Taking::Nothing, &[])
    }
}

/// Things, unless this token comes first.
fn unless(mark: Symbol, next: Option<Symbol>, tasks: &'static [Task]) -> Option<Move>
    ensures { option_map spec.plain result ≡ spec.unless mark next tasks.now }
{
    if is_next(mark, next) {
        go(Taking::Nothing, &[])
    } else {
        go(Taking::Nothing, tasks)
    }
}

/// What becomes of a task where this token comes next, or the end; none where the token can't stand there.
pub fn rule(task: Task, next: Option<Symbol>) -> Option<Move>
    ensures { option_map spec.plain result ≡ rules.rule task next }
{
    match task {
        Task::Expect(symbol) => required(symbol, next, &[]),
        Task::Wrap | Task::Join | Task::Forget => go(Taking::Nothing, &[]),
        _ => expression(task, next),
    }
}
