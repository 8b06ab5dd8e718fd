// Copies of what assignments write, and of delays.

ghost use Rattle.std.specs.Prelude.{◌≡◌, IfOk, map};
ghost use Rattle.std.specs.Option.{option_map};
ghost use Rattle.rtl_tree.specs.TreeExpr.{formula, identifier};
ghost use Rattle.rtl_tree.specs.TreeStmt as tree;
ghost use Rattle.rtl_tree.specs.TreeStmt.{pause, span, target, target_row};
ghost use Rattle.elab_renames.specs.Renames.{renamed_pause, renamed_span, renamed_target, renaming};

use crate::expressions::{boxed_expr, renamed_expr};
use crate::naming::{Naming, renamed_name};
use rtl_tree::tree::expr::Expr;
use rtl_tree::tree::names::Name;
use rtl_tree::tree::operators::PartKind;
use rtl_tree::tree::stmt::{Delay, Lvalue, Ticks};
use std::alloc::Global;
use text_ground::memory::Memory;

#[cycle(target)]
#[tactic(auto, using(crate::proofs::Views::joined_renamed))]
pub(crate) fn renamed_target(
    alloc: Global,
    naming: &Naming<'_>,
    written: &Lvalue,
) -> Result<Lvalue, Memory>
    ensures { IfOk result (λ made. target made
        ≡ renamed_target (renaming naming.now) (target written.now)) }
{
    match written {
        Lvalue::Whole(name) => whole(alloc, naming, name),
        Lvalue::Bit(name, index) => bit(alloc, naming, name, index),
        Lvalue::Part(name, kind, first, second) => {
            part(alloc, naming, name, *kind, first, second)
        }
        Lvalue::Concat(at, parts) => joined(alloc, naming, *at, parts),
    }
}

/// The same in a box: what is held by value while more is copied is dear to prove.
pub(crate) fn boxed_target(
    alloc: Global,
    naming: &Naming<'_>,
    written: &Lvalue,
) -> Result<Box<Lvalue>, Memory>
    ensures { IfOk result (λ made. target made.value
        ≡ renamed_target (renaming naming.now) (target written.now)) }
{
    let made = renamed_target(alloc, naming, written)?;
    Ok(Box::new(alloc, made)?)
}

fn whole(alloc: Global, naming: &Naming<'_>, name: &Name) -> Result<Lvalue, Memory>
    ensures { IfOk result (λ made. target made
        ≡ renamed_target (renaming naming.now) (tree.Whole (identifier name.now))) }
{
    let name = renamed_name(alloc, naming, name)?;
    Ok(Lvalue::Whole(name))
}

fn bit(alloc: Global, naming: &Naming<'_>, name: &Name, index: &Expr) -> Result<Lvalue, Memory>
    ensures { IfOk result (λ made. target made ≡ renamed_target (renaming naming.now)
        (tree.Bit (identifier name.now) (formula index.now))) }
{
    let name = renamed_name(alloc, naming, name)?;
    let index = boxed_expr(alloc, naming, index)?;
    Ok(Lvalue::Bit(name, Box::into_inner(index)))
}

fn part(
    alloc: Global,
    naming: &Naming<'_>,
    name: &Name,
    kind: PartKind,
    first: &Expr,
    second: &Expr,
) -> Result<Lvalue, Memory>
    ensures { IfOk result (λ made. target made ≡ renamed_target (renaming naming.now)
        (tree.Part (identifier name.now) kind (formula first.now) (formula second.now))) }
{
    let name = renamed_name(alloc, naming, name)?;
    let first = boxed_expr(alloc, naming, first)?;
    let second = boxed_expr(alloc, naming, second)?;
    Ok(Lvalue::Part(name, kind, Box::into_inner(first), Box::into_inner(second)))
}

#[cycle(target)]
#[tactic(auto, using(crate::proofs::Rows::targets_renamed))]
fn joined(alloc: Global, naming: &Naming<'_>, at: u32, parts: &[Lvalue]) -> Result<Lvalue, Memory>
    ensures { IfOk result (λ made. target made ≡ renamed_target (renaming naming.now)
        (tree.Joined at (target_row (map target parts.now)))) }
{
    let parts = renamed_targets(alloc, naming, parts)?;
    Ok(Lvalue::concat(at, parts))
}

/// Targets in a row.
#[cycle(target)]
pub(crate) fn renamed_targets(
    alloc: Global,
    naming: &Naming<'_>,
    all: &[Lvalue],
) -> Result<Vec<Lvalue>, Memory>
    ensures { IfOk result (λ made. map target made.items
        ≡ map (renamed_target (renaming naming.now)) (map target all.now)) }
{
    let mut made = Vec::with_capacity(alloc, all.len())?;
    for written in all {
        made.push(renamed_target(alloc, naming, written)?)?;
    }
    Ok(made)
}

fn renamed_ticks(alloc: Global, naming: &Naming<'_>, ticks: &Ticks) -> Result<Ticks, Memory>
    ensures { IfOk result (λ made. span made ≡ renamed_span (renaming naming.now) (span ticks.now)) }
{
    match ticks {
        Ticks::Number(value) => Ok(Ticks::Number(*value)),
        Ticks::Name(name) => Ok(Ticks::Name(renamed_name(alloc, naming, name)?)),
        Ticks::Parens(value) => Ok(Ticks::Parens(renamed_expr(alloc, naming, value)?)),
    }
}

fn renamed_delay(alloc: Global, naming: &Naming<'_>, delay: &Delay) -> Result<Delay, Memory>
    ensures { IfOk result (λ made. pause made
        ≡ renamed_pause (renaming naming.now) (pause delay.now)) }
{
    let ticks = renamed_ticks(alloc, naming, &delay.ticks)?;
    Ok(Delay {
        at: delay.at,
        ticks,
    })
}

pub(crate) fn boxed_delay(
    alloc: Global,
    naming: &Naming<'_>,
    delay: &Delay,
) -> Result<Box<Delay>, Memory>
    ensures { IfOk result (λ made. pause made.value
        ≡ renamed_pause (renaming naming.now) (pause delay.now)) }
{
    let made = renamed_delay(alloc, naming, delay)?;
    Ok(Box::new(alloc, made)?)
}

/// A delay, where one is written.
fn optional_delay(
    alloc: Global,
    naming: &Naming<'_>,
    delay: &Option<Delay>,
) -> Result<Option<Delay>, Memory>
    ensures { IfOk result (λ made. option_map pause made
        ≡ option_map (renamed_pause (renaming naming.now)) (option_map pause delay.now)) }
{
    match delay {
        None => Ok(None),
        Some(delay) => Ok(Some(renamed_delay(alloc, naming, delay)?)),
    }
}

pub(crate) fn boxed_optional_delay(
    alloc: Global,
    naming: &Naming<'_>,
    delay: &Option<Delay>,
) -> Result<Box<Option<Delay>>, Memory>
    ensures { IfOk result (λ made. option_map pause made.value
        ≡ option_map (renamed_pause (renaming naming.now)) (option_map pause delay.now)) }
{
    let made = optional_delay(alloc, naming, delay)?;
    Ok(Box::new(alloc, made)?)
}
