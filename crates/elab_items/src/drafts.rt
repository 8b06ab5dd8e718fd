//! The numbers of parameters.

ghost use Rattle.std.specs.Prelude.{◌≡◌, IfOk, OnOk, map};
ghost use Rattle.std.specs.Option.{option_map};
ghost use Rattle.rtl_tree.specs.TreeExpr.{formula};
ghost use Rattle.elab_scope.specs.Faults.{after, refusal};
ghost use Rattle.elab_scope.specs.Names.{meanings};
ghost use Rattle.elab_items.specs.Declarations.{declaration};
ghost use Rattle.elab_items.specs.Drafts.{all_draft_faults, all_drafted, draft_faults, no_draft, reach_after, scope_after, value_faults};
ghost use Rattle.elab_items.specs.Settings.{settings_of};

use crate::entries::Entry;
use crate::overrides::{Override, Overrides, parameter_of, value_of};
use crate::reach::{Reach, judge_range, reach_of};
use elab_scope::fault::Fault;
use elab_scope::known::{Known, Role};
use elab_scope::names::Names;
use elab_scope::rules;
use rtl_const::evaluate::constant;
use rtl_tree::tree::expr::Expr;
use std::alloc::Global;
use text_ground::memory::Memory;

/// The numbers of a module's parameters, and the fault that is told after theirs.
#[derive(Drop)]
pub struct Numbered<'a> {
    pub names: Names,
    pub best: Option<Fault<'a>>,
}

/// The most bits of a parameter with a range.
const MOST: u8 = 32;

/// A value that an instance doesn't set has a number.
fn judge_value<'a>(
    given: Option<Override>,
    value: &'a Expr,
    names: &Names,
    best: Option<Fault<'a>>,
) -> Option<Fault<'a>>
    ensures { option_map refusal result
        ≡ after (option_map refusal best.entry)
        (value_faults given (meanings names.now) (formula value.now)) }
{
    match given {
        Some(_) => best,
        None => rules::number(constant(value, names), best),
    }
}

/// The faults of the numbers in a declaration, with the names so far.
fn judge_numbers<'a>(
    entry: Entry<'a>,
    overrides: &Overrides,
    names: &Names,
    best: Option<Fault<'a>>,
) -> Option<Fault<'a>>
    ensures { option_map refusal result
        ≡ after (option_map refusal best.entry)
        (draft_faults (settings_of overrides.now) (meanings names.now) (declaration entry.entry)) }
{
    match entry {
        Entry::ParameterRange(range) => judge_range(MOST, range, names, best),
        Entry::Parameter(kind, name, value) => {
            judge_value(overrides.given_to(kind, &name.text), value, names, best)
        }
        Entry::SignalRange(_)
        | Entry::Listed(_)
        | Entry::Signal { .. }
        | Entry::Integer(_)
        | Entry::Instance(_) => best,
    }
}

/// The range of the parameters behind a declaration.
fn reach_after(entry: Entry<'_>, names: &Names, reach: Reach) -> Reach
    ensures { result ≡ reach_after (meanings names.now) reach (declaration entry.entry) }
{
    match entry {
        Entry::ParameterRange(range) => reach_of(MOST, range, names),
        Entry::Parameter(_, _, _)
        | Entry::SignalRange(_)
        | Entry::Listed(_)
        | Entry::Signal { .. }
        | Entry::Integer(_)
        | Entry::Instance(_) => reach,
    }
}

/// What has no number.
const NUMBERLESS: Known = Known::Signal {
    number: 0,
    role: Role::Net,
    shape: None,
};

/// Declares the name of a declaration.
fn declare_number(
    entry: Entry<'_>,
    overrides: &Overrides,
    reach: Reach,
    names: &mut Names,
) -> Result<(), Memory>
    ensures { OnOk result (meanings names.new
        ≡ scope_after (settings_of overrides.now) (meanings names.old) reach
        (declaration entry.entry)) }
{
    match entry {
        Entry::ParameterRange(_) | Entry::SignalRange(_) | Entry::Listed(_) => {}
        Entry::Parameter(kind, name, value) => {
            let own = value_of(value, names);
            let value = overrides.given_to(kind, &name.text).unwrap_or(own);
            names.declare(&name.text, parameter_of(reach, value))?;
        }
        Entry::Signal { name, .. } | Entry::Instance(name) => {
            names.declare(&name.text, NUMBERLESS)?;
        }
        Entry::Integer(name) => names.declare(&name.text, Known::Integer(None))?,
    }
    Ok(())
}

/// The numbers of all parameters, in the order of the declarations.
#[tactic(auto, using(elab_scope::proofs::Least::after_append))]
pub fn draft<'a>(
    alloc: Global,
    entries: &[Entry<'a>],
    overrides: &Overrides,
    best: Option<Fault<'a>>,
) -> Result<Numbered<'a>, Memory>
    ensures names { IfOk result (λ made. meanings made.names
        ≡ (all_drafted (settings_of overrides.now) no_draft (map declaration entries.now)).scope) }
    ensures best { IfOk result (λ made. option_map refusal made.best
        ≡ after (option_map refusal best.entry)
        (all_draft_faults (settings_of overrides.now) no_draft (map declaration entries.now))) }
{
    let mut names = Names::new(alloc);
    let mut reach = Reach::Scalar;
    let mut best = best;
    for entry in entries {
        let next = reach_after(*entry, &names, reach);
        best = judge_numbers(*entry, overrides, &names, best);
        declare_number(*entry, overrides, reach, &mut names)?;
        reach = next;
    }
    Ok(Numbered { names, best })
}
