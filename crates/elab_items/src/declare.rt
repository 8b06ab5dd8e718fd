//! The declarations of a module in an instance.

ghost use Rattle.std.specs.Prelude.{◌≡◌, IfOk, map};
ghost use Rattle.std.specs.Option.{option_map};
ghost use Rattle.rtl_tree.specs.TreeExpr.{formula};
ghost use Rattle.rtl_tree.specs.TreeModule.{circuit};
ghost use Rattle.elab_scope.specs.Faults.{after, refusal};
ghost use Rattle.elab_scope.specs.Names.{meanings};
ghost use Rattle.elab_items.specs.Declarations.{declaration};
ghost use Rattle.elab_items.specs.Rosters.{listing, roster};
ghost use Rattle.elab_items.specs.Scopes.{all_name_faults, declaration_faults, faults_after, listings_of, name_faults, roster_from, scope_of, value_name_faults};
ghost use Rattle.elab_items.specs.Settings.{settings_of};

use crate::drafts::draft;
use crate::entries::{Entry, entries_of};
use crate::joins::{join, judge_directions};
use crate::overrides::{Override, Overrides};
use crate::reach::judge_bounds;
use crate::roster::{Listing, Roster, enroll_all, judge_limit};
use elab_scope::fault::Fault;
use elab_scope::judge::judge;
use elab_scope::names::Names;
use rtl_tree::tree::expr::Expr;
use rtl_tree::tree::modules::Module;
use std::alloc::Global;
use text_ground::memory::Memory;

/// What a module declares in an instance.
#[derive(Drop)]
pub struct Declared<'a> {
    /// What its names stand for.
    pub names: Names,
    /// Its signals, in the order of their numbers.
    pub signals: Vec<Listing<'a>>,
    /// The fault that is told after those of its declarations.
    pub best: Option<Fault<'a>>,
}

/// The names in a value that an instance doesn't set.
fn judge_value<'a>(
    given: Option<Override>,
    value: &'a Expr,
    names: &Names,
    best: Option<Fault<'a>>,
) -> Option<Fault<'a>>
    ensures { option_map refusal result
        ≡ after (option_map refusal best.entry)
        (value_name_faults (meanings names.now) given (formula value.now)) }
{
    match given {
        Some(_) => best,
        None => judge(value, names, best).best,
    }
}

/// The names in a declaration.
fn judge_names<'a>(
    entry: Entry<'a>,
    overrides: &Overrides,
    names: &Names,
    best: Option<Fault<'a>>,
) -> Option<Fault<'a>>
    ensures { option_map refusal result
        ≡ after (option_map refusal best.entry)
        (name_faults (settings_of overrides.now) (meanings names.now) (declaration entry.entry)) }
{
    match entry {
        Entry::ParameterRange(range) => judge_bounds(range, names, best),
        Entry::SignalRange(range) => judge_bounds(range, names, best),
        Entry::Parameter(kind, name, value) => {
            judge_value(overrides.given_to(kind, &name.text), value, names, best)
        }
        Entry::Listed(_) | Entry::Signal { .. } | Entry::Integer(_) | Entry::Instance(_) => best,
    }
}

#[tactic(auto, using(elab_scope::proofs::Least::after_append))]
fn judge_all_names<'a>(
    entries: &[Entry<'a>],
    overrides: &Overrides,
    names: &Names,
    best: Option<Fault<'a>>,
) -> Option<Fault<'a>>
    ensures { option_map refusal result
        ≡ after (option_map refusal best.entry)
        (all_name_faults (settings_of overrides.now) (meanings names.now)
        (map declaration entries.now)) }
{
    let mut best = best;
    for entry in entries {
        best = judge_names(*entry, overrides, names, best);
    }
    best
}

/// What declarations make with the numbers of a draft.
#[tactic(auto, using(elab_scope::proofs::Least::after_append))]
fn declare_entries<'a>(
    alloc: Global,
    entries: &[Entry<'a>],
    overrides: &Overrides,
    base: u32,
    numbers: &Names,
    best: Option<Fault<'a>>,
) -> Result<Declared<'a>, Memory>
    ensures names { IfOk result (λ made. meanings made.names
        ≡ (roster_from (meanings numbers.now) (map declaration entries.now)).scope) }
    ensures signals { IfOk result (λ made. map listing made.signals.items
        ≡ (roster_from (meanings numbers.now) (map declaration entries.now)).signals) }
    ensures best { IfOk result (λ made. option_map refusal made.best
        ≡ after (option_map refusal best.entry)
        (faults_after (settings_of overrides.now) base (meanings numbers.now)
        (map declaration entries.now))) }
{
    let joined = join(alloc, entries, numbers, best)?;
    let best = judge_directions(entries, &joined.claims, joined.best);
    let roster = enroll_all(alloc, entries, numbers, &joined.claims)?;
    let best = judge_all_names(entries, overrides, &roster.names, best);
    let best = judge_limit(base, &roster.signals, best);
    Ok(Declared {
        names: roster.names,
        signals: roster.signals,
        best,
    })
}

/// What the module declares where an instance sets parameters so, and the fault that is told after those of its
/// declarations, where `best` was told before; the design has `base` signals before those of the instance.
#[tactic(auto, using(elab_scope::proofs::Least::after_append))]
pub fn declare<'a>(
    alloc: Global,
    written: &'a Module,
    overrides: &Overrides,
    base: u32,
    best: Option<Fault<'a>>,
) -> Result<Declared<'a>, Memory>
    ensures names { IfOk result (λ made. meanings made.names
        ≡ scope_of (settings_of overrides.now) (circuit written.now)) }
    ensures signals { IfOk result (λ made. map listing made.signals.items
        ≡ listings_of (settings_of overrides.now) (circuit written.now)) }
    ensures best { IfOk result (λ made. option_map refusal made.best
        ≡ after (option_map refusal best.entry)
        (declaration_faults (settings_of overrides.now) base (circuit written.now))) }
{
    let made = entries_of(alloc, written)?;
    let entries = made.as_slice();
    let numbered = draft(alloc, entries, overrides, best)?;
    declare_entries(
        alloc,
        entries,
        overrides,
        base,
        &numbered.names,
        numbered.best,
    )
}
