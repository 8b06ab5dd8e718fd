//! The parameters that an instance sets.

ghost use Rattle.std.specs.Prelude.{◌≡◌, ◌++◌, IfOk, OnOk, length, map};
ghost use Rattle.std.specs.List.{slice_get};
ghost use Rattle.std.specs.Option.{option_map};
ghost use Rattle.rtl_tree.specs.TreeExpr.{formula, identifier};
ghost use Rattle.rtl_tree.specs.TreeItem.{associated, association, positional};
ghost use Rattle.elab_items.specs.elab_scope.Faults.{after, breach, refusal};
ghost use Rattle.elab_items.specs.elab_scope.Names.{meanings, numbers_in};
ghost use Rattle.elab_items.specs.Declarations.{declaration};
ghost use Rattle.elab_items.specs.Settings.{no_settings, settings_of};
ghost use Rattle.elab_links.specs.Marks.{marks_of, no_marks, with_marks};
ghost use Rattle.elab_links.specs.Parameters.{name_faults, named_setting_faults, named_settings, ordered_setting_faults, ordered_settings, parameter_faults, set_at, set_by, settable, settable_here, setting_faults, settings_by, surplus_faults};

use crate::marks::NameSet;
use crate::ports::set_of;
use elab_items::elab_scope::fault::{Cause, Fault};
use elab_items::elab_scope::judge::judge_constant;
use elab_items::elab_scope::names::Names;
use elab_items::entries::Entry;
use elab_items::overrides::{Overrides, value_of};
use rtl_tree::tree::expr::Expr;
use rtl_tree::tree::item::{Arguments, NamedArgument, OrderedArgument, ParameterKind};
use rtl_tree::tree::names::Name;
use std::alloc::Global;
use text_ground::memory::Memory;
use text_ground::text::Text;

fn push_settable<'a>(entry: Entry<'a>, names: &mut Vec<&'a Name>) -> Result<(), Memory>
    ensures { OnOk result (map (λ name. identifier name.now) names.new.items
        ≡ map (λ name. identifier name.now) names.old.items
        ++ settable_here (declaration entry.entry)) }
{
    match entry {
        Entry::Parameter(ParameterKind::Parameter, name, _) => names.push(name)?,
        Entry::Parameter(ParameterKind::Local, _, _) | Entry::ParameterRange(_) => {}
        Entry::SignalRange(_) | Entry::Listed(_) | Entry::Signal { .. } => {}
        Entry::Integer(_) | Entry::Instance(_) => {}
    }
    Ok(())
}

/// The parameters that an instance may set, in order.
#[tactic(auto, using(std::proofs::lemmas::Grind::common_steps))]
pub fn settable<'a>(alloc: Global, entries: &[Entry<'a>]) -> Result<Vec<&'a Name>, Memory>
    ensures { IfOk result (λ names. map (λ name. identifier name.now) names.items
        ≡ settable (map declaration entries.now)) }
{
    let mut names = Vec::new(alloc);
    for entry in entries {
        push_settable(*entry, &mut names)?;
    }
    Ok(names)
}

fn judge_setting<'a>(
    value: &'a Option<Expr>,
    names: &Names,
    best: Option<Fault<'a>>,
) -> Option<Fault<'a>>
    ensures { option_map refusal result
        ≡ after (option_map refusal best.entry)
        (setting_faults (meanings names.now) (option_map formula value.now)) }
{
    match value {
        None => best,
        Some(value) => judge_constant(value, names, best),
    }
}

/// The first argument that is one too many.
pub fn judge_surplus<'a>(
    many: usize,
    place: usize,
    at: u32,
    cause: Cause<'a>,
    best: Option<Fault<'a>>,
) -> Option<Fault<'a>>
    ensures { option_map refusal result
        ≡ after (option_map refusal best.entry)
        (surplus_faults many place at (breach cause.entry)) }
{
    if place == many {
        Fault::keep(best, Fault { at, cause })
    } else {
        best
    }
}

/// An argument by name names what is there, and what no argument before it names.
pub(crate) fn judge_name<'a>(
    known: bool,
    taken: bool,
    at: u32,
    cause: Cause<'a>,
    best: Option<Fault<'a>>,
) -> Option<Fault<'a>>
    ensures { option_map refusal result
        ≡ after (option_map refusal best.entry) (name_faults known taken at (breach cause.entry)) }
{
    if known && !taken {
        best
    } else {
        Fault::keep(best, Fault { at, cause })
    }
}

#[tactic(auto, using(crate::proofs::Borrowed::after_append))]
fn judge_ordered<'a>(
    child: &'a Text,
    many: usize,
    arguments: &'a [OrderedArgument],
    names: &Names,
    best: Option<Fault<'a>>,
) -> Option<Fault<'a>>
    ensures { option_map refusal result
        ≡ after (option_map refusal best.entry)
        (ordered_setting_faults child.now many (meanings names.now) 0
        (map positional arguments.now)) }
{
    let mut best = best;
    for (place, argument) in arguments.iter().enumerate() {
        best = judge_surplus(many, place, argument.at, Cause::Parameter(child), best);
        best = judge_setting(&argument.value, names, best);
    }
    best
}

#[tactic(auto, using(crate::proofs::Borrowed::after_append))]
fn judge_named<'a>(
    alloc: Global,
    known: &NameSet,
    arguments: &'a [NamedArgument],
    names: &Names,
    best: Option<Fault<'a>>,
) -> Result<Option<Fault<'a>>, Memory>
    ensures { IfOk result (λ told. option_map refusal told
        ≡ after (option_map refusal best.entry)
        (named_setting_faults (marks_of known.now) (meanings names.now) no_marks
        (map associated arguments.now))) }
{
    let mut best = best;
    let mut taken = NameSet::new(alloc);
    for argument in arguments {
        let name = &argument.name.text;
        let cause = Cause::Parameter(name);
        best = judge_name(
            known.has(name),
            taken.has(name),
            argument.name.at,
            cause,
            best,
        );
        best = judge_setting(&argument.value, names, best);
        taken.add(name)?;
    }
    Ok(best)
}

/// The faults of what an instance of a module with these settable parameters sets.
pub(crate) fn judge_parameters<'a>(
    alloc: Global,
    child: &'a Text,
    settable: &[&Name],
    parameters: &'a Arguments,
    names: &Names,
    best: Option<Fault<'a>>,
) -> Result<Option<Fault<'a>>, Memory>
    ensures { IfOk result (λ told. option_map refusal told
        ≡ after (option_map refusal best.entry)
        (parameter_faults child.now (map (λ name. identifier name.now) settable.now)
        (meanings names.now) (association parameters.now))) }
{
    match parameters {
        Arguments::Ordered(arguments) => {
            Ok(judge_ordered(child, settable.len(), arguments, names, best))
        }
        Arguments::Named(arguments) => {
            let known = set_of(alloc, settable)?;
            judge_named(alloc, &known, arguments, names, best)
        }
    }
}

/// An empty argument sets nothing.
fn set_value(
    name: &Text,
    value: &Option<Expr>,
    names: &Names,
    made: &mut Overrides,
) -> Result<(), Memory>
    ensures { OnOk result (settings_of made.new
        ≡ set_by (numbers_in (meanings names.now)) (settings_of made.old) name.now
        (option_map formula value.now)) }
{
    if let Some(value) = value {
        made.set(name, value_of(value, names))?;
    }
    Ok(())
}

#[tactic(auto, using(crate::proofs::Places::at_place))]
fn set_place(
    settable: &[&Name],
    place: usize,
    value: &Option<Expr>,
    names: &Names,
    made: &mut Overrides,
) -> Result<(), Memory>
    ensures { OnOk result (settings_of made.new
        ≡ set_at (numbers_in (meanings names.now)) (settings_of made.old)
        (slice_get (map (λ name. identifier name.now) settable.now) place)
        (option_map formula value.now)) }
{
    match settable.get(place) {
        None => Ok(()),
        Some(name) => set_value(&name.text, value, names, made),
    }
}

fn set_ordered(
    settable: &[&Name],
    arguments: &[OrderedArgument],
    names: &Names,
    made: &mut Overrides,
) -> Result<(), Memory>
    ensures { OnOk result (settings_of made.new
        ≡ ordered_settings (numbers_in (meanings names.now))
        (map (λ name. identifier name.now) settable.now) (settings_of made.old) 0
        (map positional arguments.now)) }
{
    for (place, argument) in arguments.iter().enumerate() {
        set_place(settable, place, &argument.value, names, made)?;
    }
    Ok(())
}

fn set_named(arguments: &[NamedArgument], names: &Names, made: &mut Overrides) -> Result<(), Memory>
    ensures { OnOk result (settings_of made.new
        ≡ named_settings (numbers_in (meanings names.now)) (settings_of made.old)
        (map associated arguments.now)) }
{
    for argument in arguments {
        set_value(&argument.name.text, &argument.value, names, made)?;
    }
    Ok(())
}

/// What an instance of a module with these settable parameters sets them to, with the names of the module that holds
/// it.
pub fn settings_by(
    alloc: Global,
    settable: &[&Name],
    parameters: &Arguments,
    names: &Names,
) -> Result<Overrides, Memory>
    ensures { IfOk result (λ made. settings_of made
        ≡ settings_by (map (λ name. identifier name.now) settable.now) (meanings names.now)
        (association parameters.now)) }
{
    let mut made = Overrides::new(alloc);
    match parameters {
        Arguments::Ordered(arguments) => set_ordered(settable, arguments, names, &mut made)?,
        Arguments::Named(arguments) => set_named(arguments, names, &mut made)?,
    }
    Ok(made)
}
