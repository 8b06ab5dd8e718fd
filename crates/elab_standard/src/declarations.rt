//! What other tools read otherwise in the declarations of a module, and in what instances give its parameters.

ghost use Rattle.std.specs.Prelude.{◌≡◌, ◌++◌, IfOk, OnOk, false, map};
ghost use Rattle.std.specs.List.{slice_get};
ghost use Rattle.std.specs.Option.{option_map};
ghost use Rattle.name_map.specs.Values.{no_values, values_of};
ghost use Rattle.rtl_tree.specs.TreeExpr.{bounds, formula, identifier};
ghost use Rattle.rtl_tree.specs.TreeItem.{associated, association, positional};
ghost use Rattle.rtl_tree.specs.TreeModule.{circuit};
ghost use Rattle.elab_walk.specs.elab_items.Declarations.{declaration, declarations};
ghost use Rattle.elab_walk.specs.elab_scope.Names.{meanings};
ghost use Rattle.elab_standard.specs.Declarations.{all_declaration_notes, association_notes, declaration_notes, declared_notes, default_notes, end_notes, named_notes, ordered_notes, range_notes, set_notes, setting_notes, span_at, spans_after, spans_of};
ghost use Rattle.elab_standard.specs.Scopes.{scopes};

use crate::numbers::{push_given_value, push_number, push_own_value};
use crate::scopes::Scopes;
use crate::standard::Standard;
use crate::standards::{given_to, ranged_after, ranged_width};
use crate::unsized_numbers::push_unsized;
use crate::uses::Home;
use elab_walk::elab_items::entries::{Entry, entries_of};
use elab_walk::elab_links::parameters::settable;
use elab_walk::elab_scope::names::Names;
use name_map::NameMap;
use rtl_flat::note::Note;
use rtl_tree::tree::expr::{Expr, Range};
use rtl_tree::tree::item::{Arguments, NamedArgument, OrderedArgument};
use rtl_tree::tree::modules::Module;
use rtl_tree::tree::names::Name;
use std::alloc::Global;
use text_ground::memory::Memory;
use text_ground::text::Text;

/// Adds what is told of an end of a range.
fn push_end(home: Home, kept: &Scopes, e: &Expr, made: &mut Vec<Note>) -> Result<(), Memory>
    ensures { OnOk result (made.new.items
        ≡ made.old.items ++ end_notes home (scopes kept.now) (formula e.now)) }
{
    push_number(home, kept, e, made)?;
    push_unsized(home, kept, e, made)
}

fn push_range(
    home: Home,
    kept: &Scopes,
    range: Option<&Range>,
    made: &mut Vec<Note>,
) -> Result<(), Memory>
    ensures { OnOk result (made.new.items
        ≡ made.old.items ++ range_notes home (scopes kept.now)
        (option_map (λ range. bounds range.now) range.entry)) }
{
    match range {
        None => Ok(()),
        Some(range) => {
            push_end(home, kept, &range.msb, made)?;
            push_end(home, kept, &range.lsb, made)
        }
    }
}

/// Adds what is told of the value of a parameter, where the instance doesn't give it another.
fn push_default(
    home: Home,
    kept: &Scopes,
    width: Option<u8>,
    given: Option<Standard>,
    value: &Expr,
    made: &mut Vec<Note>,
) -> Result<(), Memory>
    ensures { OnOk result (made.new.items
        ≡ made.old.items ++ default_notes home (scopes kept.now) width given (formula value.now)) }
{
    if given.is_some() {
        return Ok(());
    }
    push_own_value(home, kept, width, value, made)?;
    push_unsized(home, kept, value, made)
}

fn push_entry(
    home: Home,
    kept: &Scopes,
    given: &NameMap<Standard>,
    ranged: bool,
    entry: Entry<'_>,
    made: &mut Vec<Note>,
) -> Result<(), Memory>
    ensures { OnOk result (made.new.items ≡ made.old.items
        ++ declaration_notes home (scopes kept.now) (values_of given.now) ranged
        (declaration entry.entry)) }
{
    match entry {
        Entry::ParameterRange(range) | Entry::SignalRange(range) => {
            push_range(home, kept, range, made)
        }
        Entry::Parameter(kind, name, value) => {
            let width = ranged_width(ranged, &name.text, &kept.names);
            let given = given_to(kind, &name.text, given);
            push_default(home, kept, width, given, value, made)
        }
        Entry::Listed(_) | Entry::Signal { .. } | Entry::Integer(_) | Entry::Instance(_) => Ok(()),
    }
}

fn push_entries(
    home: Home,
    kept: &Scopes,
    given: &NameMap<Standard>,
    entries: &[Entry<'_>],
    made: &mut Vec<Note>,
) -> Result<(), Memory>
    ensures { OnOk result (made.new.items ≡ made.old.items
        ++ all_declaration_notes home (scopes kept.now) (values_of given.now) false
        (map declaration entries.now)) }
{
    let mut ranged = false;
    for entry in entries {
        push_entry(home, kept, given, ranged, *entry, made)?;
        ranged = ranged_after(ranged, *entry);
    }
    Ok(())
}

/// Adds the notes of the declarations of a module in an instance that is given so much: those of the ends of ranges, and
/// of values that it doesn't set.
pub fn push_declarations(
    alloc: Global,
    home: Home,
    kept: &Scopes,
    written: &Module,
    given: &NameMap<Standard>,
    made: &mut Vec<Note>,
) -> Result<(), Memory>
    ensures { OnOk result (made.new.items ≡ made.old.items
        ++ declared_notes home (scopes kept.now) (values_of given.now) (circuit written.now)) }
{
    let entries = entries_of(alloc, written)?;
    push_entries(home, kept, given, &entries, made)
}

fn enter_span(
    ranged: bool,
    entry: Entry<'_>,
    names: &Names,
    spans: &mut NameMap<Option<u8>>,
) -> Result<(), Memory>
    ensures { OnOk result (values_of spans.new
        ≡ spans_after (meanings names.now) ranged (values_of spans.old) (declaration entry.entry)) }
{
    match entry {
        Entry::Parameter(_, name, _) => {
            spans.enter(&name.text, ranged_width(ranged, &name.text, names))
        }
        Entry::ParameterRange(_)
        | Entry::SignalRange(_)
        | Entry::Listed(_)
        | Entry::Signal { .. }
        | Entry::Integer(_)
        | Entry::Instance(_) => Ok(()),
    }
}

/// The widths that ranges give to parameters, by the desk, none to those without a range.
fn spans_of(
    alloc: Global,
    entries: &[Entry<'_>],
    names: &Names,
) -> Result<NameMap<Option<u8>>, Memory>
    ensures { IfOk result (λ spans. values_of spans
        ≡ spans_of (meanings names.now) (map declaration entries.now)) }
{
    let mut spans = NameMap::new(alloc);
    let mut ranged = false;
    for entry in entries {
        enter_span(ranged, *entry, names, &mut spans)?;
        ranged = ranged_after(ranged, *entry);
    }
    Ok(spans)
}

/// Adds what is told of the value that an instance gives a parameter.
fn push_set(
    home: Home,
    holder: &Scopes,
    span: Option<Option<u8>>,
    value: &Option<Expr>,
    made: &mut Vec<Note>,
) -> Result<(), Memory>
    ensures { OnOk result (made.new.items ≡ made.old.items
        ++ set_notes home (scopes holder.now) span (option_map formula value.now)) }
{
    let (Some(width), Some(value)) = (span, value) else {
        return Ok(());
    };
    push_given_value(home, holder, width, value, made)?;
    push_unsized(home, holder, value, made)
}

/// The width of the range of a parameter at a place, where there is one.
#[tactic(auto, using(crate::proofs::Places::at_place))]
fn span_at(spans: &NameMap<Option<u8>>, names: &[&Name], place: usize) -> Option<Option<u8>>
    ensures { result ≡ span_at (values_of spans.now)
        (slice_get (map (λ name. identifier name.now) names.now) place) }
{
    match names.get(place) {
        None => None,
        Some(name) => spans.find(&name.text),
    }
}

fn push_ordered(
    home: Home,
    holder: &Scopes,
    spans: &NameMap<Option<u8>>,
    names: &[&Name],
    arguments: &[OrderedArgument],
    made: &mut Vec<Note>,
) -> Result<(), Memory>
    ensures { OnOk result (made.new.items ≡ made.old.items
        ++ ordered_notes home (scopes holder.now) (values_of spans.now)
        (map (λ name. identifier name.now) names.now) 0 (map positional arguments.now)) }
{
    for (place, argument) in arguments.iter().enumerate() {
        let span = span_at(spans, names, place);
        push_set(home, holder, span, &argument.value, made)?;
    }
    Ok(())
}

fn push_named(
    home: Home,
    holder: &Scopes,
    spans: &NameMap<Option<u8>>,
    arguments: &[NamedArgument],
    made: &mut Vec<Note>,
) -> Result<(), Memory>
    ensures { OnOk result (made.new.items ≡ made.old.items
        ++ named_notes home (scopes holder.now) (values_of spans.now) (map associated arguments.now)) }
{
    for argument in arguments {
        let span = spans.find(&argument.name.text);
        push_set(home, holder, span, &argument.value, made)?;
    }
    Ok(())
}

fn push_association(
    home: Home,
    holder: &Scopes,
    spans: &NameMap<Option<u8>>,
    names: &[&Name],
    parameters: &Arguments,
    made: &mut Vec<Note>,
) -> Result<(), Memory>
    ensures { OnOk result (made.new.items ≡ made.old.items
        ++ association_notes home (scopes holder.now) (values_of spans.now)
        (map (λ name. identifier name.now) names.now) (association parameters.now)) }
{
    match parameters {
        Arguments::Ordered(arguments) => {
            push_ordered(home, holder, spans, names, arguments, made)
        }
        Arguments::Named(arguments) => push_named(home, holder, spans, arguments, made),
    }
}

/// Adds the notes of what an instance sets in a module, whose names stand for `names` in it; they stand at the home of
/// its holder.
pub fn push_settings(
    alloc: Global,
    home: Home,
    holder: &Scopes,
    child: &Module,
    names: &Names,
    parameters: &Arguments,
    made: &mut Vec<Note>,
) -> Result<(), Memory>
    ensures { OnOk result (made.new.items ≡ made.old.items
        ++ setting_notes home (scopes holder.now) (meanings names.now) (circuit child.now)
        (association parameters.now)) }
{
    let entries = entries_of(alloc, child)?;
    let spans = spans_of(alloc, &entries, names)?;
    let settable = settable(alloc, &entries)?;
    push_association(home, holder, &spans, &settable, parameters, made)
}
