//! The parameters of an instance by the standard.

ghost use Rattle.std.specs.Prelude.{◌≡◌, IfOk, OnOk, false, length, map};
ghost use Rattle.std.specs.List.{slice_get};
ghost use Rattle.std.specs.Option.{option_map};
ghost use Rattle.name_map.specs.Values.{no_values, values_of};
ghost use Rattle.rtl_tree.specs.TreeExpr.{formula, identifier};
ghost use Rattle.rtl_tree.specs.TreeItem.{associated, association, positional};
ghost use Rattle.rtl_tree.specs.TreeModule.{circuit};
ghost use Rattle.elab_walk.specs.elab_items.Declarations.{declaration};
ghost use Rattle.elab_walk.specs.elab_scope.Names.{meanings};
ghost use Rattle.elab_standard.specs.Scopes.{scopes};
ghost use Rattle.elab_standard.specs.Standards.{all_standards, converted, given_at, given_by, given_parameter, given_to, given_value, named_given, number_given, ordered_given, own_parameter, own_standard, parameter_standard, parameter_width, ranged_after, ranged_standard, ranged_width, scopes_of, standards_after};

use crate::contexts::own_context;
use crate::literals::{range_bits, standard_bits};
use crate::scopes::{By, Scopes};
use crate::standard::Standard;
use crate::unsized_numbers::is_unsized;
use crate::worth::{own_worth, taken_worth};
use elab_walk::elab_items::entries::{Entry, entries_of};
use elab_walk::elab_scope::known::Known;
use elab_walk::elab_scope::names::Names;
use name_map::NameMap;
use rtl_bits::Vec4;
use rtl_tree::tree::expr::Expr;
use rtl_tree::tree::item::{Arguments, NamedArgument, OrderedArgument, ParameterKind};
use rtl_tree::tree::modules::Module;
use rtl_tree::tree::names::Name;
use std::alloc::Global;
use text_ground::memory::Memory;
use text_ground::text::Text;

/// The number that bits spell, where all of them are known.
fn number_given(bits: Vec4) -> Option<u128>
    ensures { result ≡ number_given bits }
{
    if bits.is_known() {
        Some(bits.number())
    } else {
        None
    }
}

/// What a parameter without a range is where its value is this expression.
pub(crate) fn own_standard(e: &Expr, kept: &Scopes) -> Standard
    ensures { result ≡ own_standard (scopes kept.now) (formula e.now) }
{
    let own = own_context(e, kept, By::Standard);
    Standard {
        width: own.width,
        signed: own.signed,
        bits: number_given(own_worth(e, kept)),
        sized: !is_unsized(e, kept),
    }
}

/// What a parameter with a range is.
fn ranged_standard(bits: Vec4) -> Standard
    ensures { result ≡ ranged_standard (length bits) bits }
{
    Standard {
        width: bits.width(),
        signed: false,
        bits: number_given(bits),
        sized: true,
    }
}

/// A parameter with its own value.
fn own_parameter(width: Option<u8>, value: &Expr, kept: &Scopes) -> Standard
    ensures { result ≡ own_parameter (scopes kept.now) width (formula value.now) }
{
    match width {
        None => own_standard(value, kept),
        Some(width) => ranged_standard(taken_worth(range_bits(width), value, kept)),
    }
}

/// A parameter with the value that its instance gives it.
fn given_parameter(width: Option<u8>, given: Standard) -> Standard
    ensures { result ≡ given_parameter width given }
{
    match width {
        None => given,
        Some(width) => {
            ranged_standard(standard_bits(given).extend(range_bits(width), given.signed))
        }
    }
}

fn parameter_standard(
    width: Option<u8>,
    given: Option<Standard>,
    value: &Expr,
    kept: &Scopes,
) -> Standard
    ensures { result ≡ parameter_standard (scopes kept.now) width given (formula value.now) }
{
    match given {
        None => own_parameter(width, value, kept),
        Some(given) => given_parameter(width, given),
    }
}

/// The width of a parameter by the desk.
fn parameter_width(known: Option<Known>) -> Option<u8>
    ensures { result ≡ parameter_width known }
{
    match known {
        Some(Known::Parameter { width, .. }) => Some(width),
        None | Some(Known::Signal { .. }) | Some(Known::Integer(_)) => None,
    }
}

/// The width of a parameter's range, where it has one.
pub(crate) fn ranged_width(ranged: bool, name: &Text, names: &Names) -> Option<u8>
    ensures { result ≡ ranged_width (meanings names.now) ranged name.now }
{
    if ranged {
        parameter_width(names.find(name))
    } else {
        None
    }
}

/// What an instance gives a parameter; a `localparam` keeps its value.
pub(crate) fn given_to(
    kind: ParameterKind,
    name: &Text,
    given: &NameMap<Standard>,
) -> Option<Standard>
    ensures { result ≡ given_to (values_of given.now) kind name.now }
{
    match kind {
        ParameterKind::Parameter => given.find(name),
        ParameterKind::Local => None,
    }
}

/// Whether the parameters behind a declaration have a range.
pub(crate) fn ranged_after(ranged: bool, entry: Entry<'_>) -> bool
    ensures { result ≡ ranged_after ranged (declaration entry.entry) }
{
    match entry {
        Entry::ParameterRange(range) => range.is_some(),
        Entry::Parameter(_, _, _)
        | Entry::SignalRange(_)
        | Entry::Listed(_)
        | Entry::Signal { .. }
        | Entry::Integer(_)
        | Entry::Instance(_) => ranged,
    }
}

impl Scopes {
    /// The parameter of a declaration, with the parameters before it.
    fn enter(
        &mut self,
        entry: Entry<'_>,
        given: &NameMap<Standard>,
        ranged: bool,
    ) -> Result<(), Memory>
        ensures same { OnOk result (meanings self.new.names ≡ meanings self.old.names) }
        ensures entered { OnOk result (values_of self.new.standards
            ≡ standards_after (meanings self.old.names) (values_of given.now) ranged
            (values_of self.old.standards) (declaration entry.entry)) }
    {
        match entry {
            Entry::Parameter(kind, name, value) => {
                let width = ranged_width(ranged, &name.text, &self.names);
                let given = given_to(kind, &name.text, given);
                let standard = parameter_standard(width, given, value, self);
                self.standards.enter(&name.text, standard)
            }
            Entry::ParameterRange(_)
            | Entry::SignalRange(_)
            | Entry::Listed(_)
            | Entry::Signal { .. }
            | Entry::Integer(_)
            | Entry::Instance(_) => Ok(()),
        }
    }

    /// The parameters of all declarations, in their order.
    fn enter_all(&mut self, entries: &[Entry<'_>], given: &NameMap<Standard>) -> Result<(), Memory>
        ensures same { OnOk result (meanings self.new.names ≡ meanings self.old.names) }
        ensures entered { OnOk result (values_of self.new.standards
            ≡ all_standards (meanings self.old.names) (values_of given.now) false
            (values_of self.old.standards) (map declaration entries.now)) }
    {
        let mut ranged = false;
        for entry in entries {
            self.enter(*entry, given, ranged)?;
            ranged = ranged_after(ranged, *entry);
        }
        Ok(())
    }

    /// Those of a module in an instance that is given so much, where its names stand for this by the desk.
    pub fn of(
        alloc: Global,
        names: Names,
        written: &Module,
        given: &NameMap<Standard>,
    ) -> Result<Scopes, Memory>
        ensures { IfOk result (λ made. scopes made
            ≡ scopes_of (meanings names) (values_of given.now) (circuit written.now)) }
    {
        let mut made = Scopes {
            names,
            standards: NameMap::new(alloc),
        };
        made.enter_all(&entries_of(alloc, written)?, given)?;
        Ok(made)
    }
}

/// An empty argument gives nothing.
fn give(
    name: &Text,
    value: &Option<Expr>,
    holder: &Scopes,
    given: &mut NameMap<Standard>,
) -> Result<(), Memory>
    ensures { OnOk result (values_of given.new
        ≡ given_value (scopes holder.now) (values_of given.old) name.now
        (option_map formula value.now)) }
{
    if let Some(value) = value {
        given.put(name, own_standard(value, holder))?;
    }
    Ok(())
}

#[tactic(auto, using(crate::proofs::Places::at_place))]
fn give_at(
    settable: &[&Name],
    place: usize,
    value: &Option<Expr>,
    holder: &Scopes,
    given: &mut NameMap<Standard>,
) -> Result<(), Memory>
    ensures { OnOk result (values_of given.new
        ≡ given_at (scopes holder.now) (values_of given.old)
        (slice_get (map (λ name. identifier name.now) settable.now) place)
        (option_map formula value.now)) }
{
    match settable.get(place) {
        None => Ok(()),
        Some(name) => give(&name.text, value, holder, given),
    }
}

fn give_ordered(
    settable: &[&Name],
    arguments: &[OrderedArgument],
    holder: &Scopes,
    given: &mut NameMap<Standard>,
) -> Result<(), Memory>
    ensures { OnOk result (values_of given.new
        ≡ ordered_given (scopes holder.now) (map (λ name. identifier name.now) settable.now)
        (values_of given.old) 0 (map positional arguments.now)) }
{
    for (place, argument) in arguments.iter().enumerate() {
        give_at(settable, place, &argument.value, holder, given)?;
    }
    Ok(())
}

fn give_named(
    arguments: &[NamedArgument],
    holder: &Scopes,
    given: &mut NameMap<Standard>,
) -> Result<(), Memory>
    ensures { OnOk result (values_of given.new
        ≡ named_given (scopes holder.now) (values_of given.old) (map associated arguments.now)) }
{
    for argument in arguments {
        give(&argument.name.text, &argument.value, holder, given)?;
    }
    Ok(())
}

/// What an instance of a module with these settable parameters gives them, with the scopes of the instance that holds it.
pub fn given_by(
    alloc: Global,
    settable: &[&Name],
    parameters: &Arguments,
    holder: &Scopes,
) -> Result<NameMap<Standard>, Memory>
    ensures { IfOk result (λ given. values_of given
        ≡ given_by (map (λ name. identifier name.now) settable.now) (scopes holder.now)
        (association parameters.now)) }
{
    let mut given = NameMap::new(alloc);
    match parameters {
        Arguments::Ordered(arguments) => give_ordered(settable, arguments, holder, &mut given)?,
        Arguments::Named(arguments) => give_named(arguments, holder, &mut given)?,
    }
    Ok(given)
}
