//! Ports that are signed in one of their two declarations.

ghost use Rattle.std.specs.Prelude.{◌≡◌, ◌++◌, IfOk, OnOk, map};
ghost use Rattle.std.specs.List.{flat_map, slice_get};
ghost use Rattle.std.specs.Option.{option_map};
ghost use Rattle.rtl_tree.specs.TreeExpr.{identifier};
ghost use Rattle.elab_uses.specs.elab_items.Claims.{is_directed};
ghost use Rattle.elab_uses.specs.elab_items.Declarations.{declaration};
ghost use Rattle.elab_uses.specs.elab_items.Rosters.{listing};
ghost use Rattle.elab_uses.specs.elab_links.Marks.{marks_of, no_marks, with_marks};
ghost use Rattle.elab_uses.specs.elab_scope.Names.{meanings};
ghost use Rattle.elab_readings.specs.Signs.{listed_note, name_note, sign_note, sign_notes, signed_here, signed_ports, unsigned_here};

use crate::notes::note_at;
use elab_uses::elab_items::entries::{Entry, Form};
use elab_uses::elab_items::roster::Listing;
use elab_uses::elab_links::marks::NameSet;
use elab_uses::elab_links::ports::set_of;
use elab_uses::elab_scope::known::Known;
use elab_uses::elab_scope::names::Names;
use elab_uses::elab_scope::size::signal_of;
use elab_uses::elab_standard::uses::Home;
use rtl_flat::expr::SigId;
use rtl_flat::note::{Note, Reading};
use rtl_tree::tree::names::Name;
use std::alloc::Global;
use text_ground::memory::Memory;

fn is_directed(form: Form) -> bool
    ensures { result ≡ is_directed form }
{
    match form {
        Form::Header(_, _) | Form::Item(_, _) => true,
        Form::Wire | Form::Reg => false,
    }
}

fn push_signed<'a>(entry: Entry<'a>, names: &mut Vec<&'a Name>) -> Result<(), Memory>
    ensures { OnOk result (map (λ name. identifier name.now) names.new.items
        ≡ map (λ name. identifier name.now) names.old.items ++ signed_here (declaration entry.entry)) }
{
    match entry {
        Entry::Signal { form, signed, name } => {
            if signed && is_directed(form) {
                names.push(name)?;
            }
        }
        Entry::ParameterRange(_) | Entry::Parameter(_, _, _) => {}
        Entry::SignalRange(_) | Entry::Listed(_) => {}
        Entry::Integer(_) | Entry::Instance(_) => {}
    }
    Ok(())
}

/// The names of ports whose direction is declared `signed`.
fn signed_of<'a>(alloc: Global, entries: &[Entry<'a>]) -> Result<Vec<&'a Name>, Memory>
    ensures { IfOk result (λ names. map (λ name. identifier name.now) names.items
        ≡ flat_map signed_here (map declaration entries.now)) }
{
    let mut names = Vec::new(alloc);
    for entry in entries {
        push_signed(*entry, &mut names)?;
    }
    Ok(names)
}

/// The signal with a number in its module.
fn listed_at<'a>(listings: &[Listing<'a>], number: u16) -> Option<Listing<'a>>
    ensures { option_map listing result ≡ slice_get (map listing listings.now) number }
{
    match listings.get(usize::from(number)) {
        None => None,
        Some(one) => Some(*one),
    }
}

/// It is told at the place of the signal.
fn push_listed(
    home: Home,
    signal: SigId,
    one: Option<Listing<'_>>,
    made: &mut Vec<Note>,
) -> Result<(), Memory>
    ensures { OnOk result (made.new.items ≡ made.old.items
        ++ listed_note home signal.0 (option_map listing one.entry)) }
{
    match one {
        None => {}
        Some(one) => {
            made.push(note_at(Reading::PortSign, Some(signal), home, one.line.at))?;
        }
    }
    Ok(())
}

fn push_sign(
    home: Home,
    base: u16,
    listings: &[Listing<'_>],
    known: Option<Known>,
    made: &mut Vec<Note>,
) -> Result<(), Memory>
    ensures { OnOk result (made.new.items ≡ made.old.items
        ++ sign_note home base (map listing listings.now) known) }
{
    match known {
        Some(Known::Signal { number, .. }) => {
            let signal = signal_of(base, known);
            push_listed(home, signal, listed_at(listings, number), made)
        }
        Some(Known::Parameter { .. } | Known::Integer(_)) | None => Ok(()),
    }
}

/// A declaration more, where the set has the ports whose direction is declared `signed`.
fn push_entry(
    home: Home,
    base: u16,
    names: &Names,
    listings: &[Listing<'_>],
    ports: &NameSet,
    entry: Entry<'_>,
    made: &mut Vec<Note>,
) -> Result<(), Memory>
    ensures { OnOk result (made.new.items ≡ made.old.items
        ++ flat_map (name_note home base (meanings names.now) (map listing listings.now))
        (unsigned_here (marks_of ports.now) (declaration entry.entry))) }
{
    match entry {
        Entry::Signal { form, signed, name } => {
            if signed || is_directed(form) || !ports.has(&name.text) {
                return Ok(());
            }
            push_sign(home, base, listings, names.find(&name.text), made)
        }
        Entry::ParameterRange(_)
        | Entry::Parameter(_, _, _)
        | Entry::SignalRange(_)
        | Entry::Listed(_)
        | Entry::Integer(_)
        | Entry::Instance(_) => Ok(()),
    }
}

fn push_entries(
    home: Home,
    base: u16,
    names: &Names,
    listings: &[Listing<'_>],
    ports: &NameSet,
    entries: &[Entry<'_>],
    made: &mut Vec<Note>,
) -> Result<(), Memory>
    ensures { OnOk result (made.new.items ≡ made.old.items
        ++ flat_map (name_note home base (meanings names.now) (map listing listings.now))
        (flat_map (unsigned_here (marks_of ports.now)) (map declaration entries.now))) }
{
    for entry in entries {
        push_entry(home, base, names, listings, ports, *entry, made)?;
    }
    Ok(())
}

/// The ports of a module with these declarations that are signed in one of two. Most modules have no port that is declared
/// `signed`, and cost one look.
pub(crate) fn push_signs(
    alloc: Global,
    home: Home,
    base: u16,
    names: &Names,
    listings: &[Listing<'_>],
    entries: &[Entry<'_>],
    made: &mut Vec<Note>,
) -> Result<(), Memory>
    ensures { OnOk result (made.new.items ≡ made.old.items
        ++ sign_notes home base (meanings names.now) (map listing listings.now)
        (map declaration entries.now)) }
{
    let signed = signed_of(alloc, entries)?;
    if signed.is_empty() {
        return Ok(());
    }
    let ports = set_of(alloc, &signed)?;
    push_entries(home, base, names, listings, &ports, entries, made)
}
