//! Items in the innermost block, and what they declare.

ghost use Rattle.std.specs.Prelude.{◌≡◌, ◌∷◌, [], IfOk, OnOk, map};
ghost use Rattle.rtl_tree.specs.TreeExpr.{formula, identifier};
ghost use Rattle.rtl_tree.specs.TreeItem.{module_item};
ghost use Rattle.elab_scope.specs.Names.{Meanings, meanings};
ghost use Rattle.elab_items.specs.Declarations.{declaration};
ghost use Rattle.elab_items.specs.Settings.{parameter_of, set_or, settings_of, value_of};
ghost use Rattle.elab_items.specs.declared.reach.Reach.TheVariants.{Scalar};
ghost use Rattle.elab_expand.specs.Expansions.{naming, labelling, placing};
ghost use Rattle.elab_expand.specs.Openings.{opening, outers};
ghost use Rattle.elab_expand.specs.Scoping.{numbers_at, reach_behind, scopes, with_declaration, with_declarations, with_names};
ghost use Rattle.elab_expand.specs.declared.tally.Tally.{Tally as Kept};

use crate::block::{BlockSoFar, Piece, Site};
use crate::scopes::Scopes;
use elab_items::entries::{Entry, push_item};
use elab_items::overrides::{Override, Overrides, parameter_of, value_of};
use elab_items::reach::{Reach, reach_of};
use elab_scope::known::{Known, Role};
use elab_scope::names::Names;
use rtl_tree::tree::expr::Expr;
use rtl_tree::tree::item::Item;
use rtl_tree::tree::names::Name;
use std::alloc::Global;
use std::slice;
use text_ground::memory::Memory;
use text_ground::text::Text;

/// What has no number.
const NUMBERLESS: Known = Known::Signal {
    number: 0,
    role: Role::Net,
    shape: None,
};

/// The range that stands before the next parameter.
fn reach_behind(within: Scopes<'_>, reach: Reach, entry: Entry<'_>) -> Reach
    ensures { result ≡ reach_behind (scopes within.entry) reach (declaration entry.entry) }
{
    match entry {
        Entry::ParameterRange(range) => reach_of(32, range, &within),
        Entry::Parameter(_, _, _)
        | Entry::SignalRange(_)
        | Entry::Listed(_)
        | Entry::Signal { .. }
        | Entry::Integer(_)
        | Entry::Instance(_) => reach,
    }
}

/// What a parameter is, by its value or what the instance sets.
fn parameter(given: Option<Override>, reach: Reach, value: &Expr, within: Scopes<'_>) -> Known
    ensures { result ≡ parameter_of reach
        (set_or given (value_of (numbers_at (scopes within.entry)) (formula value.now))) }
{
    let own = value_of(value, &within);
    parameter_of(reach, given.unwrap_or(own))
}

/// What a declaration declares in the innermost block.
fn declare(
    given: &Overrides,
    outer: &[&Names],
    reach: Reach,
    entry: Entry<'_>,
    own: &mut Names,
) -> Result<(), Memory>
    ensures { OnOk result ((record { outer = outers outer.now; own = meanings own.new })
        ≡ with_declaration (settings_of given.now) (record { outer = outers outer.now; own = meanings own.old })
        reach (declaration entry.entry)) }
{
    match entry {
        Entry::ParameterRange(_) | Entry::SignalRange(_) | Entry::Listed(_) => Ok(()),
        Entry::Parameter(kind, name, value) => {
            let set = given.given_to(kind, &name.text);
            let known = parameter(
                set,
                reach,
                value,
                Scopes {
                    outer: &*outer,
                    own: &*own,
                },
            );
            own.declare(&name.text, known)
        }
        Entry::Signal { name, .. } | Entry::Integer(name) | Entry::Instance(name) => {
            own.declare(&name.text, NUMBERLESS)
        }
    }
}

/// What declarations declare in the innermost block, one after the other.
pub(crate) fn declare_all(
    given: &Overrides,
    outer: &[&Names],
    entries: &[Entry<'_>],
    own: &mut Names,
) -> Result<(), Memory>
    ensures { OnOk result ((record { outer = outers outer.now; own = meanings own.new })
        ≡ with_declarations (settings_of given.now) (record { outer = outers outer.now; own = meanings own.old })
        Scalar (map declaration entries.now)) }
{
    let mut reach = Reach::Scalar;
    for entry in entries {
        let next = reach_behind(
            Scopes {
                outer: &*outer,
                own: &*own,
            },
            reach,
            *entry,
        );
        declare(given, outer, reach, *entry, own)?;
        reach = next;
    }
    Ok(())
}

/// An item stands in the innermost block, which declares its names.
pub(crate) fn place<'a>(
    site: Site<'_>,
    item: &'a Item,
    block: &mut BlockSoFar<'a>,
) -> Result<(), Memory>
    ensures { OnOk result ((tally : Kept) → opening (outers site.entry.outer.now) block.new tally
        ≡ placing (settings_of site.entry.given.now)
        (opening (outers site.entry.outer.now) block.old tally) (module_item item.now)) }
{
    let mut entries = Vec::new(site.alloc);
    push_item(item, &mut entries)?;
    declare_all(site.given, site.outer, &entries, &mut block.own)?;
    block.items.push(Piece::Borrowed(item))?;
    Ok(())
}

fn declare_names(
    outer: &[&Names],
    names: &[Name],
    meaning: Known,
    own: &mut Names,
) -> Result<(), Memory>
    ensures { OnOk result ((record { outer = outers outer.now; own = meanings own.new })
        ≡ with_names (record { outer = outers outer.now; own = meanings own.old })
        (map identifier names.now) meaning) }
{
    for name in names {
        own.declare(&name.text, meaning)?;
    }
    Ok(())
}

pub(crate) fn copied(alloc: Global, name: &Name) -> Result<Name, Memory>
    ensures { IfOk result (λ made. identifier made ≡ identifier name.now) }
{
    let text = Text::from_bytes(alloc, name.text.as_bytes())?;
    Ok(Name { text, at: name.at })
}

fn all_copied(alloc: Global, names: &[Name]) -> Result<Vec<Name>, Memory>
    ensures { IfOk result (λ made. map identifier made.items ≡ map identifier names.now) }
{
    let mut made = Vec::new(alloc);
    for name in names {
        made.push(copied(alloc, name)?)?;
    }
    Ok(made)
}

/// Names that stand for nothing else: those of blocks, and genvars.
pub(crate) fn name_all(
    site: Site<'_>,
    at: u32,
    names: &[Name],
    meaning: Known,
    block: &mut BlockSoFar<'_>,
) -> Result<(), Memory>
    ensures { OnOk result ((tally : Kept) → opening (outers site.entry.outer.now) block.new tally
        ≡ naming (opening (outers site.entry.outer.now) block.old tally) at (map identifier names.now) meaning) }
{
    declare_names(site.outer, names, meaning, &mut block.own)?;
    let names = all_copied(site.alloc, names)?;
    block.items.push(Piece::Made(Item::Gates {
        at,
        names,
        delay: None,
        drives: Vec::new(site.alloc),
    }))?;
    Ok(())
}

/// The name of a block.
pub(crate) fn label(site: Site<'_>, name: &Name, block: &mut BlockSoFar<'_>) -> Result<(), Memory>
    ensures { OnOk result ((tally : Kept) → opening (outers site.entry.outer.now) block.new tally
        ≡ labelling (opening (outers site.entry.outer.now) block.old tally) (identifier name.now)) }
{
    name_all(site, name.at, slice::from_ref(name), NUMBERLESS, block)
}
