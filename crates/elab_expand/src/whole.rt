//! A module without its constructs.

ghost use Rattle.std.specs.Prelude.{◌≡◌, [], None, IfOk, IfSome, OnOk, map};
ghost use Rattle.rtl_tree.specs.TreeItem.{module_item};
ghost use Rattle.rtl_tree.specs.TreeModule.{circuit, construct};
ghost use Rattle.elab_items.specs.Settings.{no_settings, settings_of};
ghost use Rattle.elab_expand.specs.declared.tally.Tally.{Tally as Kept};
ghost use Rattle.elab_expand.specs.Expansions.{all_placed, beginning, expansion, opened_module};
ghost use Rattle.elab_expand.specs.Openings.{expansion_of, opening, outers, tally};
ghost use Rattle.elab_expand.specs.Tallies.{no_tally};

use crate::block::{BlockSoFar, Site};
use crate::constructs::open_item;
use crate::lifting::lift_items;
use crate::placing::{declare_all, place};
use crate::tally::Tally;
use elab_items::entries::{push_header, push_parameters};
use elab_items::overrides::Overrides;
use elab_renames::modules::with_items;
use rtl_tree::tree::item::Item;
use rtl_tree::tree::modules::{Construct, Module};
use std::alloc::Global;
use text_ground::memory::Memory;
use text_ground::text::Text;

/// What the constructs of a module make.
#[derive(Drop)]
pub struct Expansion {
    /// The module without them.
    pub written: Module,
    pub tally: Tally,
}

fn place_all<'a>(
    site: Site<'_>,
    items: &'a [Item],
    block: &mut BlockSoFar<'a>,
) -> Result<(), Memory>
    ensures { OnOk result ((kept : Kept) → opening (outers site.entry.outer.now) block.new kept
        ≡ all_placed (settings_of site.entry.given.now) (map module_item items.now)
        (opening (outers site.entry.outer.now) block.old kept)) }
{
    for item in items {
        place(site, item, block)?;
    }
    Ok(())
}

/// The items of a module, with its constructs between them.
fn follow<'a>(
    site: Site<'_>,
    items: &'a [Item],
    constructs: &'a [Construct],
    block: &mut BlockSoFar<'a>,
    so_far: &mut Tally,
) -> Result<(), Memory>
    requires { settings_of site.nothing.now ≡ no_settings }
    ensures { OnOk result (opening (outers site.entry.outer.now) block.new so_far.new
        ≡ opened_module (settings_of site.entry.given.now) 0 (map module_item items.now)
        (map construct constructs.now) (opening (outers site.entry.outer.now) block.old so_far.old)) }
{
    let mut position = 0;
    let mut left = items;
    for construct in constructs {
        let count = construct.position.saturating_sub(position).min(left.len());
        let (before, behind) = left.split_at(count);
        place_all(site, before, block)?;
        if !so_far.is_full() {
            open_item(&construct.written, site, block, so_far)?;
        }
        left = behind;
        position = construct.position;
    }
    place_all(site, left, block)
}

/// What the head of a module declares.
fn begin<'a>(site: Site<'_>, written: &Module) -> Result<BlockSoFar<'a>, Memory>
    requires { outers site.outer.now ≡ [] }
    ensures { IfOk result (λ made. (kept : Kept) → tally kept ≡ no_tally
        → opening [] made kept ≡ beginning (settings_of site.entry.given.now) (circuit written.now)) }
{
    let mut entries = Vec::new(site.alloc);
    push_parameters(&written.parameters, &mut entries)?;
    push_header(&written.ports, &mut entries)?;
    let mut block = BlockSoFar::new(site.alloc);
    declare_all(site.given, site.outer, &entries, &mut block.own)?;
    Ok(block)
}

/// What the constructs of a module make; a module without any stands for itself.
pub fn expand(
    alloc: Global,
    written: &Module,
    given: &Overrides,
) -> Result<Option<Expansion>, Memory>
    ensures none { IfOk result (λ found. found ≡ None → (circuit written.now).constructs ≡ []) }
    ensures made { IfOk result (λ found. IfSome found (λ made. expansion_of made
        ≡ expansion (settings_of given.now) (circuit written.now))) }
{
    if written.constructs.is_empty() {
        return Ok(None);
    }
    let nothing = Overrides::new(alloc);
    let site = Site {
        alloc,
        given,
        nothing: &nothing,
        outer: &[],
    };
    let mut tally = Tally::new(alloc);
    let mut block = begin(site, written)?;
    follow(
        site,
        &written.items,
        &written.constructs,
        &mut block,
        &mut tally,
    )?;
    let component = Text::from_vec(Vec::new(alloc));
    let items = lift_items(
        alloc,
        &block.own,
        &component,
        written.at,
        &block.items,
        &mut tally,
    )?;
    let written = with_items(alloc, written, items)?;
    Ok(Some(Expansion { written, tally }))
}
