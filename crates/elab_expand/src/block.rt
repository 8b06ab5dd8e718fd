//! Blocks whose items are gathered.

ghost use Rattle.std.specs.Prelude.{◌≡◌, [], map};
ghost use Rattle.rtl_tree.specs.TreeItem.{module_item};
ghost use Rattle.elab_scope.specs.Names.{meanings, no_meanings};
ghost use Rattle.elab_expand.specs.Openings.{piece};

use elab_items::overrides::Overrides;
use elab_scope::names::Names;
use rtl_tree::tree::item::Item;
use std::alloc::Global;

/// An item of a block: one of the module as it is written, or a copy.
#[derive(Drop)]
pub enum Piece<'a> {
    Borrowed(&'a Item),
    Made(Item),
}

impl Piece<'_> {
    pub fn item(&self) -> &Item
        ensures { module_item result.now ≡ piece self.now }
    {
        match self {
            Piece::Borrowed(item) => item,
            Piece::Made(item) => item,
        }
    }
}

/// A block, as far as it is followed.
#[derive(Drop)]
pub struct BlockSoFar<'a> {
    /// What it declares.
    pub own: Names,
    pub items: Vec<Piece<'a>>,
}

impl<'a> BlockSoFar<'a> {
    pub fn new(alloc: Global) -> BlockSoFar<'a>
        ensures own { meanings result.own ≡ no_meanings }
        ensures items { result.items.items ≡ [] }
    {
        BlockSoFar {
            own: Names::new(alloc),
            items: Vec::new(alloc),
        }
    }
}

/// Where a block stands.
#[derive(Clone, Copy)]
pub struct Site<'s> {
    pub alloc: Global,
    /// What the instance sets here.
    pub given: &'s Overrides,
    /// What it sets in blocks of their own: nothing.
    pub nothing: &'s Overrides,
    /// What the blocks round it declare so far, the outermost first.
    pub outer: &'s [&'s Names],
}

impl<'s> Site<'s> {
    /// In a block of its own, which these blocks are round.
    pub(crate) fn inside(self, outer: &'s [&'s Names]) -> Site<'s>
        ensures alloc { result.alloc ≡ self.entry.alloc }
        ensures given { result.given.now ≡ self.entry.nothing.now }
        ensures nothing { result.nothing.now ≡ self.entry.nothing.now }
        ensures outer { result.outer.now ≡ outer.entry.now }
    {
        Site {
            alloc: self.alloc,
            given: self.nothing,
            nothing: self.nothing,
            outer,
        }
    }
}
