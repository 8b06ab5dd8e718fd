//! Sets of names.

ghost use Rattle.std.specs.Prelude.{◌≡◌, OnOk};
ghost use Rattle.elab_links.specs.Marks.{marks_of, no_marks, with_mark};

use name_map::NameMap;
use std::alloc::Global;
use text_ground::memory::Memory;
use text_ground::text::Text;

/// A set of names.
#[derive(Drop)]
pub struct NameSet {
    names: NameMap<bool>,
}

impl NameSet {
    /// The set without a name.
    pub fn new(alloc: Global) -> NameSet
        ensures { marks_of result ≡ no_marks }
    {
        NameSet {
            names: NameMap::new(alloc),
        }
    }

    /// Whether the name is in the set.
    pub fn has(&self, name: &Text) -> bool
        ensures { result ≡ marks_of self.now name.now }
    {
        self.names.find(name).is_some()
    }

    /// Puts the name into the set.
    pub fn add(&mut self, name: &Text) -> Result<(), Memory>
        ensures { OnOk result (marks_of self.new ≡ with_mark (marks_of self.old) name.now) }
    {
        self.names.put(name, true)?;
        Ok(())
    }
}
