// What was read beside what is kept.
ghost use Rattle.std.specs.Prelude.{◌≡◌, ◌++◌, ◌∷◌, [], None, Some, OnOk};

use crate::reading::{Fresh, Reading};
use rtl_front::Conditions;
use rtl_tree::tree::modules::Module;
use std::alloc::Global;
use text_ground::memory::Memory;

/// For each file, in the order of the files: what changes places with what is kept of it, or
/// nothing.
#[derive(Drop)]
pub struct Aside<V> {
    pub(crate) readings: Vec<Option<Option<Reading<V>>>>,
    pub(crate) modules: Vec<Option<Vec<Module>>>,
    pub(crate) conditions: Vec<Option<Conditions>>,
}

impl<V: Drop> Aside<V> {
    pub(crate) fn new(alloc: Global) -> Aside<V>
        ensures readings { result.readings.items ≡ [] }
        ensures modules { result.modules.items ≡ [] }
        ensures conditions { result.conditions.items ≡ [] }
    {
        Aside {
            readings: Vec::new(alloc),
            modules: Vec::new(alloc),
            conditions: Vec::new(alloc),
        }
    }

    // What is kept of the next file stays.
    pub(crate) fn push_none(&mut self) -> Result<(), Memory>
        ensures readings { OnOk result
            (self.new.readings.items ≡ self.old.readings.items ++ None ∷ []) }
        ensures modules { OnOk result
            (self.new.modules.items ≡ self.old.modules.items ++ None ∷ []) }
        ensures conditions { OnOk result
            (self.new.conditions.items ≡ self.old.conditions.items ++ None ∷ []) }
    {
        self.readings.push(None)?;
        self.modules.push(None)?;
        self.conditions.push(None)?;
        Ok(())
    }

    pub(crate) fn push(&mut self, fresh: Fresh<V>) -> Result<(), Memory>
        ensures readings { OnOk result
            (self.new.readings.items ≡ self.old.readings.items ++ Some (Some fresh.reading) ∷ []) }
        ensures modules { OnOk result
            (self.new.modules.items ≡ self.old.modules.items ++ Some fresh.modules ∷ []) }
        ensures conditions { OnOk result
            (self.new.conditions.items ≡ self.old.conditions.items ++ Some fresh.conditions ∷ []) }
    {
        let Fresh {
            reading,
            modules,
            conditions,
        } = fresh;
        self.readings.push(Some(Some(reading)))?;
        self.modules.push(Some(modules))?;
        self.conditions.push(Some(conditions))?;
        Ok(())
    }
}
