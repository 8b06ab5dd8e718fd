//! A map from names to values, as contracts see it: a function of the name.
#![tactic(auto)]

mod packed;

ghost use Rattle.std.specs.Prelude.{◌≡◌, IfOk, IsSome, OnErr, OnOk};
ghost use Rattle.name_map.specs.Values.{entered, no_values, values_of, with_value};

use crate::packed::{is_short, packed};
use std::alloc::Global;
use std::collections::BTreeMap;
use text_ground::memory::Memory;
use text_ground::text::Text;

/// A map from names to values. The order of its keys can't be made slow by a choice of names.
///
/// Nearly all names are short. Each of these is a number, so that a comparison is one of numbers, and its key takes no memory.
#[derive(Drop)]
pub struct NameMap<V> {
    alloc: Global,
    short: BTreeMap<u128, V>,
    long: BTreeMap<Vec<u8>, V>,
}

impl<V: Copy> NameMap<V> {
    /// No name has a value yet.
    pub fn new(alloc: Global) -> NameMap<V>
        ensures { values_of result ≡ no_values }
    {
        NameMap {
            alloc,
            short: BTreeMap::new(alloc),
            long: BTreeMap::new(alloc),
        }
    }

    /// The value of the name, where it has one.
    pub fn find(&self, name: &Text) -> Option<V>
        ensures { result ≡ values_of self.now name.now }
    {
        let bytes = name.as_bytes();
        if is_short(bytes) {
            self.short.get(&packed(bytes)).copied()
        } else {
            self.long.get(bytes).copied()
        }
    }

    /// Gives the name this value, and returns the one that it had. Where memory runs out, nothing has changed.
    fn exchange(&mut self, name: &Text, value: V) -> Result<Option<V>, Memory>
        ensures had { IfOk result (λ had. had ≡ values_of self.old name.now) }
        ensures ok { OnOk result (values_of self.new
            ≡ with_value (values_of self.old) name.now value) }
        ensures err { OnErr result (values_of self.new ≡ values_of self.old) }
    {
        let bytes = name.as_bytes();
        if is_short(bytes) {
            let had = self.short.insert(packed(bytes), value)?;
            return Ok(had);
        }
        let key = Vec::from_slice(self.alloc, bytes)?;
        let had = self.long.insert(key, value)?;
        Ok(had)
    }

    /// Gives the name this value, in place of the one that it may have. Where memory runs out, nothing has changed.
    pub fn put(&mut self, name: &Text, value: V) -> Result<(), Memory>
        ensures ok { OnOk result (values_of self.new
            ≡ with_value (values_of self.old) name.now value) }
        ensures err { OnErr result (values_of self.new ≡ values_of self.old) }
    {
        self.exchange(name, value)?;
        Ok(())
    }

    /// Gives the name this value where it has none: of several values the first holds.
    pub fn enter(&mut self, name: &Text, value: V) -> Result<(), Memory>
        ensures ok { OnOk result (values_of self.new
            ≡ entered (values_of self.old) name.now value) }
        ensures err { OnErr result (values_of self.new ≡ values_of self.old) }
    {
        // Nearly all names are new: one search in place of two.
        if let Some(first) = self.exchange(name, value)? {
            self.replace(name, first);
        }
        Ok(())
    }

    /// Gives a name that has a value another one. It takes no memory.
    pub fn replace(&mut self, name: &Text, value: V)
        requires { IsSome (values_of self.old name.now) }
        ensures { values_of self.new ≡ with_value (values_of self.old) name.now value }
    {
        let bytes = name.as_bytes();
        if is_short(bytes) {
            if let Some(place) = self.short.get_mut(&packed(bytes)) {
                *place = value;
            }
        } else if let Some(place) = self.long.get_mut(bytes) {
            *place = value;
        }
    }
}
