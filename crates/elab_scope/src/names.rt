//! The names of a module.

ghost use Rattle.std.specs.Prelude.{◌≡◌, OnOk, OnErr};
ghost use Rattle.elab_scope.specs.Names.{entered, indexed, meanings, no_meanings, numbers_in};

use crate::known::Known;
use name_map::NameMap;
use rtl_const::params::Lookup;
use std::alloc::Global;
use text_ground::memory::Memory;
use text_ground::text::Text;

/// What the names of a module stand for.
#[derive(Drop)]
pub struct Names {
    known: NameMap<Known>,
}

impl Names {
    /// No name is declared yet.
    pub fn new(alloc: Global) -> Names
        ensures { meanings result ≡ no_meanings }
    {
        Names {
            known: NameMap::new(alloc),
        }
    }

    /// What the name stands for, where it is declared.
    pub fn find(&self, name: &Text) -> Option<Known>
        ensures { result ≡ meanings self.now name.now }
    {
        self.known.find(name)
    }

    /// Declares the name; of a name that is there already the first declaration holds.
    pub fn declare(&mut self, name: &Text, known: Known) -> Result<(), Memory>
        ensures ok { OnOk result (meanings self.new ≡ entered (meanings self.old) name.now known) }
        ensures err { OnErr result (meanings self.new ≡ meanings self.old) }
    {
        self.known.enter(name, known)
    }

    /// Gives an `integer` its number in a turn of its loop, or takes it away again. It takes no memory.
    pub fn set_index(&mut self, name: &Text, number: Option<i64>)
        ensures { meanings self.new ≡ indexed (meanings self.old) name.now number }
    {
        if let Some(Known::Integer(_)) = self.find(name) {
            self.known.replace(name, Known::Integer(number));
        }
    }
}

impl Lookup for Names {
    ghost numbers = { λ names. numbers_in (meanings names) };

    fn get(&self, name: &Text) -> Option<i64> {
        match self.find(name)? {
            Known::Signal { .. } => None,
            Known::Parameter { number, .. } | Known::Integer(number) => number,
        }
    }
}
