// What names stand for.

ghost use Rattle.std.specs.Prelude.{◌≡◌, IfErr, OnOk, None, Some};
ghost use Rattle.std.specs.Option.{option_map};
ghost use Rattle.rtl_prep.specs.declared.fault.PrepFault.TheVariants.{Memory};
ghost use Rattle.rtl_prep.specs.Macros as spec;
ghost use Rattle.rtl_prep.specs.Reading.{macro};
ghost use Rattle.rtl_prep.specs.Tables.{table, seen_macro};

use crate::fault::PrepFault;
use rtl_tree::token::Token;
use std::alloc::Global;
use std::collections::BTreeMap;

/// A macro.
#[derive(Clone, Copy)]
pub struct Macro<'a> {
    pub body: &'a [Token],
    /// Its replacement is being read.
    pub busy: bool,
}

/// The macros that are defined, by name.
#[derive(Drop)]
pub struct Macros<'a> {
    pub all: BTreeMap<&'a [u8], Macro<'a>>,
}

impl<'a> Macros<'a> {
    pub fn new(alloc: Global) -> Macros<'a>
        ensures { table result ≡ spec.no_macros }
    {
        Macros {
            all: BTreeMap::new(alloc),
        }
    }

    pub fn get(&self, name: &[u8]) -> Option<Macro<'a>>
        ensures { option_map seen_macro result ≡ table self.now name.now }
    {
        self.all.get(name).copied()
    }

    /// Gives a name this body, in place of one that it may have.
    pub fn define(&mut self, name: &'a [u8], body: &'a [Token]) -> Result<(), PrepFault>
        ensures ok { OnOk result (table self.new
            ≡ spec.with_macro (table self.old) name.now (Some (macro body.now))) }
        ensures memory { IfErr result (λ e. e ≡ Memory) }
    {
        let macro_ = Macro { body, busy: false };
        self.all.insert(name, macro_)?;
        Ok(())
    }

    pub(crate) fn undefine(&mut self, name: &[u8])
        ensures { table self.new ≡ spec.with_macro (table self.old) name.now None }
    {
        self.all.remove(name);
    }

    /// Says whether the replacement of a macro is being read.
    pub fn mark(&mut self, name: &[u8], busy: bool)
        ensures { table self.new ≡ spec.marked busy (table self.old) name.now }
    {
        if let Some(found) = self.all.get_mut(name) {
            found.busy = busy;
        }
    }
}
