// Names in order, as of the macros at the end of a text.

ghost use Rattle.std.specs.Prelude.{◌≡◌, [], OnOk, IfOk};
ghost use Rattle.rtl_prep.specs.Conditions as spec;
ghost use Rattle.rtl_prep.specs.Passes.{all_seen, has, seen};

use crate::directive::Known;
use crate::notices::Notice;
use std::alloc::Global;
use std::collections::BTreeSet;
use std::marker::Model;
use text_ground::memory::Memory;
use text_ground::text::Text;

/// Names of a text, each once.
#[derive(Drop)]
pub struct Names<'a> {
    all: BTreeSet<&'a [u8]>,
}

impl<'a> Model for Names<'a> {
    ghost use Rattle.std.specs.Prelude.{ℕ, List, map};

    ghost Value = { List (List ℕ) };

    ghost view = { λ names. map (λ name. name.now) names.all.keys };
}

impl<'a> Names<'a> {
    pub fn new(alloc: Global) -> Names<'a>
        ensures { result ≡ [] }
    {
        Names {
            all: BTreeSet::new(alloc),
        }
    }

    pub fn contains(&self, name: &[u8]) -> bool
        ensures { result ≡ has self.now name.now }
    {
        self.all.contains(name)
    }

    pub fn insert(&mut self, name: &'a [u8]) -> Result<(), Memory>
        ensures { OnOk result (self.new ≡ spec.with_name self.old name.now) }
    {
        self.all.insert(name)?;
        Ok(())
    }

    pub fn remove(&mut self, name: &[u8])
        ensures { self.new ≡ spec.without_name self.old name.now }
    {
        self.all.remove(name);
    }

    /// Copies of the names, in order.
    pub fn to_texts(&self, alloc: Global) -> Result<Vec<Text>, Memory>
        ensures { IfOk result (λ texts. texts.items ≡ self.now) }
    {
        let mut texts = Vec::new(alloc);
        for name in self.all.iter() {
            texts.push(Text::from_bytes(alloc, name)?)?;
        }
        Ok(texts)
    }
}

/// Gives or takes the macro of a directive.
fn name_macro<'a>(names: &mut Names<'a>, notice: Notice<'a>) -> Result<(), Memory>
    ensures { OnOk result (names.new ≡ spec.macros_behind names.old (seen notice.entry)) }
{
    if notice.acts {
        match notice.known {
            Known::Define => names.insert(notice.name)?,
            Known::Undef => names.remove(notice.name),
            _ => {}
        }
    }
    Ok(())
}

/// The macros at the end of a text, ascending.
pub fn macros<'a>(alloc: Global, notices: &[Notice<'a>]) -> Result<Vec<Text>, Memory>
    ensures { IfOk result (λ made. made.items ≡ spec.macros_from [] (all_seen notices.now)) }
{
    let mut names = Names::new(alloc);
    for notice in notices {
        name_macro(&mut names, *notice)?;
    }
    names.to_texts(alloc)
}
