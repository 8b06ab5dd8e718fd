//! What names mean where generate blocks stand in one another.

ghost use Rattle.std.specs.Prelude.{◌≡◌, map};
ghost use Rattle.elab_scope.specs.Names.{meanings};
ghost use Rattle.elab_expand.specs.Scoping.{innermost, meaning_in, numbers_at, scopes};

use elab_genvars::sorts::Sorts;
use elab_scope::known::Known;
use elab_scope::names::Names;
use rtl_const::params::Lookup;
use text_ground::text::Text;

/// What the blocks round a place declare so far.
#[derive(Clone, Copy)]
pub struct Scopes<'s> {
    /// The blocks round the innermost one, the outermost first.
    pub outer: &'s [&'s Names],
    pub own: &'s Names,
}

/// What the innermost of some blocks says of a name that says something.
fn innermost(all: &[&Names], name: &Text) -> Option<Known>
    ensures { result ≡ innermost (map (λ names. meanings names.now) all.now) name.now }
{
    let mut found = None;
    for names in all {
        if let Some(known) = names.find(name) {
            found = Some(known);
        }
    }
    found
}

impl Scopes<'_> {
    /// What the name means.
    pub fn find(&self, name: &Text) -> Option<Known>
        ensures { result ≡ meaning_in (scopes self.now) name.now }
    {
        match self.own.find(name) {
            Some(known) => Some(known),
            None => innermost(self.outer, name),
        }
    }
}

impl Lookup for Scopes<'_> {
    ghost numbers = { λ kept. numbers_at (scopes kept) };

    fn get(&self, name: &Text) -> Option<i64> {
        match self.find(name)? {
            Known::Signal { .. } => None,
            Known::Parameter { number, .. } | Known::Integer(number) => number,
        }
    }
}

impl Sorts for Scopes<'_> {
    ghost sorts = { λ kept. meaning_in (scopes kept) };

    fn sort(&self, name: &Text) -> Option<Known> {
        self.find(name)
    }
}
