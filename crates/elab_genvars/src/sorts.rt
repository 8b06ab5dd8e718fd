//! What names stand for, wherever that is kept.

ghost use Rattle.std.specs.Prelude.{◌≡◌};
ghost use Rattle.elab_scope.specs.Names.{meanings};

use elab_scope::known::Known;
use elab_scope::names::Names;
use text_ground::text::Text;

/// What tells what names stand for.
pub trait Sorts {
    ghost use Rattle.elab_scope.specs.Names.{Meanings};

    /// What the names stand for.
    ghost sorts: { Self → Meanings };

    /// What the name stands for, where it is declared.
    fn sort(&self, name: &Text) -> Option<Known>
        ensures { result ≡ sorts self.now name.now };
}

impl Sorts for Names {
    ghost sorts = { meanings };

    fn sort(&self, name: &Text) -> Option<Known> {
        self.find(name)
    }
}
