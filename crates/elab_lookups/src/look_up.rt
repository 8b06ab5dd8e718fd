// What a name meant.

use elab_links::module_set::Lookup;
use text_ground::text::Text;

/// A name that was looked up among modules, and what it meant.
#[derive(Drop)]
pub struct LookUp {
    pub name: Text,
    pub meant: Lookup,
}
