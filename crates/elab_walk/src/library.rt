//! All modules that a design may be made of.

use elab_links::module_set::ModuleSet;
use rtl_tree::tree::modules::Module;

/// The modules of all files, and which of them a name means.
#[derive(Clone, Copy)]
pub struct Library<'a> {
    pub files: &'a [Vec<Module>],
    pub set: &'a ModuleSet,
}
