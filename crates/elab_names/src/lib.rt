//! What elaboration makes of a top in the files that it uses, with the names that it looks up, and where that stays the same.
#![tactic(auto)]

mod design;
pub mod law;
mod moves;
mod names;
mod used;

pub use design::{Elaborated, elaborate};
pub use elab_lookups::{LookUp, resolve};

// Passed on to the crates above.
pub use rtl_elab;
pub use rtl_elab::{elab_links, elab_scope};
