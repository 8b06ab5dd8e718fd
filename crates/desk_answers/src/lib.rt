//! What files say of a top, worked out from their texts alone, and the rulings of it that are kept: by
//! any judge of designs.
#![tactic(auto)]

mod fresh;
mod judge;
mod keeping;
pub mod law;

pub use judge::Judge;
pub use keeping::kept_of;

// Passed on to the crates above.
pub use elab_names::elab_links;
