//! What other tools read otherwise in the texts of a design.
#![tactic(auto)]

pub mod above;
pub mod connections;
pub mod late;
pub mod notes;
pub mod readings;
pub mod signs;
pub mod steady;

// Passed on to the crates above.
pub use elab_uses::elab_walk;
