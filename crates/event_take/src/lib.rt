//! The events of the queue of a flat design, each taken by itself.
#![tactic(auto)]

pub mod choice;
pub mod drives;
mod ends;
pub mod events;
mod levels;
pub mod places;
pub mod policies;
pub mod tallies;
pub mod updates;
