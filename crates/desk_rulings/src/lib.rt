//! What the rules say of a module beside the waivers that stand, and the requests that look at it:
//! for a waiver, for a sign-off, and for its reach.
#![tactic(auto)]

mod index;
pub mod law;
mod reach;
mod ruled;
mod signing;
mod site;
mod standings;
mod waiving;

pub use reach::{no_reach, reach_outcome};
pub use ruled::Ruled;
pub use signing::sign_off;
pub use standings::{left, standing};
pub use waiving::waive;
