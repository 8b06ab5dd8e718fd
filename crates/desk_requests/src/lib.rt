//! What is asked of the desk, and what it answers, whatever carries them.
#![tactic(auto)]

mod ask;
mod reply;

pub use ask::{Ask, Request, WaiverAsk};
pub use reply::{BodyKind, Reply};
