//! What the desk says of a design: all findings, what each is about, and where the first of them
//! show.
#![tactic(auto)]

mod verdict;

pub use crate::verdict::Verdict;

// Passed on to the crates above.
pub use demo_clean::demo_replay;
pub use sign_off;
