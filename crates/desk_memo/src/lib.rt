//! The texts of files as they were read last, and the answers for tops that are kept beside what they
//! looked up. What is said of a design is a type of the crates above.
#![tactic(auto)]

mod answer;
mod aside;
mod current;
mod exchange;
mod kept;
mod memo;
mod place;
mod reading;
pub mod reading_law;
mod readings;
mod used;

pub use answer::Answer;
pub use aside::Aside;
pub use kept::Kept;
pub use memo::Memo;
pub use readings::Readings;

// Passed on to the crates above.
pub use check_conditions;
