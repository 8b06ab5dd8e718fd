//! What parameters and constants are by the standard, and which expressions other tools read otherwise than the desk.
#![tactic(auto)]

mod alike;
pub mod cases;
pub mod contexts;
pub mod declarations;
pub mod differing;
pub mod literals;
pub mod nested;
pub mod notes;
pub mod numbers;
mod powers;
pub mod scopes;
pub mod standard;
pub mod standards;
pub mod unsized_numbers;
pub mod uses;
pub mod worth;

// Passed on to the crates above.
pub use elab_walk;
