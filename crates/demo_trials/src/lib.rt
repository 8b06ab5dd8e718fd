//! The trials by which a finding is shown: what each begins with, in which order and with which fill it is run, and
//! what each of its steps sets. All of it is stated, so that anyone can run a trial again.
//!
//! - Trials 0 to 7 begin with 0 in every bit, or with 1, and each step complements one input.
//! - Trials 8 to 31 begin with values drawn by SHA-256; steps complement one clock, reset or gate, or draw all other inputs.
//! - Trial 32 begins at power-up, and its one step sets all inputs to 0.
//!
//! A demonstration is one line of text that names the trial, the step and the signal at which a finding shows.
#![tactic(auto)]

mod demo;
mod draw;
mod input;
mod step;
mod trial;

pub use crate::demo::{Demo, read_demo};
pub use crate::input::Input;
pub use crate::trial::Trial;
