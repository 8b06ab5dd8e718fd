//! What the desk answers is a function of its input, but for want of memory and for reads and writes that fail.
#![tactic(auto)]

pub mod law;
