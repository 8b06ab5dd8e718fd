//! The flat design: signals and processes of all instances of a top module, with every expression
//! sized by IEEE 1364-2001 sections 4.4 and 4.5.
#![tactic(auto)]

pub mod act;
pub mod design;
pub mod expr;
pub mod instance;
pub mod note;
pub mod signal;
