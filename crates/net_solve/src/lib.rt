//! Solutions of designs without cycles: processes that are worked out in order solve the equations, and nothing else does.
#![tactic(auto)]

pub mod law;
