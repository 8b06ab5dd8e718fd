//! Numbers of states whose values may be unknown: there are some for whatever the unknown bits are taken for.
#![tactic(auto)]

pub mod law;
