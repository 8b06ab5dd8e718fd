//! What every run of the event queue keeps: late updates, plain blocks, nets and inputs.
#![tactic(auto)]

pub mod law;
