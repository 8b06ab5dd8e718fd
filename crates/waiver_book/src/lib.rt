//! The book of waivers: who may set which finding aside, until when, and which waivers stand on a day.
#![tactic(auto)]

mod fault;

pub use fault::{MAX_TERM, RevokeFault, WaiveFault};
