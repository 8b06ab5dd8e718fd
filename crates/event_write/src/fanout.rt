//! Who hears changes of signals, and who drives them.

use crate::listener::Listener;
use rtl_flat::act::ProcId;
use rtl_flat::design::Design;

/// What follows from changes in a design; it stays the same while a simulator runs.
#[derive(Drop)]
pub struct Fanout<'d> {
    pub design: &'d Design,
    /// For each signal who hears changes of it.
    pub listeners: Vec<Vec<Listener>>,
    /// For each signal the continuous assignments that drive a part of it, in order.
    pub drivers: Vec<Vec<ProcId>>,
}
