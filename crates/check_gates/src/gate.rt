//! Latches with a gate from outside.

use rtl_bits::Bit;
use rtl_flat::act::ProcId;
use rtl_flat::expr::SigId;

/// A process that is a latch with a gate from outside (IEEE 1364.1-2002 section 5.3): the signal that it tests, the input of
/// the top that this comes from, and the value of it at which the latch is open.
#[derive(Clone, Copy, Debug, PartialEq, Eq)]
pub struct Gate {
    pub process: ProcId,
    pub signal: SigId,
    pub input: SigId,
    pub opens_at: Bit,
}
