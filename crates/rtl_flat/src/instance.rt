//! Instances, and what of their text has no meaning in the design.

use crate::act::ProcId;
use text_ground::dropped::DropKind;
use text_ground::text::{Spot, Text};

/// An instance of a module.
#[derive(Drop)]
pub struct Instance {
    pub path: Text,
    /// How deep it is: 1 for the top, and one more than its holder for every other.
    pub depth: u32,
    /// Where its module is named: for the top at its definition.
    pub spot: Spot,
    /// The number of the file that defines its module, from 0.
    pub file: usize,
    /// The number of its module in that file, from 0.
    pub module: usize,
}

/// A region of an instance's module that synthesis doesn't see.
#[derive(Clone, Copy, PartialEq, Eq, Debug)]
pub struct DroppedRegion {
    pub kind: DropKind,
    pub instance: u32,
    pub spot: Spot,
}

/// A delay, which is ignored, with the process that it stands in.
#[derive(Clone, Copy, PartialEq, Eq, Debug)]
pub struct Delay {
    pub process: ProcId,
    pub spot: Spot,
}
