//! A dump that is read.

use rtl_bits::Bit;
use text_ground::text::Text;

/// A variable of a dump. Variables that are one in the simulation share a code.
#[derive(Drop)]
pub struct Variable {
    /// Its own name, without those of the scopes that it stands in, and without its range.
    pub name: Text,
    pub width: u8,
    /// The number of its code: how many variables are declared up to the first with that code.
    pub code: u32,
}

/// What a dump declares.
#[derive(Drop)]
pub enum Entry {
    /// A scope begins, with this name.
    Scope(Text),
    /// The innermost scope ends.
    Upscope,
    Variable(Variable),
}

/// A change of the variables that have a code.
#[derive(Clone, Copy, PartialEq, Eq, Debug)]
pub struct Change {
    pub code: u32,
    /// How many bits are written.
    pub bits: u32,
}

/// A time that changes are recorded at.
#[derive(Clone, Copy, PartialEq, Eq, Debug)]
pub struct Frame {
    pub time: u64,
    /// How many changes stand before this time.
    pub before: usize,
}

/// A dump. What it says takes memory in proportion to its text: paths aren't repeated, nor are vectors filled.
#[derive(Drop)]
pub struct Dump {
    pub entries: Vec<Entry>,
    /// The bits of all changes one after the other, each change's from the most significant bit on.
    pub bits: Vec<Bit>,
    pub changes: Vec<Change>,
    /// The times at which values are recorded, each once, rising.
    pub frames: Vec<Frame>,
}
