// Number literals.

/// The value of a number literal: a bit with `unk` 0 is its `val`, one with `unk` 1 is x for `val` 0 and z for `val` 1.
#[derive(Clone, Copy, PartialEq, Eq, Debug)]
pub struct Literal {
    // The large numbers stand first: behind a small one they would begin 15 bytes later, in each token of a text.
    pub val: u128,
    pub unk: u128,
    /// The width in bits, from 1 to 128; an unsized literal has 32.
    pub width: u8,
    /// A decimal without a base, or one with `s` before its base letter.
    pub signed: bool,
    /// A width is written before the base.
    pub sized: bool,
    /// What its digits count by: 2, 8, 10 or 16.
    pub radix: u8,
}
