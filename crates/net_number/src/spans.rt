//! Bits of a signal.

/// Bits of a signal: so many, from a place on, which is counted from the least significant.
#[derive(Clone, Copy, PartialEq, Eq, Debug)]
pub struct Span {
    pub at: u8,
    pub count: u8,
}
