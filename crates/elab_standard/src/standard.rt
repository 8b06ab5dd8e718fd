//! What a parameter is by the standard.

/// The width, the sign and the value of a parameter by the standard (IEEE 1364-2001 sections 3.11.1 and 12.2).
#[derive(Clone, Copy, PartialEq, Eq, Debug)]
pub struct Standard {
    /// In bits, from 1 to 128.
    pub width: u8,
    pub signed: bool,
    /// Its bits as a number below 2 to the width; none where it has no value, as a division by 0 has none.
    pub bits: Option<u128>,
    /// Whether its width is a written one, and not that of a number without one.
    pub sized: bool,
}
