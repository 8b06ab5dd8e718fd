//! What a step gives to a top input.

use rtl_bits::Vec4;
use rtl_flat::expr::SigId;

/// A top input, and the value that it is set to, which has its width.
#[derive(Clone, Copy)]
pub struct Setting {
    pub signal: SigId,
    pub value: Vec4,
}
