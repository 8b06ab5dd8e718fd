//! The value of a variable to which a vector is written.

ghost use Rattle.std.specs.Prelude.{◌≡◌, ◌+◌, ◌≤◌, ◌∷◌, [], length};
ghost use Rattle.vcd_read.specs.Filling.{fill, filled, reversed};

use rtl_bits::{Bit, Vec4};

/// The bit that fills a vector on the left, by its leftmost bit.
fn fill(first: Bit) -> Bit
    ensures { result ≡ fill first }
{
    match first {
        Bit::Zero => Bit::Zero,
        Bit::One => Bit::Zero,
        Bit::X => Bit::X,
        Bit::Z => Bit::Z,
    }
}

/// Bits, of which the most significant stands first.
fn reversed(first: Bit, others: &[Bit]) -> Vec4
    requires { length others.now + 1 ≤ 128 }
    ensures bits { result ≡ reversed (first ∷ []) others.now }
    ensures width { length result ≡ length others.now + 1 }
{
    let mut made = Vec4::of_bit(first);
    let mut rest = others;
    while let Some((bit, behind)) = rest.split_first() {
        let Some(next) = made.concat(Vec4::of_bit(*bit)) else {
            return made;
        };
        made = next;
        rest = behind;
    }
    made
}

/// The value that a variable of this width has behind a change to these bits, of which the most significant stands first.
/// None where there is no bit, or more than the variable has.
pub fn filled(width: u8, bits: &[Bit]) -> Option<Vec4>
    requires { width ≤ 128 }
    ensures { result ≡ filled width bits.now }
{
    let (first, others) = bits.split_first()?;
    if bits.len() > usize::from(width) {
        return None;
    }
    let low = reversed(*first, others);
    let missing = width - bits.len() as u8;
    if missing == 0 {
        Some(low)
    } else {
        Vec4::filled(missing, fill(*first)).concat(low)
    }
}
