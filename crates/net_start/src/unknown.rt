// Values with an unknown bit.

ghost use Rattle.std.specs.Prelude.{◌≡◌, ◌+◌, ◌++◌, ◌<◌, ◌^◌, length, position, MatchOption};
ghost use Rattle.rtl_bits.specs.Bits.{has_unknown};
ghost use Rattle.net_start.specs.Start.{AreKnown, IsFirstUnknown};

use rtl_bits::Vec4;

/// Whether a value has an unknown bit.
fn is_unknown(value: Vec4) -> bool
    ensures { result ≡ has_unknown value }
{
    !value.is_known()
}

/// The place of the first value with an unknown bit.
fn unknown_place(values: &[Vec4]) -> Option<usize>
    ensures { result ≡ position has_unknown values.now }
{
    values.iter().position(|value| is_unknown(*value))
}

/// The place of the first value with an unknown bit, where those of registers and latches come before those of inputs.
pub fn first_unknown(registers: &[Vec4], inputs: &[Vec4]) -> Option<usize>
    requires { length registers.now + length inputs.now < 2 ^ 32 }
    ensures { MatchOption result (AreKnown (registers.now ++ inputs.now)) (IsFirstUnknown
        (registers.now ++ inputs.now)) }
{
    match unknown_place(registers) {
        Some(place) => Some(place),
        None => match unknown_place(inputs) {
            Some(place) => Some(registers.len() + place),
            None => None,
        },
    }
}
