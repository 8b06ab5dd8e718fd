//! Short names as numbers.

ghost use Rattle.std.specs.Prelude.{◌≡◌, ◌≤◌, ◌<◌, ◌^◌, length, true};
ghost use Rattle.name_map.specs.Packed as spec;

/// The most bytes of a name that is kept as a number.
const MOST: usize = 15;

/// Whether a name is kept as a number.
pub(crate) fn is_short(name: &[u8]) -> bool
    ensures { result ≡ spec.is_short name.now }
{
    name.len() <= MOST
}

/// A short name as a number: its bytes, the first of them the lowest, below a 1.
pub(crate) fn packed(name: &[u8]) -> u128
    requires { spec.is_short name.now ≡ true }
    ensures { result ≡ spec.packed name.now }
{
    let mut number: u128 = 1;
    let mut left = name.len();
    while left > 0 {
        left -= 1;
        number = number * 256 + u128::from(name[left]);
    }
    number
}
