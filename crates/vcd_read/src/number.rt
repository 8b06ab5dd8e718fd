//! Decimal numbers within 64 bits.

ghost use Rattle.std.specs.Prelude.{◌≡◌};
ghost use Rattle.vcd_read.specs.Numbers.{number_behind, number_of};

/// The number that digits write, if it is one within 64 bits.
pub(crate) fn number_of(text: &[u8]) -> Option<u64>
    ensures { result ≡ number_of text.now }
{
    if text.is_empty() {
        return None;
    }
    number_behind(text)
}

/// The number that digits write, one or none of them, if it is within 64 bits.
fn number_behind(text: &[u8]) -> Option<u64>
    ensures { result ≡ number_behind 0 text.now }
{
    let mut number = 0u64;
    let mut rest = text;
    while let Some((digit, others)) = rest.split_first() {
        if !digit.is_ascii_digit() {
            return None;
        }
        let next = u128::from(number) * 10 + u128::from(*digit - b'0');
        if next >= 18_446_744_073_709_551_616 {
            return None;
        }
        number = next as u64;
        rest = others;
    }
    Some(number)
}
