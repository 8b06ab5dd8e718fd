// Numbers in decimal digits.

ghost use Rattle.std.specs.Prelude.{◌≡◌, ◌<◌, ◌^◌, min};
ghost use Rattle.std.specs.List.{list_all};
ghost use Rattle.std.specs.Char.{is_ascii_digit};
ghost use Rattle.desk_numbers.specs.Numbers.{is_number, is_plain, is_positive, number_of, opens_with_zero, significant};

/// Whether a text is one digit or more, and nothing else.
pub fn is_number(text: &[u8]) -> bool
    ensures { result ≡ is_number text.now }
{
    !text.is_empty() && are_digits(text)
}

/// Whether a text is digits and nothing else.
pub fn are_digits(text: &[u8]) -> bool
    ensures { result ≡ list_all is_ascii_digit text.now }
{
    text.iter().all(|digit| digit.is_ascii_digit())
}

/// The number that digits write, or `most` where it is greater.
pub fn number_up_to(most: u64, text: &[u8]) -> u64
    requires { most < 2 ^ 40 }
    ensures { result ≡ min (number_of text.now) most }
{
    let mut number = 0;
    for digit in text {
        number = (number * 10 + u64::from(digit.saturating_sub(b'0'))).min(most);
    }
    number
}

/// The digits of a number behind its leading zeros.
#[tactic(auto, using(crate::proofs::Numbers::zero_next))]
pub fn significant(text: &[u8]) -> &[u8]
    ensures { result.now ≡ significant text.now }
{
    let mut at = 0;
    while at < text.len() && text[at] == b'0' {
        at += 1;
    }
    text.get(at..).unwrap_or(b"")
}

fn opens_with_zero(text: &[u8]) -> bool
    ensures { result ≡ opens_with_zero text.now }
{
    match text.first() {
        Some(digit) => *digit == b'0',
        None => false,
    }
}

/// Whether a text is a number from 1, without leading zeros.
pub fn is_positive(text: &[u8]) -> bool
    ensures { result ≡ is_positive text.now }
{
    is_number(text) && !opens_with_zero(text)
}

/// Whether a text is a number from 0, without leading zeros.
pub fn is_plain(text: &[u8]) -> bool
    ensures { result ≡ is_plain text.now }
{
    is_number(text) && (text.len() == 1 || !opens_with_zero(text))
}
