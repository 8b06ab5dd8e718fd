// Classes of characters, and the longest runs of them.

ghost use Rattle.std.specs.Prelude.{◌≡◌, ◌<◌, ◌≤◌, length, slice_index, take, drop};
ghost use Rattle.std.specs.List.{prefix_len};
ghost use Rattle.rtl_tree.specs.Lexemes as form;

pub fn is_blank(b: u8) -> bool
    ensures { result ≡ form.is_blank b }
{
    matches!(b, b' ' | b'\t' | b'\n' | 12 | b'\r')
}

pub fn opens_word(b: u8) -> bool
    ensures { result ≡ form.opens_word b }
{
    b.is_ascii_alphabetic() || b == b'_'
}

pub fn is_in_word(b: u8) -> bool
    ensures { result ≡ form.is_in_word b }
{
    b.is_ascii_alphanumeric() || b == b'_' || b == b'$'
}

pub fn is_decimal(b: u8) -> bool
    ensures { result ≡ form.is_decimal b }
{
    b'0' <= b && b <= b'9'
}

pub fn is_in_decimal(b: u8) -> bool
    ensures { result ≡ form.is_in_decimal b }
{
    is_decimal(b) || b == b'_'
}

pub fn is_x(b: u8) -> bool
    ensures { result ≡ form.is_x b }
{
    b == b'x' || b == b'X'
}

pub fn is_z(b: u8) -> bool
    ensures { result ≡ form.is_z b }
{
    b == b'z' || b == b'Z' || b == b'?'
}

pub fn is_hex_letter(b: u8) -> bool
    ensures { result ≡ form.is_hex_letter b }
{
    (b'a' <= b && b <= b'f') || (b'A' <= b && b <= b'F')
}

pub fn is_in_digits(b: u8) -> bool
    ensures { result ≡ form.is_in_digits b }
{
    is_in_decimal(b) || is_hex_letter(b) || is_x(b) || is_z(b)
}

pub fn is_base(b: u8) -> bool
    ensures { result ≡ form.is_base b }
{
    matches!(b, b'b' | b'B' | b'o' | b'O' | b'd' | b'D' | b'h' | b'H')
}

pub fn is_sign(b: u8) -> bool
    ensures { result ≡ form.is_sign b }
{
    b == b's' || b == b'S'
}

pub fn is_ascii(b: u8) -> bool
    ensures { result ≡ form.is_ascii b }
{
    b <= 127
}

/// How many bytes at the front are blanks.
pub fn blanks(text: &[u8]) -> usize
    ensures value { result ≡ prefix_len form.is_blank text.now }
    ensures within { result ≤ length text.now }
{
    text.iter().take_while(|b| is_blank(**b)).count()
}

/// How many bytes at the front go on with a word.
pub(crate) fn word_len(text: &[u8]) -> usize
    ensures value { result ≡ prefix_len form.is_in_word text.now }
    ensures within { result ≤ length text.now }
{
    text.iter().take_while(|b| is_in_word(**b)).count()
}

/// How many bytes at the front go on with a decimal.
pub(crate) fn decimal_len(text: &[u8]) -> usize
    ensures value { result ≡ prefix_len form.is_in_decimal text.now }
    ensures within { result ≤ length text.now }
{
    text.iter().take_while(|b| is_in_decimal(**b)).count()
}

/// How many bytes at the front are digits of some base.
pub(crate) fn digits_len(text: &[u8]) -> usize
    ensures value { result ≡ prefix_len form.is_in_digits text.now }
    ensures within { result ≤ length text.now }
{
    text.iter().take_while(|b| is_in_digits(**b)).count()
}

/// How many bytes stand before the line's end.
pub fn line_len(text: &[u8]) -> usize
    ensures value { result ≡ prefix_len form.is_in_line text.now }
    ensures within { result ≤ length text.now }
{
    text.iter().take_while(|b| **b != b'\n').count()
}

/// How many bytes at the front are ASCII.
pub(crate) fn ascii_len(text: &[u8]) -> usize
    ensures value { result ≡ prefix_len form.is_ascii text.now }
    ensures within { result ≤ length text.now }
{
    text.iter().take_while(|b| is_ascii(**b)).count()
}

/// The first byte, or 0 at the end, which begins nothing.
pub fn first(text: &[u8]) -> u8
    ensures value { result ≡ slice_index text.now 0 }
    ensures there { 0 < result → 0 < length text.now }
{
    if text.is_empty() { 0 } else { text[0] }
}

/// What follows the first bytes.
pub fn skip(text: &[u8], count: usize) -> &[u8]
    ensures { result.now ≡ drop count text.now }
{
    if count <= text.len() {
        &text[count..]
    } else {
        &[]
    }
}

/// The first bytes.
pub fn take(text: &[u8], count: usize) -> &[u8]
    ensures { result.now ≡ take count text.now }
{
    if count <= text.len() {
        &text[..count]
    } else {
        text
    }
}
