// Header lines, by where they stand in the bytes of a head.
ghost use Rattle.std.specs.Prelude.{◌≡◌, bytes_eq, option_map};
ghost use Rattle.std.specs.List.{list_all};
ghost use Rattle.std.specs.Str.{str_eq_ignore_ascii_case};
ghost use Rattle.httparse.specs.Spans.{span_bytes};
ghost use Rattle.desk_http.specs.Lines.{agrees, capped, first_named, lines_at, stated_length};

use desk_numbers::{is_number, number_up_to, significant};
use httparse::spans::{HeaderSpan, Span};

/// How many bytes a body may have.
pub const MAX_BODY_BYTES: u64 = 1_048_576;

// The bytes that a span covers.
pub(crate) fn covered<'a>(bytes: &'a [u8], span: Span) -> &'a [u8]
    ensures { result.now ≡ span_bytes bytes.now span }
{
    let rest = bytes.get(span.start..).unwrap_or(b"");
    rest.get(..span.end.saturating_sub(span.start))
        .unwrap_or(rest)
}

// Whether two names are the same but for the case of their letters.
pub(crate) fn is_same_name(name: &[u8], other: &[u8]) -> bool
    ensures { result ≡ str_eq_ignore_ascii_case name.now other.now }
{
    name.eq_ignore_ascii_case(other)
}

// The value of the first line of this name.
pub(crate) fn first_named<'a>(
    name: &[u8],
    bytes: &'a [u8],
    lines: &[HeaderSpan],
) -> Option<&'a [u8]>
    ensures { option_map (λ value. value.now) result
        ≡ first_named name.now (lines_at bytes.now lines.now) }
{
    for line in lines {
        if is_same_name(covered(bytes, line.name), name) {
            return Some(covered(bytes, line.value));
        }
    }
    None
}

// Whether a line doesn't state another length than the first does.
fn agrees(first: &[u8], name: &[u8], value: &[u8]) -> bool
    ensures { result ≡ agrees first.now (name.now, value.now) }
{
    !is_same_name(name, b"content-length")
        || (is_number(value) && significant(value) == significant(first))
}

fn lengths_agree(first: &[u8], bytes: &[u8], lines: &[HeaderSpan]) -> bool
    ensures { result ≡ list_all (agrees first.now) (lines_at bytes.now lines.now) }
{
    for line in lines {
        if !agrees(first, covered(bytes, line.name), covered(bytes, line.value)) {
            return false;
        }
    }
    true
}

// The length of the body that the lines state, or one more than the greatest where it is greater.
// None where they don't say how long the body is.
pub(crate) fn stated_length(bytes: &[u8], lines: &[HeaderSpan]) -> Option<u64>
    ensures { result ≡ option_map capped (stated_length (lines_at bytes.now lines.now)) }
{
    if first_named(b"transfer-encoding", bytes, lines).is_some() {
        return None;
    }
    match first_named(b"content-length", bytes, lines) {
        None => Some(0),
        Some(first) if is_number(first) && lengths_agree(first, bytes, lines) => {
            Some(number_up_to(MAX_BODY_BYTES + 1, first))
        }
        Some(_) => None,
    }
}
