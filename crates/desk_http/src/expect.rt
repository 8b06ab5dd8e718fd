// Requests that wait before they send their body.
ghost use Rattle.std.specs.Prelude.{◌≡◌};
ghost use Rattle.std.specs.List.{list_any};
ghost use Rattle.desk_http.specs.Expects.{expects_continue};
ghost use Rattle.desk_http.specs.Lines.{lines_at};

use crate::lines::{covered, is_same_name};
use httparse::spans::HeaderSpan;

/// The whole reply that tells a request to go on with its body.
pub const CONTINUE: &[u8] = b"HTTP/1.1 100 Continue\r\n\r\n";

fn expects_continue(name: &[u8], value: &[u8]) -> bool
    ensures { result ≡ expects_continue (name.now, value.now) }
{
    is_same_name(name, b"expect") && is_same_name(value, b"100-continue")
}

// Whether one of the lines waits to be told to go on.
pub(crate) fn are_waiting(bytes: &[u8], lines: &[HeaderSpan]) -> bool
    ensures { result ≡ list_any expects_continue (lines_at bytes.now lines.now) }
{
    for line in lines {
        if expects_continue(covered(bytes, line.name), covered(bytes, line.value)) {
            return true;
        }
    }
    false
}
