// Which hosts a request may name.
ghost use Rattle.std.specs.Prelude.{◌≡◌, option_map};
ghost use Rattle.std.specs.List.{list_all};
ghost use Rattle.desk_http.specs.Hosts.{before_port, host_of_origin, is_local_host, is_local_line, is_local_name, is_local_origin, served_length};
ghost use Rattle.desk_http.specs.Lines.{capped, lines_at};
ghost use Rattle.desk_http.specs.Places.{parted};
ghost use Rattle.desk_http.specs.Routes.{plain};

use crate::lines::{covered, is_same_name, stated_length};
use crate::place::parted;
use crate::route::behind;
use desk_numbers::are_digits;
use httparse::spans::HeaderSpan;

// Whether a text is a name of this machine.
fn is_local_name(name: &[u8]) -> bool
    ensures { result ≡ is_local_name name.now }
{
    is_same_name(name, b"127.0.0.1")
        || is_same_name(name, b"localhost")
        || is_same_name(name, b"[::1]")
}

// The name before a port.
fn before_port(text: &[u8]) -> &[u8]
    ensures { result.now ≡ before_port text.now (parted text.now) }
{
    match parted(text) {
        Some((name, port)) if are_digits(port) => name,
        _ => text,
    }
}

// Whether a text is a name of this machine, with a port or without.
fn is_local_host(text: &[u8]) -> bool
    ensures { result ≡ is_local_host text.now }
{
    is_local_name(before_port(text))
}

// What is behind the scheme of an origin.
fn host_of_origin(text: &[u8]) -> Option<&[u8]>
    ensures { plain result ≡ host_of_origin text.now }
{
    match behind(b"http://", text) {
        Some(host) => Some(host),
        None => behind(b"https://", text),
    }
}

fn is_local_origin(text: &[u8]) -> bool
    ensures { result ≡ is_local_origin text.now }
{
    match host_of_origin(text) {
        Some(host) => is_local_host(host),
        None => false,
    }
}

// Whether a line names no other host, nor an origin on another.
fn is_local_line(name: &[u8], value: &[u8]) -> bool
    ensures { result ≡ is_local_line (name.now, value.now) }
{
    (!is_same_name(name, b"host") || is_local_host(value))
        && (!is_same_name(name, b"origin") || is_local_origin(value))
}

fn are_local(bytes: &[u8], lines: &[HeaderSpan]) -> bool
    ensures { result ≡ list_all is_local_line (lines_at bytes.now lines.now) }
{
    for line in lines {
        if !is_local_line(covered(bytes, line.name), covered(bytes, line.value)) {
            return false;
        }
    }
    true
}

// The length of the body that the lines state, or one more than the greatest where it is greater.
// None where a line names another host, and where they don't say how long the body is.
pub(crate) fn served_length(bytes: &[u8], lines: &[HeaderSpan]) -> Option<u64>
    ensures { result ≡ option_map capped (served_length (lines_at bytes.now lines.now)) }
{
    if !are_local(bytes, lines) {
        return None;
    }
    stated_length(bytes, lines)
}
