// The heads under which replies go.
ghost use Rattle.std.specs.Prelude.{◌≡◌, ◌+◌, ◌≤◌, ◌++◌, Some, codes, decimal, length, take};
ghost use Rattle.desk_http.specs.Replies.{IsStatus, head_of, length_line, phrase, status_line, type_line};

use desk_requests::{BodyKind, Reply};
use itoa::Buffer;

/// How many bytes the head of a reply may have.
pub const MAX_REPLY_HEAD_BYTES: usize = 160;

/// The whole reply to a request for which there is no memory.
pub const NO_MEMORY: &[u8] =
    b"HTTP/1.1 507 Insufficient Storage\r\nContent-Type: text/plain\r\nContent-Length: 21\r\nConnection: close\r\n\r\nInsufficient Storage\n";

// Puts bytes at a place, and gives the place behind them.
fn put(out: &mut [u8; 160], at: usize, bytes: &[u8]) -> usize
    requires { at + length bytes.now ≤ 160 }
    ensures place { result ≡ at + length bytes.now }
    ensures bytes { take result out.new ≡ take at out.old ++ bytes.now }
{
    let end = at + bytes.len();
    out[at..end].copy_from_slice(bytes);
    end
}

fn put_number(out: &mut [u8; 160], at: usize, number: u64) -> usize
    requires { at + 20 ≤ 160 }
    ensures place { result ≤ at + 20 }
    ensures bytes { take result out.new ≡ take at out.old ++ decimal number }
{
    let mut buffer = Buffer::new();
    put(out, at, buffer.format(number).as_bytes())
}

fn phrase(status: u16) -> &'static [u8]
    requires { IsStatus status }
    ensures phrase { Some result.now ≡ phrase status }
    ensures short { length result.now ≤ 20 }
{
    match status {
        200 => b"OK",
        201 => b"Created",
        400 => b"Bad Request",
        404 => b"Not Found",
        409 => b"Conflict",
        413 => b"Payload Too Large",
        422 => b"Unprocessable Entity",
        503 => b"Service Unavailable",
        _ => b"Insufficient Storage",
    }
}

#[tactic(auto, unfolding(crate::specs::Replies::status_line))]
fn put_status(out: &mut [u8; 160], status: u16) -> usize
    requires { IsStatus status }
    ensures place { result ≤ 52 }
    ensures bytes { take result out.new ≡ status_line status }
{
    let at = put(out, 0, b"HTTP/1.1 ");
    let at = put_number(out, at, u64::from(status));
    let at = put(out, at, b" ");
    let at = put(out, at, phrase(status));
    put(out, at, b"\r\n")
}

#[tactic(auto, unfolding(crate::specs::Replies::type_line))]
fn put_kind(out: &mut [u8; 160], at: usize, kind: BodyKind) -> usize
    requires { at ≤ 52 }
    ensures place { result ≤ 84 }
    ensures bytes { take result out.new ≡ take at out.old ++ type_line kind }
{
    match kind {
        BodyKind::Json => put(out, at, b"Content-Type: application/json\r\n"),
        BodyKind::Plain => put(out, at, b"Content-Type: text/plain\r\n"),
    }
}

#[tactic(auto, unfolding(crate::specs::Replies::length_line))]
fn put_length(out: &mut [u8; 160], at: usize, count: u64) -> usize
    requires { at ≤ 84 }
    ensures place { result ≤ 122 }
    ensures bytes { take result out.new ≡ take at out.old ++ length_line count }
{
    let at = put(out, at, b"Content-Length: ");
    let at = put_number(out, at, count);
    put(out, at, b"\r\n")
}

/// Puts the head of a reply at the front of `out`, and gives its length. It takes no memory.
#[tactic(auto, unfolding(crate::specs::Replies::reply_head))]
pub fn reply_head(reply: &Reply, out: &mut [u8; 160]) -> usize
    requires { IsStatus reply.now.status }
    ensures fits { result ≤ 160 }
    ensures head { take result out.new ≡ head_of reply.now }
{
    let at = put_status(out, reply.status);
    let at = put_kind(out, at, reply.kind);
    let at = put_length(out, at, reply.body.len() as u64);
    put(out, at, b"Connection: close\r\n\r\n")
}
