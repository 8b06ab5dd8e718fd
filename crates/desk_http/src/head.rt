// Heads of requests.
ghost use Rattle.std.specs.Prelude.{◌≡◌, ◌≤◌, ◌++◌, ℕ, List, length, option_map, take};
ghost use Rattle.desk_http.specs.Expects.{waits};
ghost use Rattle.desk_http.specs.Heads.{HasNoHead, IsFramed, IsStateOf, Shows, heard, spans_of};
ghost use Rattle.desk_http.specs.Limits.{MAX_HEAD_BYTES};
ghost use Rattle.desk_http.specs.Lines.{first_named};

use crate::expect::are_waiting;
use crate::host::served_length;
use crate::lines::{covered, first_named};
use httparse::spans::{EMPTY_HEADER_SPAN, HeaderSpan, RequestSpans, parse_request};
use httparse::{Error, Status};

/// How many bytes the head of a request may have.
pub const MAX_HEAD_BYTES: usize = 16_384;

/// How many header lines a request may have.
pub(crate) const MAX_HEADER_LINES: usize = 64;

/// The head of a request: its method, its target, and its header lines, in the bytes that were read.
#[derive(Drop)]
pub struct Head<'a> {
    bytes: &'a [u8],
    found: RequestSpans,
    lines: [HeaderSpan; MAX_HEADER_LINES],
}

/// What bytes begin with.
#[derive(Drop)]
pub enum HeadState<'a> {
    /// No head yet.
    More,
    /// No head that is served, whatever follows.
    Bad,
    Ready {
        head: Head<'a>,
        /// How many bytes the head has.
        used: usize,
        /// How many the body has, or 1,048,577 where it has more than that.
        body: u64,
    },
}

impl<'a> Head<'a> {
    pub(crate) fn method(&self) -> &'a [u8]
        ensures { result.now ≡ (heard self.now).method }
    {
        covered(self.bytes, self.found.method)
    }

    pub(crate) fn target(&self) -> &'a [u8]
        ensures { result.now ≡ (heard self.now).target }
    {
        covered(self.bytes, self.found.path)
    }

    fn spans(&self) -> &[HeaderSpan]
        ensures { result.now ≡ spans_of self.now }
    {
        self.lines.get(..self.found.headers).unwrap_or(&self.lines)
    }

    // The value of the first header line of this name.
    pub(crate) fn value(&self, name: &[u8]) -> Option<&'a [u8]>
        ensures { option_map (λ value. value.now) result
            ≡ first_named name.now (heard self.now).lines }
    {
        first_named(name, self.bytes, self.spans())
    }

    /// Whether it waits to be told to go on before it sends its body of this length.
    pub fn waits(&self, body: u64) -> bool
        ensures { result ≡ waits (heard self.now) body }
    {
        self.found.version == 1 && body != 0 && are_waiting(self.bytes, self.spans())
    }
}

// A head is served where its lines name no other host, and say how long the body is.
fn framed<'a>(head: Head<'a>) -> HeadState<'a>
    ensures { IsFramed head.entry result }
{
    let used = head.found.len;
    match served_length(head.bytes, head.spans()) {
        Some(body) => HeadState::Ready { head, used, body },
        None => HeadState::Bad,
    }
}

// What is answered where the bytes begin with this head.
fn served<'a>(bytes: &[u8], head: Head<'a>) -> HeadState<'a>
    requires { Shows bytes.now head }
    ensures { IsStateOf bytes.now result }
{
    framed(head)
}

// What is answered where the bytes begin with no head: there may be one where more can come.
fn unfinished<'a>(bytes: &[u8]) -> HeadState<'a>
    requires now { HasNoHead bytes.now }
    requires later { MAX_HEAD_BYTES ≤ length bytes.now →
        (more : List ℕ) → HasNoHead (bytes.now ++ more) }
    ensures { IsStateOf bytes.now result }
{
    if bytes.len() < MAX_HEAD_BYTES {
        HeadState::More
    } else {
        HeadState::Bad
    }
}

// The bytes in which a head has to stand.
#[tactic(auto, using(crate::proofs::Cuts::short_front))]
fn front_of(bytes: &[u8]) -> &[u8]
    ensures { result.now ≡ take 16384 bytes.now }
{
    if bytes.len() > MAX_HEAD_BYTES {
        &bytes[..MAX_HEAD_BYTES]
    } else {
        bytes
    }
}

/// Reads the head at the front of bytes, in the first 16,384 of them. It takes no memory.
pub fn read_head(bytes: &[u8]) -> HeadState<'_>
    ensures { IsStateOf bytes.now result }
{
    let front = front_of(bytes);
    let mut lines = [EMPTY_HEADER_SPAN; MAX_HEADER_LINES];
    match parse_request(front, &mut lines) {
        Ok(Status::Complete(found)) => {
            let head = Head {
                bytes: front,
                found,
                lines,
            };
            served(bytes, head)
        }
        Ok(Status::Partial) => unfinished(bytes),
        Err(Error::TooManyHeaders) => unfinished(bytes),
        Err(_) => HeadState::Bad,
    }
}
