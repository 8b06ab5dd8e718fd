// How a request is heard on a link.
ghost use Rattle.std.specs.Prelude.{◌≡◌, ◌≤◌, ◌<◌, ◌++◌, ◌⊎◌, length, true, false, ⊤, Some, IfErr, IfOk, OnErr, IsErrOf};
ghost use Rattle.desk_io.specs.Causes.{HasCause, Rose};
ghost use Rattle.desk_links.specs.Links.{IsAtEnd};
ghost use Rattle.desk_http.specs.Heads.{HasNoHead, heard};
ghost use Rattle.desk_http.specs.Requests.{request_of};
ghost use Rattle.desk_http.specs.Limits.{MAX_HEAD_BYTES, MAX_BODY_BYTES};
ghost use Rattle.desk_service.specs.Service.{IsShort};
ghost use Rattle.desk_server.specs.Exchanges.{asked_of, framed, invitation};
ghost use Rattle.desk_server.specs.Hearing.{Grows, HeardAs, HeardBehind, Hears, HearsFront, HearsInput, HearsOver, IsBody, IsHeardOver, IsSettled, IsStop, SaysFront};

use crate::give::say;
use desk_http::{
    BadRequest, CONTINUE, Head, HeadState, MAX_BODY_BYTES, MAX_HEAD_BYTES, read_head, request,
};
use desk_io::Failed;
use desk_links::Link;
use desk_requests::Request;
use std::alloc::Global;

// How many bytes of a body are read at once.
const PIECE_BYTES: usize = 4096;

// Why no request was heard.
#[derive(Clone, Copy)]
pub(crate) enum Unheard {
    Refused(BadRequest),
    // Its body is too long.
    TooLong,
    // A call of the link failed.
    Failed,
}

// Whether more bytes can't change which head is at the front of these.
fn is_settled(bytes: &[u8]) -> bool
    ensures settled { result ≡ true → IsSettled bytes.now }
    ensures open { result ≡ false → length bytes.now < MAX_HEAD_BYTES }
{
    !matches!(read_head(bytes), HeadState::More)
}

// Reads into a front of the buffer until that settles which head is there, or the input has ended.
fn hear_head<L: Link>(link: &mut L, buf: &mut [u8]) -> Result<usize, Failed>
    requires { length buf.old ≡ MAX_HEAD_BYTES }
    ensures bound { IfOk result (λ count. count ≤ length buf.new) }
    ensures heard { HearsFront (L.talk link.old) (L.talk link.new) buf.new result }
    ensures cause { HasCause (L.faults link.old) (L.faults link.new) result }
{
    let mut count = 0;
    while !is_settled(&buf[..count]) {
        let more = match link.read(&mut buf[count..]) {
            Ok(more) => more,
            Err(Failed) => return Err(Failed),
        };
        if more == 0 {
            return Ok(count);
        }
        count += more;
    }
    Ok(count)
}

// Reads at most so many bytes, puts them behind those that are there, and says how many they were.
fn hear_piece<L: Link>(link: &mut L, body: &mut Vec<u8>, most: usize) -> Result<usize, Unheard>
    requires { 0 < most }
    ensures bound { IfOk result (λ count. count ≤ most) }
    ensures grows { IfOk result
        (Grows (L.talk link.old) (L.talk link.new) body.old.items body.new.items) }
    ensures end { IfOk result (λ count. count ≡ 0 → IsAtEnd (L.talk link.new)) }
    ensures stops { IfErr result IsStop }
    ensures fails { OnErr result (Hears (L.talk link.old) (L.talk link.new) (λ _. ⊤)) }
    ensures later { L.faults link.old ≤ L.faults link.new }
    ensures failed { IsErrOf result Unheard.Failed → Rose (L.faults link.old) (L.faults link.new) }
{
    let mut piece = [0u8; PIECE_BYTES];
    let room = most.min(PIECE_BYTES);
    match link.read(&mut piece[..room]) {
        Ok(count) => match body.extend_from_slice(&piece[..count]) {
            Ok(()) => Ok(count),
            Err(_) => Err(Unheard::Refused(BadRequest::Memory)),
        },
        Err(Failed) => Err(Unheard::Failed),
    }
}

// Reads the rest of a body of so many bytes, and no byte behind it.
fn hear_body<L: Link>(
    alloc: Global,
    link: &mut L,
    front: &[u8],
    count: usize,
) -> Result<Vec<u8>, Unheard>
    ensures body { HearsInput (L.talk link.old) (L.talk link.new)
        (λ more. IsBody count result (front.now ++ more)) }
    ensures later { L.faults link.old ≤ L.faults link.new }
    ensures failed { IsErrOf result Unheard.Failed → Rose (L.faults link.old) (L.faults link.new) }
{
    let Ok(mut body) = Vec::from_slice(alloc, &front[..front.len().min(count)]) else {
        return Err(Unheard::Refused(BadRequest::Memory));
    };
    while body.len() < count {
        let room = count - body.len();
        let more = match hear_piece(link, &mut body, room) {
            Ok(more) => more,
            Err(unheard) => return Err(unheard),
        };
        if more == 0 {
            return Err(Unheard::Refused(BadRequest::Malformed));
        }
    }
    Ok(body)
}

// The request of a head and its body.
fn request_heard(alloc: Global, head: Head<'_>, body: Vec<u8>) -> Result<Request, Unheard>
    ensures heard { HeardAs result (asked_of (request_of (heard head.entry) body.items)) }
    ensures other { IsErrOf result Unheard.Failed → ⊥ }
{
    match request(alloc, head, body) {
        Ok(request) => Ok(request),
        Err(fault) => Err(Unheard::Refused(fault)),
    }
}

// Hears the body of a request that has this head, of which the front was read with the head.
fn hear_asked<L: Link>(
    alloc: Global,
    link: &mut L,
    head: Head<'_>,
    front: &[u8],
    count: usize,
) -> Result<Request, Unheard>
    requires { count ≤ MAX_BODY_BYTES }
    ensures asked { HearsInput (L.talk link.old) (L.talk link.new)
        (λ more. HeardAs result (framed (heard head.entry) (front.now ++ more) (Some count))) }
    ensures later { L.faults link.old ≤ L.faults link.new }
    ensures failed { IsErrOf result Unheard.Failed → Rose (L.faults link.old) (L.faults link.new) }
{
    match hear_body(alloc, link, front, count) {
        Ok(body) => request_heard(alloc, head, body),
        Err(unheard) => Err(unheard),
    }
}

// Tells a request that waits with its body of this length to go on.
fn invite<L: Link>(link: &mut L, head: &Head<'_>, body: u64) -> Result<(), Failed>
    ensures front { SaysFront (L.talk link.old) (L.talk link.new)
        (invitation (heard head.now) body) result }
    ensures cause { HasCause (L.faults link.old) (L.faults link.new) result }
{
    if head.waits(body) {
        say(link, CONTINUE)
    } else {
        Ok(())
    }
}

// Hears the body of a request that has this head, once it was told to go on where it waits for that.
fn hear_invited<L: Link>(
    alloc: Global,
    link: &mut L,
    head: Head<'_>,
    front: &[u8],
    body: u64,
) -> Result<Request, Unheard>
    requires { body ≤ MAX_BODY_BYTES }
    ensures asked { HearsOver (L.talk link.old) (L.talk link.new) (λ more said.
        HeardBehind result (framed (heard head.entry) (front.now ++ more) (Some body))
        (invitation (heard head.entry) body) said) }
    ensures later { L.faults link.old ≤ L.faults link.new }
    ensures failed { IsErrOf result Unheard.Failed → Rose (L.faults link.old) (L.faults link.new) }
{
    match invite(link, &head, body) {
        Ok(()) => hear_asked(alloc, link, head, front, body as usize),
        Err(Failed) => Err(Unheard::Failed),
    }
}

// Hears the rest of a request, where these bytes were read until its head is settled.
fn hear_rest<L: Link>(alloc: Global, link: &mut L, bytes: &[u8]) -> Result<Request, Unheard>
    requires { IsSettled bytes.now ⊎ IsAtEnd (L.talk link.old) }
    ensures heard { HearsOver (L.talk link.old) (L.talk link.new)
        (λ more said. IsHeardOver result (bytes.now ++ more) said) }
    ensures later { L.faults link.old ≤ L.faults link.new }
    ensures failed { IsErrOf result Unheard.Failed → Rose (L.faults link.old) (L.faults link.new) }
{
    match read_head(bytes) {
        HeadState::Ready { head, used, body } => {
            if body > MAX_BODY_BYTES {
                Err(Unheard::TooLong)
            } else {
                hear_invited(alloc, link, head, &bytes[used..], body)
            }
        }
        HeadState::More => Err(Unheard::Refused(BadRequest::Malformed)),
        HeadState::Bad => Err(Unheard::Refused(BadRequest::Malformed)),
    }
}

// Hears a request, and no byte behind it, and says before its body that this may come, where the
// head waits for that. No body is read that is too long.
pub(crate) fn hear_request<L: Link>(alloc: Global, link: &mut L) -> Result<Request, Unheard>
    ensures heard { HearsOver (L.talk link.old) (L.talk link.new) (IsHeardOver result) }
    ensures short { IfOk result (λ request. IsShort request.ask) }
    ensures later { L.faults link.old ≤ L.faults link.new }
    ensures failed { IsErrOf result Unheard.Failed → Rose (L.faults link.old) (L.faults link.new) }
{
    let mut buf = [0u8; MAX_HEAD_BYTES];
    match hear_head(link, &mut buf) {
        Ok(count) => hear_rest(alloc, link, &buf[..count]),
        Err(Failed) => Err(Unheard::Failed),
    }
}
