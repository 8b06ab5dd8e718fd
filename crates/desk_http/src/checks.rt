// The checks of a request, one after the other.
ghost use Rattle.std.specs.Prelude.{◌≡◌};
ghost use Rattle.desk_http.specs.Aims.{aim_at};
ghost use Rattle.desk_http.specs.Gives.{Gives};
ghost use Rattle.desk_http.specs.Heads.{heard};
ghost use Rattle.desk_http.specs.Requests.{ask_of, digest_of, label_of, label_text, request_of, user_of};
ghost use Rattle.desk_http.specs.Routes.{plain, plain_route};

use crate::aim::{Aim, aim_of};
use crate::label::is_label;
use crate::route::{Route, route};
use crate::waiver::waiver_of;
use crate::{BadRequest, Head};
use desk_requests::{Ask, Request};
use desk_tables::{Digest, Name};
use sha2::{Digest as Hasher, Sha256};
use std::alloc::Global;
use text_ground::text::Text;

/// How many characters the name of a request may have.
const MAX_LABEL_BYTES: usize = 64;

// What tells a request from another of the same user and name: its method, its target and its body.
fn digest_of(method: &[u8], target: &[u8], body: &[u8]) -> Digest
    ensures { result ≡ digest_of method.now target.now body.now }
{
    let mut hasher = Sha256::new();
    hasher.update(method);
    hasher.update(b" ".as_slice());
    hasher.update(target);
    hasher.update(b"\n".as_slice());
    hasher.update(body);
    hasher.finalize()
}

// What a route leads to; nothing is where there is none.
fn aim_at(alloc: Global, found: Option<Route<'_>>) -> Result<Aim, BadRequest>
    ensures { Gives result (aim_at (plain_route found.entry)) }
{
    match found {
        Some((action, part)) => aim_of(alloc, action, part),
        None => Err(BadRequest::NotFound),
    }
}

// Who asks.
fn user_of(value: Option<&[u8]>) -> Result<Name, BadRequest>
    ensures { Gives result (user_of (plain value.entry)) }
{
    let Some(text) = value else {
        return Err(BadRequest::Malformed);
    };
    match Name::new(text) {
        Some(name) => Ok(name),
        None => Err(BadRequest::Malformed),
    }
}

fn label_text(alloc: Global, value: Option<&[u8]>) -> Result<Text, BadRequest>
    ensures { Gives result (label_text (plain value.entry)) }
{
    let Some(text) = value else {
        return Err(BadRequest::Malformed);
    };
    if !is_label(MAX_LABEL_BYTES, text) {
        return Err(BadRequest::Malformed);
    }
    match Text::from_bytes(alloc, text) {
        Ok(label) => Ok(label),
        Err(_) => Err(BadRequest::Memory),
    }
}

// What the user calls the request, where it changes something.
fn label_of(alloc: Global, method: &[u8], value: Option<&[u8]>) -> Result<Option<Text>, BadRequest>
    ensures { Gives result (label_of method.now (plain value.entry)) }
{
    if method == b"GET".as_slice() {
        return Ok(None);
    }
    match label_text(alloc, value) {
        Ok(label) => Ok(Some(label)),
        Err(fault) => Err(fault),
    }
}

// What is asked for, once the body is there.
fn ask_of(alloc: Global, aim: Aim, body: Vec<u8>) -> Result<Ask, BadRequest>
    ensures { Gives result (ask_of aim body.items) }
{
    match aim {
        Aim::Other(ask) => Ok(ask),
        Aim::PutFile(name) => Ok(Ask::PutFile(name, Text::from_vec(body))),
        Aim::Waive => match waiver_of(alloc, &body) {
            Ok(waiver) => Ok(Ask::Waive(waiver)),
            Err(fault) => Err(fault),
        },
    }
}

/// The request of a head and its body. The first of these that fails is told: its route, its user,
/// what the user calls it, its body. That memory is wanting may be told in place of any answer.
#[tactic(auto, unfolding(crate::specs::Requests::request_of))]
pub fn request(alloc: Global, head: Head<'_>, body: Vec<u8>) -> Result<Request, BadRequest>
    ensures { Gives result (request_of (heard head.entry) body.items) }
{
    let method = head.method();
    let target = head.target();
    let aim = aim_at(alloc, route(method, target))?;
    let user = user_of(head.value(b"desk-user"))?;
    let id = label_of(alloc, method, head.value(b"desk-request"))?;
    let digest = digest_of(method, target, &body);
    let ask = ask_of(alloc, aim, body)?;
    Ok(Request {
        user,
        id,
        digest,
        ask,
    })
}
