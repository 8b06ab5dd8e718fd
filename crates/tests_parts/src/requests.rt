//! What is heard of a request's bytes, and what is replied.

ghost use Rattle.std.specs.Prelude.{IfSome};
ghost use Rattle.desk_http.specs.Replies.{IsStatus};

use crate::stop::Stop;
use desk_http::{HeadState, MAX_BODY_BYTES, NO_MEMORY, read_head, reply_head, request};
use desk_requests::{Ask, BodyKind, Reply, Request, WaiverAsk};
use std::alloc::Global;
use text_ground::text::Text;

/// Appends a word with a space before it.
fn push_word(out: &mut Vec<u8>, word: &[u8]) -> Result<(), Stop> {
    out.push(b' ')?;
    Ok(out.extend_from_slice(word)?)
}

/// Appends what is asked for, and its name.
fn push_named(out: &mut Vec<u8>, what: &[u8], name: &Text) -> Result<(), Stop> {
    push_word(out, what)?;
    push_word(out, name.as_bytes())
}

fn push_waiver(alloc: Global, out: &mut Vec<u8>, waiver: &WaiverAsk) -> Result<(), Stop> {
    let day = format!(in alloc; "{}", waiver.last_day.number())?;
    push_named(out, b"waive", &waiver.top)?;
    push_word(out, waiver.target.as_bytes())?;
    push_word(out, waiver.place.as_bytes())?;
    push_word(out, waiver.rule.row().code.as_bytes())?;
    push_word(out, waiver.owner.as_bytes())?;
    push_word(out, day.as_bytes())?;
    push_word(out, waiver.reason.as_bytes())
}

fn push_ask(alloc: Global, out: &mut Vec<u8>, ask: &Ask) -> Result<(), Stop> {
    match ask {
        Ask::PutFile(name, text) => {
            push_named(out, b"put", name)?;
            push_word(out, text.as_bytes())
        }
        Ask::GetFile(name) => push_named(out, b"get", name),
        Ask::FileText(name) => push_named(out, b"text", name),
        Ask::Files => push_word(out, b"files"),
        Ask::DropFile(name) => push_named(out, b"drop", name),
        Ask::Ruling(top) => push_named(out, b"ruling", top),
        Ask::Reach(top) => push_named(out, b"reach", top),
        Ask::SignOff(top) => push_named(out, b"sign", top),
        Ask::SignOffs => push_word(out, b"signoffs"),
        Ask::Waive(waiver) => push_waiver(alloc, out, waiver),
        Ask::Waivers => push_word(out, b"waivers"),
        Ask::Revoke(id) => {
            let number = format!(in alloc; "{}", id.0)?;
            push_word(out, b"revoke")?;
            push_word(out, number.as_bytes())
        }
    }
}

/// Who asks, what the user calls the request, and what is asked for.
fn of_request(alloc: Global, asked: &Request) -> Result<Vec<u8>, Stop> {
    let mut out = Vec::from_slice(alloc, asked.user.as_bytes())?;
    match &asked.id {
        Some(id) => push_word(&mut out, id.as_bytes())?,
        None => push_word(&mut out, b"-")?,
    }
    push_ask(alloc, &mut out, &asked.ask)?;
    Ok(out)
}

/// The request of an input, or the status of its refusal; `more` where its head or its body is cut.
pub fn heard(alloc: Global, input: &[u8]) -> Result<Vec<u8>, Stop> {
    let (head, used, body) = match read_head(input) {
        HeadState::More => return Ok(Vec::from_slice(alloc, b"more")?),
        HeadState::Bad => return Ok(Vec::from_slice(alloc, b"400")?),
        HeadState::Ready { head, used, body } => (head, used, body),
    };
    if body > MAX_BODY_BYTES {
        return Ok(Vec::from_slice(alloc, b"413")?);
    }
    let rest = input.get(used..).unwrap_or(b"");
    let Some(body) = rest.get(..body as usize) else {
        return Ok(Vec::from_slice(alloc, b"more")?);
    };
    match request(alloc, head, Vec::from_slice(alloc, body)?) {
        Ok(asked) => of_request(alloc, &asked),
        Err(fault) => Ok(format!(in alloc; "{}", fault.status())?.into_bytes()),
    }
}

const FRONT: &[u8] = b"POST /waivers HTTP/1.1\nDesk-User: ann\nDesk-Request: 7\nContent-Length: ";

/// What is heard of the request for a waiver that has this body.
pub fn waiver(alloc: Global, body: &[u8]) -> Result<Vec<u8>, Stop> {
    let mut input = Vec::from_slice(alloc, FRONT)?;
    let count = format!(in alloc; "{}\n\n", body.len())?;
    input.extend_from_slice(count.as_bytes())?;
    input.extend_from_slice(body)?;
    heard(alloc, &input)
}

fn status(word: &str) -> Option<u16>
    ensures { IfSome result (λ status. IsStatus status) }
{
    match word {
        "200" => Some(200),
        "201" => Some(201),
        "400" => Some(400),
        "404" => Some(404),
        "409" => Some(409),
        "413" => Some(413),
        "422" => Some(422),
        "503" => Some(503),
        "507" => Some(507),
        _ => None,
    }
}

/// A whole reply that has this status and this body.
pub fn reply(alloc: Global, word: &str, kind: &str, body: &[u8]) -> Result<Vec<u8>, Stop> {
    let Some(status) = status(word) else {
        return Err(Stop::NoCall);
    };
    let kind = if kind == "json" {
        BodyKind::Json
    } else {
        BodyKind::Plain
    };
    let reply = Reply {
        status,
        kind,
        body: Vec::from_slice(alloc, body)?,
    };
    let mut head = [0; 160];
    let count = reply_head(&reply, &mut head);
    let mut out = Vec::from_slice(alloc, head.get(..count).unwrap_or(b""))?;
    out.extend_from_slice(body)?;
    Ok(out)
}

/// The reply to a request for which there is no memory.
pub fn without_memory(alloc: Global) -> Result<Vec<u8>, Stop> {
    Ok(Vec::from_slice(alloc, NO_MEMORY)?)
}
