// The waiver that a body asks for.
ghost use Rattle.std.specs.Prelude.{◌≡◌, IfOk, option_map};
ghost use Rattle.serde_json.specs.View.{view};
ghost use Rattle.desk_http.specs.Gives.{Gives, or_malformed};
ghost use Rattle.desk_http.specs.Waivers.{is_fit, member_count, text_at, texts, texts_of, texts_under, waiver_by, waiver_in, waiver_of, waiver_with};

use crate::BadRequest;
use crate::label::{is_label, is_word};
use crate::place::is_place;
use desk_dates::day_of_text;
use desk_requests::WaiverAsk;
use desk_tables::Name;
use rtl_rule::rule::rule_of;
use serde_json::Value;
use std::alloc::Global;
use text_ground::text::Text;

/// How many characters a reason may have.
const MAX_REASON_BYTES: usize = 200;

// What the members say, as it is written.
#[derive(Clone, Copy)]
struct Members<'v> {
    last_day: &'v str,
    owner: &'v str,
    place: &'v str,
    reason: &'v str,
    rule: &'v str,
    target: &'v str,
    top: &'v str,
}

// How many members an object has.
fn member_count(body: &Value) -> usize
    ensures { result ≡ member_count (view body.now) }
{
    match body.as_object() {
        Some(members) => members.len(),
        None => 0,
    }
}

// The text under a key.
fn text_at<'v>(key: &str, body: &'v Value) -> Option<&'v str>
    ensures { option_map (λ text. text.now) result ≡ text_at key.now (view body.now) }
{
    body.get(key).and_then(Value::as_str)
}

// The texts under the seven keys.
#[tactic(auto, unfolding(crate::specs::Waivers::texts_under))]
fn texts_under(body: &Value) -> Option<Members<'_>>
    ensures { option_map texts result ≡ texts_under (view body.now) }
{
    Some(Members {
        last_day: text_at("last_day", body)?,
        owner: text_at("owner", body)?,
        place: text_at("place", body)?,
        reason: text_at("reason", body)?,
        rule: text_at("rule", body)?,
        target: text_at("target", body)?,
        top: text_at("top", body)?,
    })
}

// These texts, where the object has no other member.
fn texts_of(body: &Value) -> Option<Members<'_>>
    ensures { option_map texts result ≡ texts_of (view body.now) }
{
    if member_count(body) != 7 {
        return None;
    }
    texts_under(body)
}

fn is_fit(members: Members<'_>) -> bool
    ensures { result ≡ is_fit (texts members.entry) }
{
    is_word(members.top.as_bytes())
        && is_place(members.place.as_bytes())
        && is_label(MAX_REASON_BYTES, members.reason.as_bytes())
}

fn copied(alloc: Global, text: &str) -> Result<Text, BadRequest>
    ensures { Gives result (Ok text.now) }
{
    match Text::from_bytes(alloc, text.as_bytes()) {
        Ok(copy) => Ok(copy),
        Err(_) => Err(BadRequest::Memory),
    }
}

// The waiver of these texts, where day, rule and owner are as they have to be.
#[tactic(auto, unfolding(crate::specs::Waivers::waiver_by))]
fn waiver_by(alloc: Global, members: Members<'_>) -> Result<WaiverAsk, BadRequest>
    ensures { Gives result (or_malformed (waiver_by (texts members.entry))) }
{
    let Some(last_day) = day_of_text(members.last_day.as_bytes()) else {
        return Err(BadRequest::Malformed);
    };
    let Some(rule) = rule_of(members.rule.as_bytes()) else {
        return Err(BadRequest::Malformed);
    };
    let place = copied(alloc, members.place)?;
    let reason = copied(alloc, members.reason)?;
    let target = copied(alloc, members.target)?;
    let top = copied(alloc, members.top)?;
    match Name::new(members.owner.as_bytes()) {
        Some(owner) => Ok(WaiverAsk {
            last_day,
            owner,
            place,
            reason,
            rule,
            target,
            top,
        }),
        None => Err(BadRequest::Malformed),
    }
}

// The waiver of these texts.
#[tactic(auto, unfolding(crate::specs::Waivers::waiver_with))]
fn waiver_with(alloc: Global, members: Members<'_>) -> Result<WaiverAsk, BadRequest>
    ensures { Gives result (or_malformed (waiver_with (texts members.entry))) }
{
    if is_fit(members) {
        waiver_by(alloc, members)
    } else {
        Err(BadRequest::Malformed)
    }
}

fn waiver_in(alloc: Global, body: &Value) -> Result<WaiverAsk, BadRequest>
    ensures { Gives result (or_malformed (waiver_in (view body.now))) }
{
    match texts_of(body) {
        Some(members) => waiver_with(alloc, members),
        None => Err(BadRequest::Malformed),
    }
}

// The waiver that a body asks for.
pub(crate) fn waiver_of(alloc: Global, body: &[u8]) -> Result<WaiverAsk, BadRequest>
    ensures { Gives result (or_malformed (waiver_of body.now)) }
{
    match Value::from_slice(alloc, body) {
        Ok(value) => waiver_in(alloc, &value),
        Err(error) if error.is_memory() => Err(BadRequest::Memory),
        Err(_) => Err(BadRequest::Malformed),
    }
}
