// What a route leads to, once its part is decoded.
ghost use Rattle.std.specs.Prelude.{◌≡◌, Ok};
ghost use Rattle.std.specs.List.{list_all};
ghost use Rattle.percent_encoding.specs.Percent.{percent_decode};
ghost use Rattle.desk_tables.specs.Rules.{is_file_letter, is_file_name};
ghost use Rattle.desk_http.specs.Aims.{aim_of, file_at, top_at, waiver_at, waiver_named};
ghost use Rattle.desk_http.specs.Gives.{Gives};

use crate::BadRequest;
use crate::label::is_word;
use crate::route::Action;
use desk_numbers::{is_plain, number_up_to};
use desk_requests::Ask;
use desk_tables::{MAX_FILE_NAME_BYTES, WaiverId};
use percent_encoding::percent_decode;
use std::alloc::Global;
use text_ground::text::Text;

// What is asked for, or what is as soon as the body is read.
#[derive(Drop)]
pub(crate) enum Aim {
    PutFile(Text),
    Waive,
    Other(Ask),
}

// A part of a target, without its escapes.
fn decoded(alloc: Global, part: &[u8]) -> Result<Text, BadRequest>
    ensures { Gives result (Ok (percent_decode part.now)) }
{
    let mut bytes = Vec::new(alloc);
    match percent_decode(part).append_to(&mut bytes) {
        Ok(()) => Ok(Text::from_vec(bytes)),
        Err(_) => Err(BadRequest::Memory),
    }
}

fn is_file_letter(letter: u8) -> bool
    ensures { result ≡ is_file_letter letter }
{
    letter.is_ascii_alphanumeric() || letter == b'_' || letter == b'.' || letter == b'-'
}

fn are_file_letters(name: &[u8]) -> bool
    ensures { result ≡ list_all is_file_letter name.now }
{
    name.iter().all(|letter| is_file_letter(*letter))
}

fn is_file_name(name: &[u8]) -> bool
    ensures { result ≡ is_file_name name.now }
{
    !name.is_empty() && name.len() <= MAX_FILE_NAME_BYTES && are_file_letters(name)
}

fn file_at(alloc: Global, part: &[u8]) -> Result<Text, BadRequest>
    ensures { Gives result (file_at part.now) }
{
    let name = decoded(alloc, part)?;
    if is_file_name(name.as_bytes()) {
        Ok(name)
    } else {
        Err(BadRequest::NotFound)
    }
}

fn top_at(alloc: Global, part: &[u8]) -> Result<Text, BadRequest>
    ensures { Gives result (top_at part.now) }
{
    let top = decoded(alloc, part)?;
    if is_word(top.as_bytes()) {
        Ok(top)
    } else {
        Err(BadRequest::NotFound)
    }
}

// The waiver's number that a text is.
fn waiver_named(text: &[u8]) -> Result<WaiverId, BadRequest>
    ensures { Gives result (waiver_named text.now) }
{
    let number = number_up_to(1 << 32, text);
    if is_plain(text) && number < 1 << 32 {
        Ok(WaiverId(number as u32))
    } else {
        Err(BadRequest::NotFound)
    }
}

fn waiver_at(alloc: Global, part: &[u8]) -> Result<WaiverId, BadRequest>
    ensures { Gives result (waiver_at part.now) }
{
    let text = decoded(alloc, part)?;
    waiver_named(text.as_bytes())
}

// What an action at a part of a target asks for.
pub(crate) fn aim_of(alloc: Global, action: Action, part: &[u8]) -> Result<Aim, BadRequest>
    ensures { Gives result (aim_of action part.now) }
{
    match action {
        Action::PutFile => Ok(Aim::PutFile(file_at(alloc, part)?)),
        Action::GetFile => Ok(Aim::Other(Ask::GetFile(file_at(alloc, part)?))),
        Action::FileText => Ok(Aim::Other(Ask::FileText(file_at(alloc, part)?))),
        Action::Files => Ok(Aim::Other(Ask::Files)),
        Action::DropFile => Ok(Aim::Other(Ask::DropFile(file_at(alloc, part)?))),
        Action::Ruling => Ok(Aim::Other(Ask::Ruling(top_at(alloc, part)?))),
        Action::Reach => Ok(Aim::Other(Ask::Reach(top_at(alloc, part)?))),
        Action::SignOff => Ok(Aim::Other(Ask::SignOff(top_at(alloc, part)?))),
        Action::SignOffs => Ok(Aim::Other(Ask::SignOffs)),
        Action::Waive => Ok(Aim::Waive),
        Action::Waivers => Ok(Aim::Other(Ask::Waivers)),
        Action::Revoke => Ok(Aim::Other(Ask::Revoke(waiver_at(alloc, part)?))),
    }
}
