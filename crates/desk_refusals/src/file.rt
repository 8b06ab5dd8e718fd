//! Why a file has no modules.

ghost use Rattle.std.specs.Prelude.{◌≡◌, IfOk, IsSome};
ghost use Rattle.std.specs.Option.{option_map};
ghost use Rattle.desk_places.specs.Places.{sources_of};
ghost use Rattle.desk_refusals.specs.Notices.{file_notice, in_file, lex_notice, parse_notice, prep_notice, token_text};
ghost use Rattle.desk_refusals.specs.Refusals.{notice, source_line};

use crate::line::line;
use crate::reason::{Reason, alone, worded};
use desk_places::sources::Sources;
use rtl_front::FileFault;
use rtl_parse::ParseFault;
use rtl_prep::PrepFault;
use rtl_text::LexFault;
use std::alloc::Global;
use text_ground::memory::Memory;
use text_ground::text::Spot;

fn place(file: u32, at: u32) -> Option<Spot>
    ensures { result ≡ in_file file at }
{
    Some(Spot { file, at })
}

fn lex_reason(file: u32, fault: &LexFault) -> Option<Reason<'static>>
    ensures { option_map notice result ≡ lex_notice file fault.now }
{
    match fault {
        LexFault::NotAscii(at) => alone(b"NotAscii", place(file, *at)),
        LexFault::BadNumber(at) => alone(b"BadNumber", place(file, *at)),
        LexFault::BadCharacter(at) => alone(b"BadCharacter", place(file, *at)),
        LexFault::OpenComment(at) => alone(b"OpenComment", place(file, *at)),
        LexFault::TooManyTokens(at) => alone(b"TooManyTokens", place(file, *at)),
        LexFault::Memory => None,
    }
}

fn prep_reason(file: u32, fault: &PrepFault) -> Option<Reason<'_>>
    ensures { option_map notice result ≡ prep_notice file fault.now }
{
    match fault {
        PrepFault::Directive(name, at) => worded(b"Directive", name.as_slice(), place(file, *at)),
        PrepFault::Unbalanced(at) => alone(b"Unbalanced", place(file, *at)),
        PrepFault::MacroLoop(name, at) => worded(b"MacroLoop", name.as_slice(), place(file, *at)),
        PrepFault::TooManyTokens(at) => alone(b"TooManyTokens", place(file, *at)),
        PrepFault::Memory => None,
    }
}

/// The text of a token. The empty one stands at the end of the file.
fn token_text(token: &[u8]) -> &[u8]
    ensures { result.now ≡ token_text token.now }
{
    if token.is_empty() {
        b"end of file"
    } else {
        token
    }
}

fn parse_reason(file: u32, fault: &ParseFault) -> Option<Reason<'_>>
    ensures { option_map notice result ≡ parse_notice file fault.now }
{
    match fault {
        ParseFault::Refused(word, at) => worded(b"construct", word.as_slice(), place(file, *at)),
        ParseFault::Syntax(token, at) => {
            worded(b"Syntax", token_text(token.as_slice()), place(file, *at))
        }
        ParseFault::TooDeep(at) => alone(b"TooDeep", place(file, *at)),
        ParseFault::Memory => None,
    }
}

fn file_reason(file: u32, fault: &FileFault) -> Option<Reason<'_>>
    ensures { option_map notice result ≡ file_notice file fault.now }
{
    match fault {
        FileFault::Lex(fault) => lex_reason(file, fault),
        FileFault::Prepare(fault) => prep_reason(file, fault),
        FileFault::Parse(fault) => parse_reason(file, fault),
    }
}

/// The line that says why a file, by its position from 0, has no modules.
///
/// # Errors
///
/// Memory ran out, here or where the file was read. More files than a place can count fit into no memory.
pub fn source_refusal(
    alloc: Global,
    sources: &Sources<'_>,
    file: usize,
    fault: &FileFault,
) -> Result<Vec<u8>, Memory>
    ensures told { IfOk result (λ _. IsSome (file_notice file fault.now)) }
    ensures line { IfOk result (λ line. line.items
        ≡ source_line (sources_of sources.now) file fault.now) }
{
    match u32::try_from(file) {
        Ok(number) => line(alloc, sources, file_reason(number, fault)),
        Err(_) => Err(Memory),
    }
}
