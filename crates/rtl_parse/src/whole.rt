// The way of a prepared text through the parser.

ghost use Rattle.std.specs.Prelude.{◌≡◌, ◌+◌, [], None, map, position, IfOk, IfErr, IfSome};
ghost use Rattle.std.specs.List.{slice_get};
ghost use Rattle.rtl_tree.specs.Symbols.{terminal};
ghost use Rattle.rtl_tree.specs.TreeModule.{circuit, written_circuit};
ghost use Rattle.text_grammar.specs.GrammarModule.{AreSpelled};
ghost use Rattle.text_grammar.specs.Deeper.{too_deep};
ghost use Rattle.rtl_parse.specs.Parses.{IsCause, IsParsed, IsThere, first_outside};

use crate::fault::ParseFault;
use crate::plain::followed;
use rtl_tree::prepared::Prepared;
use rtl_tree::symbol::Terminal;
use rtl_tree::tree::modules::{Module, WrittenModule};
use std::alloc::Global;
use std::sync::ledger::Ledger;
use steps::Steps;
use text_build::{BuildFault, are_proper, build, is_ordinary};
use text_ground::dropped::Dropped;
use text_ground::memory::Memory;
use text_survey::{Surveyed, refused, survey, terminals};

/// The text and the place of a token, or of the end of the text.
fn place(
    alloc: Global,
    text: &[u8],
    tokens: &[Terminal],
    number: usize,
) -> Result<(Vec<u8>, u32), Memory>
    ensures { IfOk result (λ found.
        IsThere text.now (slice_get (map terminal tokens.now) number) found.0.items found.1) }
{
    match tokens.get(number) {
        Some(token) => Ok((Vec::from_slice(alloc, token.text)?, token.at)),
        None => Ok((
            Vec::new(alloc),
            u32::try_from(text.len()).unwrap_or(u32::MAX),
        )),
    }
}

/// The modules of a text that is so ordinary that what is read of it is spelled by it for certain; none of another text.
fn certain(
    alloc: Global,
    tokens: &[Terminal],
    regions: &[Dropped],
) -> Result<Option<Vec<WrittenModule>>, Memory>
    ensures spelled { IfOk result (λ found. IfSome found (λ modules.
        AreSpelled regions.now (map terminal tokens.now) (map written_circuit modules.items))) }
    ensures shallow { IfOk result (λ found. IfSome found (λ modules.
        too_deep (map written_circuit modules.items) ≡ [])) }
{
    if !is_ordinary(tokens) {
        return Ok(None);
    }
    match build(alloc, tokens, regions) {
        Ok(modules) => {
            if are_proper(&modules) {
                return Ok(Some(modules));
            }
            Ok(None)
        }
        Err(BuildFault::NotSpelled) => Ok(None),
        Err(BuildFault::Memory) => Err(Memory),
    }
}

/// The modules that a prepared text spells, with assignments in place of gates. It is searched for a word outside this language
/// first. Then an ordinary text is built at once, and any other, and one whose trees aren't spelled by it for certain, is surveyed
/// without recursion, which tells where it stops being spelled and how deep it is nested, and only then built. Each call is one
/// step.
///
/// # Errors
///
/// `Refused` at the first such word, else `Syntax` at the first token that no modules can have there, else `TooDeep` at
/// the least place that is nested more than 200 deep, else `Refused` at the first construct of the first module that has
/// one, since elaboration follows none; `Memory` where memory runs out.
pub fn parse<L: Ledger>(
    alloc: Global,
    text: &Prepared,
    steps: &mut Steps<L>,
) -> Result<Vec<Module>, ParseFault>
    ensures counted { steps.new ≡ steps.old + 1 }
    ensures inside { IfOk result (λ _. first_outside text.now ≡ None) }
    ensures parsed { IfOk result (λ modules. IsParsed text.now (map circuit modules.items)) }
    ensures cause { IfErr result (λ fault. IsCause text.now fault) }
{
    steps.tick();
    let terminals = terminals(alloc, text.text(), text.tokens())?;
    let tokens = terminals.as_slice();
    if let Some(number) = refused(tokens) {
        let (word, at) = place(alloc, text.text(), tokens, number)?;
        return Err(ParseFault::Refused(word, at));
    }
    let regions = text.dropped();
    if let Some(written) = certain(alloc, tokens, regions)? {
        return followed(alloc, written);
    }
    match survey(alloc, tokens)? {
        Surveyed::Stopped(number) => {
            let (token, at) = place(alloc, text.text(), tokens, number)?;
            Err(ParseFault::Syntax(token, at))
        }
        Surveyed::TooDeep(at) => Err(ParseFault::TooDeep(at)),
        Surveyed::Spelled => match build(alloc, tokens, regions) {
            Ok(written) => followed(alloc, written),
            // What is spelled and not too deep is built, unless memory runs out.
            Err(_) => Err(ParseFault::Memory),
        },
    }
}
