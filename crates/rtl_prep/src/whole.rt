// Preparation as a whole.

ghost use Rattle.std.specs.Prelude.{◌≡◌, ◌++◌, None, IfErr, IfOk, OnOk};
ghost use Rattle.std.specs.List.{list_any};
ghost use Rattle.std.specs.Option.{option_to_list};
ghost use Rattle.rtl_prep.specs.declared.fault.PrepFault.TheVariants as fault;
ghost use Rattle.rtl_prep.specs.Macros as macros;
ghost use Rattle.rtl_prep.specs.Stops.{Tells};
ghost use Rattle.rtl_prep.specs.Tables.{seen};
ghost use Rattle.rtl_prep.specs.Prepares as spec;
ghost use Rattle.rtl_prep.specs.Conditions as asking;
ghost use Rattle.rtl_prep.specs.Passes.{all_seen};

use crate::asks::asks;
use crate::chains::chains;
use crate::comments::comments;
use crate::conditions::Conditions;
use crate::directive::Chain;
use crate::extents::extents_for;
use crate::fault::PrepFault;
use crate::initial::initials;
use crate::macros::Macros;
use crate::names::macros;
use crate::notices::{Notice, notice_at};
use crate::reader::{Reader, after};
use crate::region::regions;
use crate::replace::{Replacer, is_directive};
use rtl_tree::prepared::Prepared;
use rtl_tree::token::{MAX_TOKENS, Token, Tokens};
use std::alloc::Global;
use std::collections::LinkedList;
use text_ground::memory::Memory;
use text_ground::text::Text;

/// The place of the first chain that is open.
#[tactic(auto, unfolding(crate::specs::Prepares::outermost))]
fn outermost(chains: &LinkedList<Chain>) -> Option<u32>
    ensures { result ≡ spec.outermost None chains.now }
{
    let mut at = None;
    for chain in chains.iter() {
        at = Some(chain.at);
    }
    at
}

fn finished(reader: Reader) -> Result<Vec<Token>, PrepFault>
    ensures { Tells (λ v. v.items) (spec.finished (seen reader.entry)) result }
{
    match outermost(&reader.chains) {
        None => {
            let replacer = reader.replacer;
            Ok(replacer.kept)
        }
        Some(at) => Err(PrepFault::Unbalanced(at)),
    }
}

fn has_directives(tokens: &[Token]) -> bool
    ensures { result ≡ list_any (λ t. macros.is_directive t.kind) tokens.now }
{
    tokens.iter().any(|token| is_directive(token.kind))
}

/// What is read of a text: the tokens that are kept, with macros replaced, and its directives.
#[derive(Drop)]
struct Read<'t> {
    kept: Vec<Token>,
    notices: Vec<Notice<'t>>,
}

/// The tokens of the text that is kept, with macros replaced, and the directives. Where no directive stands in it, the tokens are
/// all of them, and it takes no memory.
fn conditions<'t>(alloc: Global, text: &'t [u8], tokens: Vec<Token>) -> Result<Read<'t>, PrepFault>
    ensures kept { Tells (λ r. r.kept.items) (spec.conditions text.now tokens.items) result }
    ensures noted { IfOk result (λ r. all_seen r.notices.items
        ≡ asking.notices text.now tokens.items spec.start) }
{
    if tokens.len() > MAX_TOKENS || has_directives(tokens.as_slice()) {
        return directed(alloc, text, tokens.as_slice());
    }
    Ok(Read {
        kept: tokens,
        notices: Vec::new(alloc),
    })
}

/// Notes the directive that a token is.
fn note<'t, 'a>(
    notices: &mut Vec<Notice<'t>>,
    text: &'t [u8],
    reader: &Reader<'a>,
    token: Token,
    rest: &[Token],
) -> Result<(), PrepFault>
    ensures noted { OnOk result (all_seen notices.new.items ≡ all_seen notices.old.items
        ++ option_to_list (asking.notice_at text.now rest.now (seen reader.now) token)) }
    ensures memory { IfErr result (λ e. e ≡ fault.Memory) }
{
    if let Some(notice) = notice_at(text, reader, token, rest) {
        notices.push(notice)?;
    }
    Ok(())
}

/// The same, token by token.
fn directed<'t>(alloc: Global, text: &'t [u8], tokens: &[Token]) -> Result<Read<'t>, PrepFault>
    ensures kept { Tells (λ r. r.kept.items) (spec.conditions text.now tokens.now) result }
    ensures noted { IfOk result (λ r. all_seen r.notices.items
        ≡ asking.notices text.now tokens.now spec.start) }
{
    let mut notices = Vec::new(alloc);
    let mut reader = Reader {
        alloc,
        text,
        passed: 0,
        chains: LinkedList::new(alloc),
        replacer: Replacer {
            alloc,
            text,
            macros: Macros::new(alloc),
            kept: Vec::new(alloc),
            used: 0,
        },
    };
    for at in 0..tokens.len() {
        let rest = after(tokens, at + 1);
        note(&mut notices, text, &reader, tokens[at], rest)?;
        reader.take(tokens[at], rest)?;
    }
    Ok(Read {
        kept: finished(reader)?,
        notices,
    })
}

/// What the conditions ask, by the directives of a text and the tokens that are left of it.
fn asked<'t>(
    alloc: Global,
    text: &[u8],
    notices: &[Notice<'t>],
    kept: &[Token],
) -> Result<Conditions, Memory>
    ensures { IfOk result (λ c. c ≡ asking.asked_by text.now (all_seen notices.now) kept.now) }
{
    let asks = asks(alloc, notices)?;
    let chains = chains(alloc, notices)?;
    let modules = extents_for(alloc, asks.as_slice(), text, kept)?;
    let macros = macros(alloc, notices)?;
    Ok(Conditions::from_parts(asks, chains, modules, macros))
}

/// What is made of a text's tokens: what the parser sees of them, and what their conditions ask.
#[derive(Drop)]
pub struct Preparation {
    pub prepared: Prepared,
    pub conditions: Conditions,
}

/// Prepares the tokens of a text: drops the regions in `translate_off`, reads directives and replaces macros, drops
/// `initial` constructs, and finds the comments that are worded like pragmas and tell nothing. It tells the regions, then
/// the constructs, then the comments, each by place. A token of a macro's body keeps its slice of the text, and has the
/// place of the use. Beside that it tells what the conditions ask; a text without directives takes no memory for it.
#[tactic(auto, unfolding(crate::specs::Prepares::prepared, crate::specs::Conditions::asked))]
pub fn prepare(alloc: Global, tokens: Tokens, text: &[u8]) -> Result<Preparation, PrepFault>
    ensures prepared { Tells (λ p. p.prepared) (spec.prepared text.now tokens) result }
    ensures asked { IfOk result (λ p. p.conditions ≡ asking.asked text.now tokens) }
{
    let cut = regions(alloc, tokens.into_vec())?;
    let read = conditions(alloc, text, cut.kept)?;
    let shed = initials(alloc, text, cut.dropped, read.kept)?;
    let dropped = comments(alloc, text, shed.dropped, shed.kept.as_slice())?;
    let conditions = asked(alloc, text, read.notices.as_slice(), shed.kept.as_slice())?;
    let text = Text::from_bytes(alloc, text)?;
    Ok(Preparation {
        prepared: Prepared::new(shed.kept, dropped, text),
        conditions,
    })
}
