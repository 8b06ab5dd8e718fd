//! The calls of the front end one by one, and the trees of small texts.

ghost use Rattle.std.specs.Prelude.{◌≡◌, ◌≤◌, ◌<◌, length};
ghost use Rattle.text_ground.specs.declared.text.TheConstants.{MAX_BYTES};

use crate::stop::Stop;
use crate::texts::prepared;
use rtl_front::law;
use rtl_parse::{ParseFault, parse};
use rtl_text::lex;
use rtl_tree::prepared::Prepared;
use rtl_tree::token::Tokens;
use rtl_tree::tree::item::Item;
use rtl_tree::tree::modules::{Module, WrittenModule};
use std::alloc::Global;
use std::marker::Brand;
use std::sync::ledger::{Blank, Ledger};
use steps::Steps;
use text_build::{build, spelled_once};
use text_grammar::nesting::depth;
use text_ground::text::Text;
use text_survey::{refused, survey, terminals};

fn counted<L: Ledger>(
    alloc: Global,
    text: &Prepared,
    blank: Blank,
) -> Result<Vec<Module>, ParseFault>
    requires name { blank.name ≡ L.name }
    requires parts { blank.parts ≡ L.parts }
    requires some { 0 < L.parts }
{
    let mut steps = Steps::<L>::new(blank);
    steps.tick();
    parse(alloc, text, &mut steps)
}

fn parsed(alloc: Global, text: &Prepared) -> Result<Vec<Module>, Stop> {
    match counted::<Brand>(alloc, text, Blank::new(1)) {
        Ok(modules) => Ok(modules),
        Err(_) => Err(Stop::Unread),
    }
}

/// The greatest depth of some modules.
fn deepest(modules: &[WrittenModule]) -> u32 {
    let mut most = 0;
    for module in modules {
        most = depth(module).max(most);
    }
    most
}

/// What the survey and the builder make of a text.
fn built(alloc: Global, ready: &Prepared) -> Result<Vec<u8>, Stop> {
    spelled_once();
    let text = Text::from_bytes(alloc, ready.text())?;
    let all = terminals(alloc, text.as_bytes(), ready.tokens())?;
    let first = refused(&all);
    let surveyed = survey(alloc, &all)?;
    let Ok(modules) = build(alloc, &all, ready.dropped()) else {
        return Err(Stop::Unread);
    };
    let (count, deepest) = (modules.len(), deepest(&modules));
    Ok(format!(in alloc;
        "refused {first:?}\nsurvey {surveyed:?}\nbuilt {count} deepest {deepest}\n"
    )?.into_bytes())
}

/// What is left of tokens that are put together anew, with no region and no text.
fn again(alloc: Global, tokens: Tokens) -> Result<Vec<u8>, Stop> {
    let again = Prepared::new(
        Tokens::from_vec(tokens.into_vec()).into_vec(),
        Vec::new(alloc),
        Text::from_vec(Vec::new(alloc)),
    );
    let (tokens, dropped, text) = (
        again.tokens().len(),
        again.dropped().len(),
        again.text().len(),
    );
    let none = Tokens::new(alloc).as_slice().len();
    Ok(format!(in alloc; "again {tokens} {dropped} {text} none {none}")?.into_bytes())
}

/// What each call of the front end makes of a text.
pub fn told(alloc: Global, text: &[u8]) -> Result<Vec<u8>, Stop>
    requires { length text.now ≤ MAX_BYTES }
{
    law::never_both();
    law::one_first();
    let Ok(tokens) = lex(alloc, text) else {
        return Err(Stop::Unread);
    };
    let Ok(ready) = prepared(alloc, text) else {
        return Err(Stop::Unread);
    };
    let mut out = format!(in alloc; "tokens {}\n", tokens.as_slice().len())?.into_bytes();
    out.extend_from_slice(&built(alloc, &ready)?)?;
    let parsed = parsed(alloc, &ready)?.len();
    out.extend_from_slice(format!(in alloc; "parsed {parsed}\n")?.as_bytes())?;
    out.extend_from_slice(&again(alloc, tokens)?)?;
    Ok(out)
}

/// The place of the value of the last assignment of some modules: that of its outermost operator.
fn value_place(modules: &[Module]) -> u32 {
    let mut place = 0;
    for module in modules {
        for item in &module.items {
            if let Item::Assigns(_, _, assignments) = item {
                for assignment in assignments {
                    place = assignment.value.place();
                }
            }
        }
    }
    place
}

/// The place of the value of the last assignment of a text.
pub fn place(alloc: Global, text: &[u8]) -> Result<Vec<u8>, Stop>
    requires { length text.now ≤ MAX_BYTES }
{
    let Ok(ready) = prepared(alloc, text) else {
        return Err(Stop::Unread);
    };
    let modules = parsed(alloc, &ready)?;
    Ok(format!(in alloc; "{}", value_place(&modules))?.into_bytes())
}
