// Where modules stand.

ghost use Rattle.std.specs.Prelude.{◌≡◌, ◌++◌, IfOk, OnOk};
ghost use Rattle.rtl_prep.specs.Conditions as spec;
ghost use Rattle.rtl_prep.specs.Passes as pass;

use crate::conditions::{Ask, Extent};
use crate::word::is_word;
use rtl_tree::token::Token;
use std::alloc::Global;
use text_ground::memory::Memory;

fn extent_to(from: u32, end: Option<u32>) -> Extent
    ensures { result ≡ spec.extent from end }
{
    match end {
        Some(to) => Extent { from, to },
        None => Extent { from, to: from },
    }
}

/// What is known before some tokens: they are passed from the last to the first, so that each module's end is there when its
/// beginning comes.
#[derive(Drop)]
pub struct Ending {
    /// The first `endmodule`.
    pub end: Option<u32>,
    /// The modules, the last first.
    pub found: Vec<Extent>,
}

impl Ending {
    fn take(&mut self, text: &[u8], token: Token) -> Result<(), Memory>
        ensures end { OnOk result (self.new.end ≡ pass.end_before text.now token self.old.end) }
        ensures found { OnOk result (self.new.found.items ≡ self.old.found.items
            ++ pass.extent_before text.now token self.old.end) }
    {
        if is_word(b"module", text, token) {
            self.found.push(extent_to(token.at, self.end))?;
        }
        if is_word(b"endmodule", text, token) {
            self.end = Some(token.at);
        }
        Ok(())
    }
}

fn extents(alloc: Global, text: &[u8], tokens: &[Token]) -> Result<Vec<Extent>, Memory>
    ensures { IfOk result (λ made. made.items ≡ spec.extents text.now tokens.now) }
{
    let mut ending = Ending {
        end: None,
        found: Vec::new(alloc),
    };
    let mut place = tokens.len();
    while place > 0 {
        place -= 1;
        ending.take(text, tokens[place])?;
    }
    ending.found.reverse();
    Ok(ending.found)
}

/// The modules among tokens, where a condition asks.
pub fn extents_for(
    alloc: Global,
    asks: &[Ask],
    text: &[u8],
    tokens: &[Token],
) -> Result<Vec<Extent>, Memory>
    ensures { IfOk result (λ made. made.items
        ≡ spec.extents_for asks.now text.now tokens.now) }
{
    match asks {
        [] => Ok(Vec::new(alloc)),
        _ => extents(alloc, text, tokens),
    }
}
