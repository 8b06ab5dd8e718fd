// Regions that synthesis is told not to see.

ghost use Rattle.std.specs.Prelude.{◌≡◌};
ghost use Rattle.std.specs.List.{list_any};
ghost use Rattle.rtl_prep.specs.Stops.{Tells};
ghost use Rattle.rtl_prep.specs.Regions as spec;

use crate::fault::PrepFault;
use rtl_tree::token::{Pragma, Tok, Token};
use std::alloc::Global;
use text_ground::dropped::{DropKind, Dropped};

/// What stands outside the regions, and where they begin.
#[derive(Drop)]
pub struct Cut {
    /// The place of the region that is open.
    pub opened: Option<u32>,
    pub kept: Vec<Token>,
    pub dropped: Vec<Dropped>,
}

impl Cut {
    #[tactic(auto, unfolding(crate::specs::Regions::cut))]
    fn take(&mut self, token: Token) -> Result<(), PrepFault>
        ensures { Tells (λ _. spec.seen self.new) (spec.cut (spec.seen self.old) token) result }
    {
        match (token.kind, self.opened) {
            (Tok::Pragma(Pragma::TranslateOff), None) => {
                self.opened = Some(token.at);
                self.dropped.push(Dropped {
                    kind: DropKind::TranslateOff,
                    at: token.at,
                })?;
                Ok(())
            }
            (Tok::Pragma(Pragma::TranslateOn), None) => Err(PrepFault::Unbalanced(token.at)),
            (Tok::Pragma(Pragma::TranslateOn), Some(_)) => {
                self.opened = None;
                Ok(())
            }
            (_, None) => {
                self.kept.push(token)?;
                Ok(())
            }
            (_, Some(_)) => Ok(()),
        }
    }
}

/// Whether a token begins or ends a region.
fn bounds_region(token: Token) -> bool
    ensures { result ≡ spec.bounds_region token }
{
    matches!(
        token.kind,
        Tok::Pragma(Pragma::TranslateOff | Pragma::TranslateOn)
    )
}

fn has_regions(tokens: &[Token]) -> bool
    ensures { result ≡ list_any spec.bounds_region tokens.now }
{
    tokens.iter().any(|token| bounds_region(*token))
}

/// The tokens outside the regions, with the regions. Where there is none, it takes no memory.
pub fn regions(alloc: Global, tokens: Vec<Token>) -> Result<Cut, PrepFault>
    ensures { Tells spec.seen (spec.regions tokens.items) result }
{
    if has_regions(tokens.as_slice()) {
        return cut_out(alloc, tokens.as_slice());
    }
    Ok(Cut {
        opened: None,
        kept: tokens,
        dropped: Vec::new(alloc),
    })
}

fn cut_out(alloc: Global, tokens: &[Token]) -> Result<Cut, PrepFault>
    ensures { Tells spec.seen (spec.regions tokens.now) result }
{
    let mut cut = Cut {
        opened: None,
        kept: Vec::new(alloc),
        dropped: Vec::new(alloc),
    };
    for token in tokens {
        cut.take(*token)?;
    }
    match cut.opened {
        None => Ok(cut),
        Some(at) => Err(PrepFault::Unbalanced(at)),
    }
}
