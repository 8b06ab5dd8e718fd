// A text whose directives were read.

ghost use Rattle.std.specs.Prelude.{◌≡◌};

use crate::token::Token;
use std::marker::Model;
use text_ground::dropped::Dropped;
use text_ground::text::Text;

/// A prepared text: the tokens that the parser reads, the regions that synthesis doesn't see, and the text itself.
#[derive(Drop)]
pub struct Prepared {
    tokens: Vec<Token>,
    dropped: Vec<Dropped>,
    text: Text,
}

impl Model for Prepared {
    ghost use Rattle.rtl_tree.specs.Prepared.{Ready};

    ghost Value = { Ready };

    ghost view = { λ p. record { tokens = p.tokens.items; dropped = p.dropped.items; text = p.text } };
}

impl Prepared {
    /// Puts the parts together, without memory.
    pub fn new(tokens: Vec<Token>, dropped: Vec<Dropped>, text: Text) -> Prepared
        ensures { result ≡ record { tokens = tokens.items; dropped = dropped.items; text = text } }
    {
        Prepared {
            tokens,
            dropped,
            text,
        }
    }

    pub fn tokens(&self) -> &[Token]
        ensures { result.now ≡ self.now.tokens }
    {
        self.tokens.as_slice()
    }

    /// The regions in `translate_off`, then those of `initial`, then the comments that tell nothing, each by place.
    pub fn dropped(&self) -> &[Dropped]
        ensures { result.now ≡ self.now.dropped }
    {
        self.dropped.as_slice()
    }

    pub fn text(&self) -> &[u8]
        ensures { result.now ≡ self.now.text }
    {
        self.text.as_bytes()
    }
}
