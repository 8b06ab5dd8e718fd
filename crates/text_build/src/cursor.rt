// A place among the tokens of a text, and the smallest things that are read there.

ghost use Rattle.std.specs.Prelude.{◌≡◌, map};
ghost use Rattle.rtl_tree.specs.Symbols.{terminal};
ghost use Rattle.rtl_tree.specs.TreeExpr.{identifier};
ghost use Rattle.text_build.specs.Reading as reading;
ghost use Rattle.text_build.specs.Reading.{Reads};

use crate::fault::BuildFault;
use rtl_tree::literal::Literal;
use rtl_tree::symbol::{Symbol, Terminal};
use rtl_tree::token::Tok;
use rtl_tree::tree::names::Name;
use std::alloc::Global;
use text_ground::text::Text;

#[tactic(auto, unfolding(crate::specs::Reading::same_symbol))]
fn same_symbol(a: Symbol, b: Symbol) -> bool
    ensures { result ≡ reading.same_symbol a b }
{
    a == b
}

/// The value of a token that is a number.
fn value_of(kind: Tok) -> Option<Literal>
    ensures { result ≡ reading.value_of kind }
{
    match kind {
        Tok::Number(value) => Some(value),
        _ => None,
    }
}

/// A place among the tokens of a text. After an `Err` it stands somewhere within what was being read.
#[derive(Drop)]
pub struct Cursor<'a> {
    /// The tokens from the place on.
    pub rest: &'a [Terminal<'a>],
    pub alloc: Global,
}

impl<'a> Cursor<'a> {
    /// The symbol of the next token.
    pub(crate) fn peek(&self) -> Option<Symbol>
        ensures { result ≡ reading.symbol_at (map terminal self.now.rest.now) }
    {
        match self.rest {
            [token, ..] => Some(token.symbol),
            [] => None,
        }
    }

    /// Whether a token of this symbol comes next.
    pub fn is_next(&self, symbol: Symbol) -> bool
        ensures { result ≡ reading.starts symbol (map terminal self.now.rest.now) }
    {
        match self.rest {
            [token, ..] => same_symbol(token.symbol, symbol),
            [] => false,
        }
    }

    /// Takes a token of this symbol if one comes next, and says whether it did.
    pub(crate) fn take_if(&mut self, symbol: Symbol) -> bool
        ensures answer { result ≡ reading.starts symbol (map terminal self.old.rest.now) }
        ensures left { map terminal self.new.rest.now
            ≡ reading.after symbol (map terminal self.old.rest.now) }
    {
        let [token, rest @ ..] = self.rest else {
            return false;
        };
        if !same_symbol(token.symbol, symbol) {
            return false;
        }
        self.rest = rest;
        true
    }

    /// Takes a token of this symbol.
    pub fn token(&mut self, symbol: Symbol) -> Result<Terminal<'a>, BuildFault>
        ensures { Reads (λ t. terminal t) (reading.token symbol (map terminal self.old.rest.now))
            result (map terminal self.new.rest.now) }
    {
        let [token, rest @ ..] = self.rest else {
            return Err(BuildFault::NotSpelled);
        };
        if !same_symbol(token.symbol, symbol) {
            return Err(BuildFault::NotSpelled);
        }
        self.rest = rest;
        Ok(*token)
    }

    /// The place of the next token.
    pub fn place(&self) -> Result<u32, BuildFault>
        ensures { Reads (λ at. at) (reading.place (map terminal self.now.rest.now)) result
            (map terminal self.now.rest.now) }
    {
        match self.rest {
            [token, ..] => Ok(token.at),
            [] => Err(BuildFault::NotSpelled),
        }
    }

    /// Takes the next token, whose symbol was seen, and gives its place.
    pub fn advance(&mut self) -> Result<u32, BuildFault>
        ensures { Reads (λ at. at) (reading.advance (map terminal self.old.rest.now)) result
            (map terminal self.new.rest.now) }
    {
        let [token, rest @ ..] = self.rest else {
            return Err(BuildFault::NotSpelled);
        };
        self.rest = rest;
        Ok(token.at)
    }

    /// Takes a token of this symbol, and gives its place.
    #[tactic(auto, unfolding(crate::specs::Reading::mark))]
    pub fn mark(&mut self, symbol: Symbol) -> Result<u32, BuildFault>
        ensures { Reads (λ at. at) (reading.mark symbol (map terminal self.old.rest.now)) result
            (map terminal self.new.rest.now) }
    {
        let token = self.token(symbol)?;
        Ok(token.at)
    }

    /// Takes a name.
    #[tactic(auto, unfolding(crate::specs::Reading::name))]
    pub fn name(&mut self) -> Result<Name, BuildFault>
        ensures { Reads identifier (reading.name (map terminal self.old.rest.now)) result
            (map terminal self.new.rest.now) }
    {
        let word = self.token(Symbol::Name)?;
        Ok(Name {
            text: Text::from_bytes(self.alloc, word.text)?,
            at: word.at,
        })
    }

    /// Takes a number.
    #[tactic(auto, unfolding(crate::specs::Reading::literal))]
    pub fn literal(&mut self) -> Result<Literal, BuildFault>
        ensures { Reads (λ value. value) (reading.literal (map terminal self.old.rest.now)) result
            (map terminal self.new.rest.now) }
    {
        let number = self.token(Symbol::Number)?;
        match value_of(*number.kind) {
            Some(value) => Ok(value),
            None => Err(BuildFault::NotSpelled),
        }
    }
}
