// Tokens, and lists of them.

ghost use Rattle.std.specs.Prelude.{◌≡◌, []};

use crate::literal::Literal;
use std::alloc::Global;
use std::marker::Model;

/// How many bytes a name, a keyword, a system name or a directive may have, its `$` or backquote counted.
pub const MAX_WORD: usize = 1_024;

/// How many tokens a text may have, and how many may be kept of it.
pub const MAX_TOKENS: usize = 200_000;

/// What a token is.
#[derive(Clone, Copy, PartialEq, Eq, Debug)]
pub enum Tok {
    /// A name, a keyword, or a system name with its `$`.
    Word,
    /// A number, with its value.
    Number(Literal),
    /// A string, with its quotes.
    Str,
    /// An operator or a punctuation mark.
    Mark,
    /// A backquote with the name that follows it.
    Directive,
    /// A comment that is meant for synthesis.
    Pragma(Pragma),
}

/// What a token is by its form alone, before a number's value is asked.
#[derive(Clone, Copy, PartialEq, Eq, Debug)]
pub enum Form {
    /// A name, or `$` before one.
    Name,
    /// A number, good or bad.
    Numeral,
    /// A string.
    Quoted,
    /// An operator or a punctuation mark.
    Sign,
    /// A backquote before a name.
    Ticked,
}

/// What a comment tells synthesis.
#[derive(Clone, Copy, PartialEq, Eq, Debug)]
pub enum Pragma {
    /// What follows isn't synthesised.
    TranslateOff,
    /// What follows is synthesised again.
    TranslateOn,
    /// The case statement that it follows is full, parallel, or both.
    Case { full: bool, parallel: bool },
    /// Nothing: it is worded like a pragma, and isn't one.
    Loose,
}

/// A token of a text.
#[derive(Clone, Copy, PartialEq, Eq, Debug)]
pub struct Token {
    pub kind: Tok,
    /// Where its slice of the text begins, in bytes from 0.
    pub from: u32,
    /// Where its slice ends.
    pub to: u32,
    /// Its place: that of its slice, or that of the macro's use from which it came.
    pub at: u32,
}

/// A list of tokens.
#[derive(Drop)]
pub struct Tokens {
    all: Vec<Token>,
}

impl Model for Tokens {
    ghost use Rattle.std.specs.Prelude.{List};
    ghost use Rattle.rtl_tree.specs.declared.token.Token.{Token};

    ghost Value = { List Token };

    ghost view = { λ tokens. tokens.all.items };
}

impl Tokens {
    /// No tokens yet; room for them is taken from `alloc`.
    pub fn new(alloc: Global) -> Tokens
        ensures { result ≡ [] }
    {
        Tokens {
            all: Vec::new(alloc),
        }
    }

    /// The tokens of a vector, without memory.
    pub fn from_vec(all: Vec<Token>) -> Tokens
        ensures { result ≡ all.items }
    {
        Tokens { all }
    }

    /// The vector of the tokens, without memory.
    pub fn into_vec(self) -> Vec<Token>
        ensures { result.items ≡ self }
    {
        self.all
    }

    pub fn as_slice(&self) -> &[Token]
        ensures { result.now ≡ self.now }
    {
        self.all.as_slice()
    }
}
