// Splits a text into its tokens.

ghost use Rattle.std.specs.Prelude.{◌≡◌, ℕ, Result, ◌+◌, ◌<◌, ◌≤◌, List, [], ◌∷◌, ◌++◌, length, drop, IfOk, IfErr, OnOk};
ghost use Rattle.rtl_text.specs.Fronts.{front};
ghost use Rattle.text_ground.specs.declared.text.TheConstants.{MAX_BYTES};
ghost use Rattle.rtl_tree.specs.declared.token.TheConstants.{MAX_TOKENS};
ghost use Rattle.rtl_tree.specs.Token.{token};
ghost use Rattle.rtl_tree.specs.Splits.{Upto, Splits};
ghost use Rattle.rtl_text.specs.Faults.{Answers, Refuses, IsFull, Says, Turn};
ghost use Rattle.rtl_tree.specs.declared.token.Token.{Token};
ghost use Rattle.rtl_text.specs.declared.fault.LexFault.{LexFault};

use crate::fault::LexFault;
use crate::front::{Front, front_of};
use crate::run::{ascii_len, skip, take};
use rtl_tree::token::{MAX_TOKENS, MAX_WORD, Pragma, Tok, Token, Tokens};
use std::alloc::Global;

#[derive(Drop)]
struct Lexer<'a> {
    rest: &'a [u8],
    at: u32,
    tokens: Vec<Token>,
    ghost fits: { at + length rest.now ≤ MAX_BYTES },
    ghost few: { length tokens.items ≤ MAX_TOKENS },
}

impl<'a> Lexer<'a> {
    fn skip(&mut self, size: usize)
        requires { size ≤ length self.old.rest.now }
        ensures tokens { self.new.tokens.items ≡ self.old.tokens.items }
        ensures at { self.new.at ≡ self.old.at + size }
        ensures rest { self.new.rest.now ≡ drop size self.old.rest.now }
    {
        self.rest = skip(self.rest, size);
        self.at += size as u32;
    }

    /// Takes the next bytes as a token.
    fn take(&mut self, kind: Tok, size: usize) -> Result<(), LexFault>
        requires { size ≤ length self.old.rest.now }
        ensures tokens { OnOk result (self.new.tokens.items
            ≡ self.old.tokens.items ++ token kind self.old.at size ∷ []) }
        ensures at { OnOk result (self.new.at ≡ self.old.at + size) }
        ensures rest { OnOk result (self.new.rest.now ≡ drop size self.old.rest.now) }
        ensures full { IfErr result (λ e. IsFull (length self.old.tokens.items) self.old.at e) }
    {
        if self.tokens.len() >= MAX_TOKENS {
            return Err(LexFault::TooManyTokens(self.at));
        }
        let token = Token {
            kind,
            from: self.at,
            to: self.at + size as u32,
            at: self.at,
        };
        self.tokens.push(token)?;
        self.skip(size);
        Ok(())
    }

    /// Takes a comment that tells synthesis something.
    fn note(&mut self, pragma: Pragma, size: usize) -> Result<(), LexFault>
        requires there { 0 < length self.old.rest.now }
        requires found { front self.old.rest.now ≡ Front.Note pragma size }
        ensures { Turn self.old.tokens.items self.old.at self.old.rest.now result
            self.new.tokens.items self.new.at self.new.rest.now }
    {
        self.take(Tok::Pragma(pragma), size)
    }

    /// Takes the two marks of a `(*` that opens no attribute.
    fn star(&mut self) -> Result<(), LexFault>
        requires there { 0 < length self.old.rest.now }
        requires found { front self.old.rest.now ≡ Front.Star }
        ensures { Turn self.old.tokens.items self.old.at self.old.rest.now result
            self.new.tokens.items self.new.at self.new.rest.now }
    {
        self.take(Tok::Mark, 1)?;
        self.take(Tok::Mark, 1)
    }

    /// Takes a token, in which a string's bytes may not be ASCII.
    fn token(&mut self, kind: Tok, size: usize) -> Result<(), LexFault>
        requires there { 0 < length self.old.rest.now }
        requires found { front self.old.rest.now ≡ Front.One kind size }
        ensures { Turn self.old.tokens.items self.old.at self.old.rest.now result
            self.new.tokens.items self.new.at self.new.rest.now }
    {
        let text = self.rest;
        let at = self.at;
        self.take(kind, size)?;
        let good = ascii_len(take(text, size));
        if good < size {
            return Err(LexFault::NotAscii(at + good as u32));
        }
        Ok(())
    }

    /// Goes past a blank or a comment.
    fn gap(&mut self, size: usize) -> Result<(), LexFault>
        requires there { 0 < length self.old.rest.now }
        requires found { front self.old.rest.now ≡ Front.Gap size }
        ensures { Turn self.old.tokens.items self.old.at self.old.rest.now result
            self.new.tokens.items self.new.at self.new.rest.now }
    {
        self.skip(size);
        Ok(())
    }

    /// Goes past the piece at the front.
    fn step(&mut self) -> Result<(), LexFault>
        requires { 0 < length self.old.rest.now }
        ensures { Turn self.old.tokens.items self.old.at self.old.rest.now result
            self.new.tokens.items self.new.at self.new.rest.now }
    {
        match front_of(self.rest) {
            Front::Gap(size) => self.gap(size),
            Front::Note(pragma, size) => self.note(pragma, size),
            Front::Star => self.star(),
            Front::One(kind, size) => self.token(kind, size),
            Front::NotAscii => Err(LexFault::NotAscii(self.at)),
            Front::BadNumber => Err(LexFault::BadNumber(self.at)),
            Front::BadCharacter => Err(LexFault::BadCharacter(self.at)),
            Front::LongWord => Err(LexFault::BadCharacter(self.at + MAX_WORD as u32)),
            Front::OpenComment => Err(LexFault::OpenComment(self.at)),
        }
    }
}

/// The tokens of a text of at most 1,048,576 bytes: the one list into which it splits, or its first fault.
pub fn lex(alloc: Global, text: &[u8]) -> Result<Tokens, LexFault>
    requires { length text.now ≤ MAX_BYTES }
    ensures tokens { IfOk result (λ tokens. Answers text.now (Ok tokens)) }
    ensures fault { IfErr result (λ fault. Refuses text.now fault) }
    ensures only { (answer : Result (List Token) LexFault) → Answers text.now answer
        → Says answer result }
{
    let mut lexer = Lexer {
        rest: text,
        at: 0,
        tokens: Vec::new(alloc),
    };
    while !lexer.rest.is_empty() {
        lexer.step()?;
    }
    Ok(Tokens::from_vec(lexer.tokens))
}
