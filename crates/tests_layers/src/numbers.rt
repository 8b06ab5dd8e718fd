//! Numbers of a text, with their values.

ghost use Rattle.std.specs.Prelude.{◌≤◌, length};
ghost use Rattle.text_ground.specs.declared.text.TheConstants.{MAX_BYTES};

use crate::stop::Stop;
use rtl_text::lex;
use rtl_tree::literal::Literal;
use rtl_tree::token::{Tok, Token};
use std::alloc::Global;

/// A number's width, its digits of 1 and z, its digits of x and z, and whether it is signed and sized.
fn put(alloc: Global, number: &Literal, out: &mut Vec<u8>) -> Result<(), Stop> {
    let Literal {
        width,
        val,
        unk,
        ..
    } = number;
    let sign = if number.signed { "signed" } else { "unsigned" };
    let size = if number.sized { "sized" } else { "unsized" };
    let told = format!(in alloc; "{width} {val:x} {unk:x} {sign} {size}")?;
    out.extend_from_slice(told.as_bytes())?;
    Ok(())
}

fn put_all(alloc: Global, tokens: &[Token]) -> Result<Vec<u8>, Stop> {
    let mut out = Vec::new(alloc);
    for token in tokens {
        match token.kind {
            Tok::Number(number) => put(alloc, &number, &mut out)?,
            _ => out.push(b'?')?,
        }
    }
    Ok(out)
}

/// The numbers of a text, or its fault.
pub fn told(alloc: Global, text: &[u8]) -> Result<Vec<u8>, Stop>
    requires { length text.now ≤ MAX_BYTES }
{
    match lex(alloc, text) {
        Ok(tokens) => put_all(alloc, tokens.as_slice()),
        Err(fault) => Ok(format!(in alloc; "{fault:?}")?.into_bytes()),
    }
}
