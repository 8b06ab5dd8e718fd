// The terminal symbols of tokens.

ghost use Rattle.std.specs.Prelude.{◌≡◌, map, take, drop, position, IfOk};
ghost use Rattle.rtl_tree.specs.Symbols as spec;
ghost use Rattle.text_survey.specs.Surveys as surveys;
ghost use Rattle.text_survey.specs.Terminals as here;

use rtl_tree::symbol::{Symbol, Terminal};
use rtl_tree::token::{Pragma, Tok, Token};
use std::alloc::Global;
use text_ground::memory::Memory;

/// The keywords of the grammar, and those of constructs outside this language (IEEE 1364-2001 annex B), by their buckets, so that a
/// word is compared with few of them.
static WORDS: [&[(&[u8], Symbol)]; 32] = [
    &[],
    &[
        (b"assign", Symbol::Assign),
        (b"always", Symbol::Always),
        (b"and", Symbol::And),
    ],
    &[
        (b"begin", Symbol::Begin),
        (b"buf", Symbol::Buf),
        (b"bufif0", Symbol::Refused),
        (b"bufif1", Symbol::Refused),
    ],
    &[
        (b"case", Symbol::Case),
        (b"casez", Symbol::Casez),
        (b"casex", Symbol::Casex),
        (b"cmos", Symbol::Refused),
        (b"config", Symbol::Refused),
    ],
    &[
        (b"default", Symbol::Default),
        (b"$signed", Symbol::ToSigned),
        (b"$unsigned", Symbol::ToUnsigned),
        (b"$clog2", Symbol::Clog2),
        (b"disable", Symbol::Refused),
        (b"deassign", Symbol::Refused),
        (b"defparam", Symbol::Refused),
    ],
    &[
        (b"endmodule", Symbol::Endmodule),
        (b"end", Symbol::End),
        (b"else", Symbol::Else),
        (b"endcase", Symbol::Endcase),
        (b"endgenerate", Symbol::Endgenerate),
        (b"event", Symbol::Refused),
        (b"endtask", Symbol::Refused),
        (b"endspecify", Symbol::Refused),
        (b"endprimitive", Symbol::Refused),
        (b"endtable", Symbol::Refused),
        (b"endfunction", Symbol::Refused),
    ],
    &[
        (b"for", Symbol::For),
        (b"fork", Symbol::Refused),
        (b"force", Symbol::Refused),
        (b"forever", Symbol::Refused),
        (b"function", Symbol::Refused),
    ],
    &[(b"generate", Symbol::Generate), (b"genvar", Symbol::Genvar)],
    &[],
    &[
        (b"input", Symbol::Input),
        (b"integer", Symbol::Integer),
        (b"if", Symbol::If),
        (b"inout", Symbol::Refused),
    ],
    &[(b"join", Symbol::Refused)],
    &[],
    &[
        (b"localparam", Symbol::Localparam),
        (b"library", Symbol::Refused),
    ],
    &[(b"module", Symbol::Module)],
    &[
        (b"negedge", Symbol::Negedge),
        (b"nand", Symbol::Nand),
        (b"nor", Symbol::Nor),
        (b"not", Symbol::Not),
        (b"notif0", Symbol::Refused),
        (b"notif1", Symbol::Refused),
        (b"nmos", Symbol::Refused),
    ],
    &[(b"output", Symbol::Output), (b"or", Symbol::Or)],
    &[
        (b"parameter", Symbol::Parameter),
        (b"posedge", Symbol::Posedge),
        (b"primitive", Symbol::Refused),
        (b"pmos", Symbol::Refused),
        (b"pullup", Symbol::Refused),
        (b"pulldown", Symbol::Refused),
    ],
    &[],
    &[
        (b"reg", Symbol::Reg),
        (b"release", Symbol::Refused),
        (b"real", Symbol::Refused),
        (b"realtime", Symbol::Refused),
        (b"repeat", Symbol::Refused),
        (b"rnmos", Symbol::Refused),
        (b"rpmos", Symbol::Refused),
        (b"rcmos", Symbol::Refused),
        (b"rtran", Symbol::Refused),
        (b"rtranif0", Symbol::Refused),
        (b"rtranif1", Symbol::Refused),
    ],
    &[
        (b"signed", Symbol::Signed),
        (b"specify", Symbol::Refused),
        (b"specparam", Symbol::Refused),
        (b"supply0", Symbol::Refused),
        (b"supply1", Symbol::Refused),
        (b"scalared", Symbol::Refused),
    ],
    &[
        (b"time", Symbol::Refused),
        (b"task", Symbol::Refused),
        (b"table", Symbol::Refused),
        (b"tri", Symbol::Refused),
        (b"tri0", Symbol::Refused),
        (b"tri1", Symbol::Refused),
        (b"triand", Symbol::Refused),
        (b"trior", Symbol::Refused),
        (b"trireg", Symbol::Refused),
        (b"tran", Symbol::Refused),
        (b"tranif0", Symbol::Refused),
        (b"tranif1", Symbol::Refused),
    ],
    &[],
    &[(b"vectored", Symbol::Refused)],
    &[
        (b"wire", Symbol::Wire),
        (b"wait", Symbol::Refused),
        (b"while", Symbol::Refused),
        (b"wand", Symbol::Refused),
        (b"wor", Symbol::Refused),
    ],
    &[(b"xor", Symbol::Xor), (b"xnor", Symbol::Xnor)],
    &[],
    &[],
    &[],
    &[],
    &[],
    &[],
    &[],
];

/// The marks (IEEE 1364-2001, 2.4), by their buckets.
static MARKS: [&[(&[u8], Symbol)]; 32] = [
    &[(b"@", Symbol::At)],
    &[
        (b"!", Symbol::Bang),
        (b"!=", Symbol::BangEquals),
        (b"!==", Symbol::CaseBangEquals),
    ],
    &[],
    &[(b"#", Symbol::Hash)],
    &[],
    &[(b"%", Symbol::Percent)],
    &[(b"&", Symbol::Ampersand), (b"&&", Symbol::AndAnd)],
    &[],
    &[(b"(", Symbol::OpenParen), (b"(*", Symbol::OpenAttribute)],
    &[(b")", Symbol::CloseParen)],
    &[
        (b"*", Symbol::Star),
        (b"*)", Symbol::CloseAttribute),
        (b"**", Symbol::StarStar),
    ],
    &[(b"+", Symbol::Plus), (b"+:", Symbol::PlusColon)],
    &[(b",", Symbol::Comma)],
    &[
        (b"-", Symbol::Minus),
        (b"-:", Symbol::MinusColon),
        (b"->", Symbol::Refused),
    ],
    &[(b".", Symbol::Dot)],
    &[(b"/", Symbol::Slash)],
    &[],
    &[],
    &[],
    &[],
    &[],
    &[],
    &[],
    &[],
    &[],
    &[],
    &[(b":", Symbol::Colon)],
    &[
        (b"[", Symbol::OpenBracket),
        (b"{", Symbol::OpenBrace),
        (b";", Symbol::Semicolon),
    ],
    &[
        (b"<=", Symbol::LessEquals),
        (b"|", Symbol::Bar),
        (b"<", Symbol::Less),
        (b"||", Symbol::OrOr),
        (b"<<", Symbol::ShiftLeft),
        (b"<<<", Symbol::ArithmeticShiftLeft),
    ],
    &[
        (b"]", Symbol::CloseBracket),
        (b"}", Symbol::CloseBrace),
        (b"=", Symbol::Equals),
        (b"==", Symbol::EqualEquals),
        (b"===", Symbol::CaseEquals),
    ],
    &[
        (b"~", Symbol::Tilde),
        (b"^", Symbol::Caret),
        (b">", Symbol::Greater),
        (b">=", Symbol::GreaterEquals),
        (b">>", Symbol::ShiftRight),
        (b"~&", Symbol::TildeAmpersand),
        (b"~|", Symbol::TildeBar),
        (b"~^", Symbol::TildeCaret),
        (b"^~", Symbol::TildeCaret),
        (b">>>", Symbol::ArithmeticShiftRight),
    ],
    &[(b"?", Symbol::Question)],
];

fn skip(text: &[u8], size: usize) -> &[u8]
    ensures { result.now ≡ drop size text.now }
{
    if size < text.len() {
        &text[size..]
    } else {
        &[]
    }
}

fn front(text: &[u8], size: usize) -> &[u8]
    ensures { result.now ≡ take size text.now }
{
    if size < text.len() {
        &text[..size]
    } else {
        text
    }
}

/// The bytes of a token.
fn slice<'a>(text: &'a [u8], token: Token) -> &'a [u8]
    ensures { result.now ≡ spec.slice text.now token }
{
    front(
        skip(text, token.from as usize),
        token.to.saturating_sub(token.from) as usize,
    )
}

fn lookup(mut table: &[(&[u8], Symbol)], other: Symbol, text: &[u8]) -> Symbol
    ensures { result ≡ spec.lookup (map (λ k. (k.0.now, k.1)) table.entry.now) other text.now }
{
    while let [entry, rest @ ..] = table {
        if entry.0 == text {
            return entry.1;
        }
        table = rest;
    }
    other
}

fn unlisted(word: &[u8]) -> Symbol
    ensures { result ≡ here.unlisted word.now }
{
    match word {
        [b'$', ..] => Symbol::Refused,
        _ => Symbol::Name,
    }
}

/// The bucket of a text: the low five bits of its first byte.
fn bucket(text: &[u8]) -> usize
    ensures { result ≡ here.bucket text.now }
{
    match text {
        [first, ..] => usize::from(*first % 32),
        [] => 0,
    }
}

fn lookup_in(buckets: &[&[(&[u8], Symbol)]], other: Symbol, text: &[u8]) -> Symbol
    ensures { result ≡ here.lookup_in
        (map (λ bucket. map (λ k. (k.0.now, k.1)) bucket.now) buckets.now) other text.now }
{
    match buckets.get(bucket(text)) {
        Some(rows) => lookup(rows, other, text),
        None => other,
    }
}

fn word_symbol(word: &[u8]) -> Symbol
    ensures { result ≡ spec.word_symbol word.now }
{
    lookup_in(&WORDS, unlisted(word), word)
}

fn mark_symbol(mark: &[u8]) -> Symbol
    ensures { result ≡ spec.mark_symbol mark.now }
{
    lookup_in(&MARKS, Symbol::Alien, mark)
}

fn symbol(kind: Tok, text: &[u8]) -> Symbol
    ensures { result ≡ spec.symbol kind text.now }
{
    match kind {
        Tok::Word => word_symbol(text),
        Tok::Number(_) => Symbol::Number,
        Tok::Str => Symbol::Quoted,
        Tok::Mark => mark_symbol(text),
        Tok::Directive | Tok::Pragma(_) => Symbol::Alien,
    }
}

fn terminal<'a>(text: &'a [u8], token: &'a Token) -> Terminal<'a>
    ensures { spec.terminal result ≡ here.bare text.now token.entry.now }
{
    let text = slice(text, *token);
    Terminal {
        symbol: symbol(token.kind, text),
        kind: &token.kind,
        at: token.at,
        text,
        full: false,
        parallel: false,
    }
}

/// A terminal with what a pragma says that follows it directly.
fn marked<'a>(last: Terminal<'a>, pragma: Pragma) -> Terminal<'a>
    ensures { spec.terminal result
        ≡ here.marked (spec.terminal last.entry) (spec.says_full pragma)
        (spec.says_parallel pragma) }
{
    let mut last = last;
    if let Pragma::Case { full, parallel } = pragma {
        last.full = last.full || full;
        last.parallel = last.parallel || parallel;
    }
    last
}

fn add<'a>(
    terminals: &mut Vec<Terminal<'a>>,
    text: &'a [u8],
    token: &'a Token,
) -> Result<(), Memory>
    ensures { IfOk result (λ _. (after : spec.Sight)
        → here.joined (map spec.terminal terminals.new.items) after
        ≡ here.joined (map spec.terminal terminals.old.items)
        (spec.sight text.now token.entry.now (spec.pragma_of token.entry.now.kind) after)) }
{
    match token.kind {
        Tok::Pragma(pragma) => {
            if let Some(last) = terminals.pop() {
                terminals.push(marked(last, pragma))?;
            }
        }
        _ => terminals.push(terminal(text, token))?,
    }
    Ok(())
}

fn gathered<'a>(
    alloc: Global,
    text: &'a [u8],
    tokens: &'a [Token],
) -> Result<Vec<Terminal<'a>>, Memory>
    ensures { IfOk result (λ ts. map spec.terminal ts.items ≡ spec.terminals text.now tokens.now) }
{
    let mut terminals = Vec::new(alloc);
    for token in tokens {
        add(&mut terminals, text, token)?;
    }
    Ok(terminals)
}

/// The tokens of a text as the grammar sees them: a pragma is no token of its own, and is kept with the token that it follows. The
/// only error is want of memory.
pub fn terminals<'a>(
    alloc: Global,
    text: &'a [u8],
    tokens: &'a [Token],
) -> Result<Vec<Terminal<'a>>, Memory>
    ensures found { IfOk result (λ ts. map spec.terminal ts.items
        ≡ spec.terminals text.now tokens.now) }
    ensures numbered { IfOk result (λ ts. surveys.AreNumbered (map spec.terminal ts.items)) }
{
    gathered(alloc, text, tokens)
}

fn is_refused(symbol: Symbol) -> bool
    ensures { result ≡ here.is_refused symbol }
{
    matches!(symbol, Symbol::Refused)
}

/// The number of the first token that is outside this language, from 0.
pub fn refused(tokens: &[Terminal]) -> Option<usize>
    ensures { result ≡ position (λ t. here.is_refused t.symbol) tokens.now }
{
    tokens.iter().position(|t| is_refused(t.symbol))
}
