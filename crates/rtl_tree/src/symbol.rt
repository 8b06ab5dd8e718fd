// Tokens as the grammar sees them.

use crate::token::Tok;

/// What a token is to the grammar: its terminal symbols (IEEE 1364-2001 annex A).
#[derive(Clone, Copy, PartialEq, Eq, Debug)]
pub enum Symbol {
    /// A word that is neither a keyword nor a refused word.
    Name,
    Number,
    /// A string.
    Quoted,
    /// A word or a mark of the standard that is outside this language.
    Refused,
    /// What stands nowhere in a module: a directive that is left.
    Alien,
    // Words
    Always,
    And,
    Assign,
    Begin,
    Buf,
    Case,
    Casex,
    Casez,
    Default,
    Else,
    End,
    Endcase,
    Endgenerate,
    Endmodule,
    For,
    Generate,
    Genvar,
    If,
    Input,
    Integer,
    Localparam,
    Module,
    Nand,
    Negedge,
    Nor,
    Not,
    Or,
    Output,
    Parameter,
    Posedge,
    Reg,
    Signed,
    Wire,
    Xnor,
    Xor,
    /// `$signed`
    ToSigned,
    /// `$unsigned`
    ToUnsigned,
    /// `$clog2`
    Clog2,
    // Marks
    /// `(`
    OpenParen,
    /// `)`
    CloseParen,
    /// `[`
    OpenBracket,
    /// `]`
    CloseBracket,
    /// `{`
    OpenBrace,
    /// `}`
    CloseBrace,
    /// `(*`
    OpenAttribute,
    /// `*)`
    CloseAttribute,
    /// `;`
    Semicolon,
    /// `:`
    Colon,
    /// `,`
    Comma,
    /// `.`
    Dot,
    /// `=`
    Equals,
    /// `@`
    At,
    /// `#`
    Hash,
    /// `?`
    Question,
    /// `+`
    Plus,
    /// `-`
    Minus,
    /// `+:`
    PlusColon,
    /// `-:`
    MinusColon,
    /// `**`
    StarStar,
    /// `*`
    Star,
    /// `/`
    Slash,
    /// `%`
    Percent,
    /// `!`
    Bang,
    /// `~`
    Tilde,
    /// `&`
    Ampersand,
    /// `~&`
    TildeAmpersand,
    /// `|`
    Bar,
    /// `~|`
    TildeBar,
    /// `^`
    Caret,
    /// `~^` or `^~`
    TildeCaret,
    /// `<<`
    ShiftLeft,
    /// `>>`
    ShiftRight,
    /// `<<<`
    ArithmeticShiftLeft,
    /// `>>>`
    ArithmeticShiftRight,
    /// `<`
    Less,
    /// `<=`, in a comparison or before a nonblocking assignment's value
    LessEquals,
    /// `>`
    Greater,
    /// `>=`
    GreaterEquals,
    /// `==`
    EqualEquals,
    /// `!=`
    BangEquals,
    /// `===`
    CaseEquals,
    /// `!==`
    CaseBangEquals,
    /// `&&`
    AndAnd,
    /// `||`
    OrOr,
}

/// A token as the grammar sees it. Fields stand in the order of their size, which leaves no room between them.
#[derive(Clone, Copy, Debug)]
pub struct Terminal<'a> {
    /// Its slice of the text.
    pub text: &'a [u8],
    /// With a number's value. It is that of the token, since a value is large.
    pub kind: &'a Tok,
    /// Its place, in bytes from 0.
    pub at: u32,
    pub symbol: Symbol,
    /// A pragma directly after it says `full_case`.
    pub full: bool,
    /// A pragma directly after it says `parallel_case`.
    pub parallel: bool,
}
