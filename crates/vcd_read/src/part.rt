//! What may stand at a place of a dump.

ghost use Rattle.std.specs.Prelude.{◌≡◌};
ghost use Rattle.vcd_read.specs.Keywords.{is_dump, keyword_of, opens_with, rare_keyword};

/// What the next word is among the declarations.
#[derive(Clone, Copy)]
pub(crate) enum Declaring {
    /// The keyword of a command.
    Command,
    /// Any, up to the end of a command.
    Passed,
    /// The end of a command.
    Closed,
    /// The end of the last command of the declarations.
    Last,
    ScopeKind,
    ScopeName,
    VariableType,
    /// The width, and whether the variable is skipped by its type.
    VariableWidth(bool),
    /// The code of a variable with this width; 0 where it is skipped.
    VariableCode(u8),
    /// The name of a variable with this width and this number of its code.
    VariableName(u8, u32),
}

/// What the next word is among the changes.
#[derive(Clone, Copy)]
pub(crate) enum Recording {
    /// A time or a change.
    Change,
    /// Any, up to the end of a comment.
    Comment,
    /// The code of a vector at this place, with so many bits.
    VectorCode(u32, u32),
    /// The code of a real number.
    RealCode,
}

/// What the next word is.
#[derive(Clone, Copy)]
pub(crate) enum Part {
    Declaring(Declaring),
    Recording(Recording),
}

/// What a keyword asks for.
#[derive(Clone, Copy)]
pub(crate) enum Keyword {
    Scope,
    Upscope,
    Var,
    EndDefinitions,
    Comment,
    /// Values follow, as they may anywhere among the changes.
    Dump,
    End,
    Other,
    /// It is no keyword.
    No,
}

/// Whether a text begins with a byte.
fn opens_with(byte: u8, text: &[u8]) -> bool
    ensures { result ≡ opens_with byte text.now }
{
    match text.first() {
        None => false,
        Some(first) => *first == byte,
    }
}

/// Whether values that are dumped stand behind a word.
fn is_dump(word: &[u8]) -> bool
    ensures { result ≡ is_dump word.now }
{
    word == b"$dumpvars".as_slice()
        || word == b"$dumpall".as_slice()
        || word == b"$dumpon".as_slice()
        || word == b"$dumpoff".as_slice()
}

/// What a word asks for that stands once or seldom.
fn rare_keyword(word: &[u8]) -> Keyword
    ensures { result ≡ rare_keyword word.now }
{
    if word == b"$enddefinitions".as_slice() {
        Keyword::EndDefinitions
    } else if word == b"$comment".as_slice() {
        Keyword::Comment
    } else if is_dump(word) {
        Keyword::Dump
    } else if opens_with(b'$', word) {
        Keyword::Other
    } else {
        Keyword::No
    }
}

/// What a word asks for.
pub(crate) fn keyword_of(word: &[u8]) -> Keyword
    ensures { result ≡ keyword_of word.now }
{
    if word == b"$end".as_slice() {
        Keyword::End
    } else if word == b"$var".as_slice() {
        Keyword::Var
    } else if word == b"$scope".as_slice() {
        Keyword::Scope
    } else if word == b"$upscope".as_slice() {
        Keyword::Upscope
    } else {
        rare_keyword(word)
    }
}
