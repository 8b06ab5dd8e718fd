// What of a text has no meaning in the design.

/// What has no meaning.
#[derive(Clone, Copy, PartialEq, Eq, Debug)]
pub enum DropKind {
    /// An `initial` construct.
    Initial,
    /// What stands between the pragmas `translate_off` and `translate_on`.
    TranslateOff,
    /// A comment that other tools take for a pragma, and that tells the desk nothing.
    Comment,
}

/// A region that is dropped, or a comment that tells nothing.
#[derive(Clone, Copy, PartialEq, Eq, Debug)]
pub struct Dropped {
    pub kind: DropKind,
    /// The place of its first token.
    pub at: u32,
}
