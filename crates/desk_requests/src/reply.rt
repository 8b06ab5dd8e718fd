// Replies.

/// What the body of a reply is.
#[derive(Clone, Copy, PartialEq, Eq, Debug)]
pub enum BodyKind {
    Json,
    Plain,
}

/// The reply to a request.
#[derive(Drop)]
pub struct Reply {
    pub status: u16,
    pub kind: BodyKind,
    pub body: Vec<u8>,
}
