// Replies that refuse a request.
ghost use Rattle.std.specs.Prelude.{◌≡◌, IfOk};
ghost use Rattle.desk_bodies.specs.Refusals.{conflict_with, not_found, value_line, word_line};
ghost use Rattle.desk_requests.specs.Replies.{said};

use desk_json::push_bytes;
use desk_requests::{BodyKind, Reply};
use std::alloc::Global;
use text_ground::memory::Memory;

/// The tables stand against the request, for the reason that the word tells.
pub fn conflict(alloc: Global, word: &[u8]) -> Result<Reply, Memory>
    ensures { IfOk result (λ reply. said reply ≡ conflict_with (word_line word.now)) }
{
    let mut body = Vec::new(alloc);
    push_bytes(&mut body, word)?;
    push_bytes(&mut body, b"\n")?;
    Ok(Reply {
        status: 409,
        kind: BodyKind::Plain,
        body,
    })
}

/// The same, with a value of the word.
pub fn refused_with(alloc: Global, word: &[u8], value: &[u8]) -> Result<Reply, Memory>
    ensures { IfOk result (λ reply. said reply ≡ conflict_with (value_line word.now value.now)) }
{
    let mut body = Vec::new(alloc);
    push_bytes(&mut body, word)?;
    push_bytes(&mut body, b" ")?;
    push_bytes(&mut body, value)?;
    push_bytes(&mut body, b"\n")?;
    Ok(Reply {
        status: 409,
        kind: BodyKind::Plain,
        body,
    })
}

/// Nothing is under the name or the number.
pub fn not_found(alloc: Global) -> Result<Reply, Memory>
    ensures { IfOk result (λ reply. said reply ≡ not_found) }
{
    Ok(Reply {
        status: 404,
        kind: BodyKind::Plain,
        body: Vec::from_slice(alloc, b"Not Found\n")?,
    })
}
