// Replies that are no answer of the machine, and plain ones.
ghost use Rattle.std.specs.Prelude.{◌≡◌, IfOk};
ghost use Rattle.desk_requests.specs.Replies.{said};
ghost use Rattle.desk_service.specs.Service.{no_memory, plainly, unavailable};

use desk_requests::{BodyKind, Reply};
use std::alloc::Global;
use text_ground::memory::Memory;

pub(crate) fn plainly(status: u16, body: Vec<u8>) -> Reply
    ensures { said result ≡ plainly status body.items }
{
    Reply {
        status,
        kind: BodyKind::Plain,
        body,
    }
}

// The keeper failed.
pub(crate) fn unavailable(alloc: Global) -> Result<Reply, Memory>
    ensures { IfOk result (λ reply. said reply ≡ unavailable) }
{
    Ok(plainly(503, Vec::from_slice(alloc, b"Service Unavailable\n")?))
}

// There is no memory, and this takes none.
pub(crate) fn no_memory(alloc: Global) -> Reply
    ensures { said result ≡ no_memory }
{
    plainly(507, Vec::new(alloc))
}
