// How a reply is said on a link.
ghost use Rattle.std.specs.Prelude.{◌≡◌, ◌≤◌};
ghost use Rattle.desk_io.specs.Causes.{HasCause, Rose};
ghost use Rattle.desk_requests.specs.Replies.{said};
ghost use Rattle.desk_http.specs.Replies.{IsStatus};
ghost use Rattle.desk_server.specs.Connections.{IsDelivered};
ghost use Rattle.desk_server.specs.Exchanges.{reply_bytes, written_out};
ghost use Rattle.desk_server.specs.Hearing.{Says, SaysFront};

use crate::Served;
use desk_http::{MAX_REPLY_HEAD_BYTES, NO_MEMORY, reply_head};
use desk_io::Failed;
use desk_links::Link;
use desk_requests::Reply;

// The status of a reply that says that there is no memory.
const MEMORY_STATUS: u16 = 507;

// Says all of these bytes.
pub(crate) fn say<L: Link>(link: &mut L, bytes: &[u8]) -> Result<(), Failed>
    ensures front { SaysFront (L.talk link.old) (L.talk link.new) bytes.now result }
    ensures cause { HasCause (L.faults link.old) (L.faults link.new) result }
{
    let mut rest = bytes;
    while !rest.is_empty() {
        let count = match link.write(rest) {
            Ok(count) => count,
            Err(Failed) => return Err(Failed),
        };
        (_, rest) = rest.split_at(count);
    }
    Ok(())
}

// Says the head of a reply and its body.
fn say_both<L: Link>(link: &mut L, reply: &Reply) -> Result<(), Failed>
    requires { IsStatus reply.now.status }
    ensures front { SaysFront (L.talk link.old) (L.talk link.new) (written_out (said reply.now))
        result }
    ensures cause { HasCause (L.faults link.old) (L.faults link.new) result }
{
    let mut head = [0; MAX_REPLY_HEAD_BYTES];
    let count = reply_head(reply, &mut head);
    match say(link, &head[..count]) {
        Ok(()) => say(link, &reply.body),
        Err(Failed) => Err(Failed),
    }
}

// Says a reply.
fn say_reply<L: Link>(link: &mut L, reply: &Reply) -> Result<(), Failed>
    requires { IsStatus reply.now.status }
    ensures front { SaysFront (L.talk link.old) (L.talk link.new) (reply_bytes (said reply.now))
        result }
    ensures cause { HasCause (L.faults link.old) (L.faults link.new) result }
{
    if reply.status == MEMORY_STATUS {
        say(link, NO_MEMORY)
    } else {
        say_both(link, reply)
    }
}

// Gives a reply, or a front of it where a call of the link fails.
pub(crate) fn give<L: Link>(link: &mut L, reply: &Reply) -> Served
    requires { IsStatus reply.now.status }
    ensures delivered { Says (L.talk link.old) (L.talk link.new)
        (IsDelivered result (L.faults link.old) (L.faults link.new) (said reply.now)) }
    ensures dropped { result ≡ Served.Dropped → Rose (L.faults link.old) (L.faults link.new) }
    ensures later { L.faults link.old ≤ L.faults link.new }
{
    match say_reply(link, reply) {
        Ok(()) => Served::Replied(reply.status),
        Err(Failed) => Served::Dropped,
    }
}
