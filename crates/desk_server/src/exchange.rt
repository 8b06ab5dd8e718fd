// What is answered on a connection.
ghost use Rattle.std.specs.Prelude.{◌≡◌, ◌≤◌, ◌⊎◌, ℕ, List, Err, IfNone, IfSome};
ghost use Rattle.desk_io.specs.Causes.{Rose};
ghost use Rattle.desk_tables.specs.Tables.{Kept};
ghost use Rattle.desk_requests.specs.Replies.{said};
ghost use Rattle.desk_http.specs.Replies.{IsStatus};
ghost use Rattle.desk_service.specs.Service.{IsShort, no_memory, plainly};
ghost use Rattle.desk_server.specs.Connections.{IsConnected, OverTalk};
ghost use Rattle.desk_server.specs.Exchanges.{Around, Asks, IsAsked, IsReply, around};
ghost use Rattle.desk_server.specs.Hearing.{IsHeard};

use crate::give::give;
use crate::hear::{Unheard, hear_request};
use desk_http::BadRequest;
use desk_io::Failed;
use desk_links::{Clock, Link};
use desk_requests::{BodyKind, Reply, Request};
use desk_service::Service;
use desk_tables::Keeper;
use std::alloc::Global;

/// How a connection ended.
#[derive(Clone, Copy, Debug, PartialEq, Eq)]
pub enum Served {
    /// The whole reply was written. It has this status.
    Replied(u16),
    /// A call of the link failed.
    Dropped,
}

// The reply where there is no memory. It takes none.
fn no_memory(alloc: Global) -> Reply
    ensures reply { said result ≡ no_memory }
    ensures status { IsStatus result.status }
{
    Reply {
        status: 507,
        kind: BodyKind::Plain,
        body: Vec::new(alloc),
    }
}

// A line that is answered, or the want of memory for it.
fn line_reply(alloc: Global, status: u16, line: &[u8]) -> Reply
    requires { IsStatus status }
    ensures reply { (said result ≡ plainly status line.now) ⊎ (said result ≡ no_memory) }
    ensures status { IsStatus result.status }
{
    match Vec::from_slice(alloc, line) {
        Ok(body) => Reply {
            status,
            kind: BodyKind::Plain,
            body,
        },
        Err(_) => no_memory(alloc),
    }
}

// The reply to a request that isn't served.
fn fault_reply<S: Service>(alloc: Global, fault: BadRequest) -> Reply
    ensures reply { (input : List ℕ) (around : Around) (kept : Kept)
        → IsHeard (Err (Unheard.Refused fault)) input
        → IsReply S.serves input around around kept kept (said result) }
    ensures status { IsStatus result.status }
{
    match fault {
        BadRequest::Memory => no_memory(alloc),
        _ => line_reply(alloc, fault.status(), fault.line()),
    }
}

// The reply where no request was heard; none where a call of the link failed.
fn refusal_of<S: Service>(alloc: Global, unheard: Unheard) -> Option<Reply>
    ensures reply { IfSome result (λ reply. (input : List ℕ) (around : Around) (kept : Kept)
        → IsHeard (Err unheard) input → IsReply S.serves input around around kept kept
        (said reply)) }
    ensures status { IfSome result (λ reply. IsStatus reply.status) }
    ensures some { IfSome result (λ _. ¬ (unheard ≡ Unheard.Failed)) }
    ensures none { IfNone result (unheard ≡ Unheard.Failed) }
{
    match unheard {
        Unheard::Refused(fault) => Some(fault_reply::<S>(alloc, fault)),
        Unheard::TooLong => Some(line_reply(alloc, 413, b"Payload Too Large\n")),
        Unheard::Failed => None,
    }
}

// The reply to a request on the day that the clock gives.
fn serve_today<S: Service, K: Keeper, C: Clock>(
    alloc: Global,
    service: &mut S,
    keeper: &mut K,
    clock: &mut C,
    request: &Request,
) -> Reply
    requires held { IfSome (K.tables keeper.old) (λ held. held ≡ S.kept service.old) }
    requires short { IsShort request.now.ask }
    ensures reply { (input : List ℕ) → IsAsked input (Asks request.now)
        → IsReply S.serves input
        (around (C.days clock.old) (C.faults clock.old) (K.count keeper.old))
        (around (C.days clock.new) (C.faults clock.new) (K.count keeper.new))
        (S.kept service.old) (S.kept service.new) (said result) }
    ensures status { IsStatus result.status }
    ensures held { IfSome (K.tables keeper.new) (λ held. held ≡ S.kept service.new) }
    ensures later { K.count keeper.old ≤ K.count keeper.new }
    ensures later_clock { C.faults clock.old ≤ C.faults clock.new }
{
    match clock.today() {
        Ok(today) => service.reply(keeper, request, today),
        Err(Failed) => line_reply(alloc, 503, b"Service Unavailable\n"),
    }
}

/// Hears one request on a link, and says the reply; before that it tells a request that waits to go
/// on with its body. A request that isn't served gets a refusal of status 400, 404 or 413; where the
/// clock fails the reply is a 503, and where memory is wanting a 507. Where a call of the link fails
/// the connection is dropped, and what the request changed stays.
pub fn connection<S: Service, L: Link, K: Keeper, C: Clock>(
    alloc: Global,
    service: &mut S,
    keeper: &mut K,
    link: &mut L,
    clock: &mut C,
) -> Served
    requires { IfSome (K.tables keeper.old) (λ held. held ≡ S.kept service.old) }
    ensures connected { OverTalk (L.talk link.old) (L.talk link.new) (λ input written.
        IsConnected S.serves input written (L.faults link.old) (L.faults link.new)
        (around (C.days clock.old) (C.faults clock.old) (K.count keeper.old))
        (around (C.days clock.new) (C.faults clock.new) (K.count keeper.new))
        (S.kept service.old) (S.kept service.new) result) }
    ensures dropped { result ≡ Served.Dropped → Rose (L.faults link.old) (L.faults link.new) }
    ensures held { IfSome (K.tables keeper.new) (λ held. held ≡ S.kept service.new) }
    ensures later { K.count keeper.old ≤ K.count keeper.new }
    ensures later_link { L.faults link.old ≤ L.faults link.new }
    ensures later_clock { C.faults clock.old ≤ C.faults clock.new }
{
    match hear_request(alloc, link) {
        Ok(request) => give(link, &serve_today(alloc, service, keeper, clock, &request)),
        Err(unheard) => match refusal_of::<S>(alloc, unheard) {
            Some(reply) => give(link, &reply),
            None => Served::Dropped,
        },
    }
}
