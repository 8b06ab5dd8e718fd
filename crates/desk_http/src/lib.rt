//! What the desk hears and says in HTTP/1.1: heads of requests, routes, bodies, and heads of replies.
#![tactic(auto)]

mod aim;
mod checks;
mod expect;
mod fault;
mod head;
mod host;
mod label;
mod lines;
mod place;
mod reply;
mod route;
mod waiver;

pub use checks::request;
pub use expect::CONTINUE;
pub use fault::BadRequest;
pub use head::{Head, HeadState, MAX_HEAD_BYTES, read_head};
pub use lines::MAX_BODY_BYTES;
pub use reply::{MAX_REPLY_HEAD_BYTES, NO_MEMORY, reply_head};
