// What serves requests.
ghost use Rattle.std.specs.Prelude.{◌≡◌, ◌≤◌, IfSome, true};
ghost use Rattle.desk_tables.specs.Tables.{Kept};
ghost use Rattle.desk_requests.specs.Replies.{said};
ghost use Rattle.desk_service.specs.Service.{IsShort, Serving, is_answered};

use desk_requests::{Reply, Request};
use desk_tables::{Day, Keeper};

/// What serves requests over the tables that a keeper holds.
pub trait Service {
    /// The tables, as it keeps them.
    ghost kept: { Self → Kept };

    /// What it does with a request.
    ghost serves: { Serving };

    /// The reply to a request on a day. What is accepted is made in the keeper's tables.
    fn reply<K: Keeper>(&mut self, keeper: &mut K, request: &Request, today: Day) -> Reply
        requires held { IfSome (K.tables keeper.old) (λ held. held ≡ kept self.old) }
        requires short { IsShort request.now.ask }
        ensures served { serves request.now today (K.count keeper.old) (K.count keeper.new)
            (kept self.old) (kept self.new) (said result) }
        ensures held { IfSome (K.tables keeper.new) (λ held. held ≡ kept self.new) }
        ensures later { K.count keeper.old ≤ K.count keeper.new }
        ensures status { is_answered (said result).status ≡ true };
}
