// The desk as the server sees it.
ghost use Rattle.desk_core.specs.Serving.{ServesRightly};

use crate::Desk;
use desk_requests::{Reply, Request};
use desk_service::Service;
use desk_tables::{Day, Keeper};

impl Service for Desk {
    ghost kept = { λ desk. desk.kept };

    ghost serves = { λ request today faults faults' kept kept' answer.
        ServesRightly request today faults faults' kept kept' answer };

    fn reply<K: Keeper>(&mut self, keeper: &mut K, request: &Request, today: Day) -> Reply {
        self.serve(keeper, request, today)
    }
}
