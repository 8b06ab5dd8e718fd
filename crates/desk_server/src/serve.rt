// How the links of a door are served.
ghost use Rattle.std.specs.Prelude.{◌≡◌, ◌≤◌, IfSome, OnErr, OnOk};
ghost use Rattle.desk_io.specs.Causes.{Rose};
ghost use Rattle.desk_links.specs.Doors.{Tells};
ghost use Rattle.desk_server.specs.Exchanges.{around};
ghost use Rattle.desk_server.specs.Servings.{ServesCount};

use crate::connection;
use desk_io::Failed;
use desk_links::{Clock, Door};
use desk_service::Service;
use desk_tables::Keeper;
use std::alloc::Global;

/// Serves so many links of a door, one after the other, and gives each back. It fails where the door
/// gives none, and then the links before that are served.
pub fn serve_links<S: Service, D: Door, K: Keeper, C: Clock>(
    alloc: Global,
    service: &mut S,
    keeper: &mut K,
    door: &mut D,
    clock: &mut C,
    count: u32,
) -> Result<(), Failed>
    requires { IfSome (K.tables keeper.old) (λ held. held ≡ S.kept service.old) }
    ensures serves { Tells (D.visits door.old) (D.visits door.new)
        (ServesCount S.serves count result
        (around (C.days clock.old) (C.faults clock.old) (K.count keeper.old))
        (around (C.days clock.new) (C.faults clock.new) (K.count keeper.new))
        (S.kept service.old) (S.kept service.new)) }
    ensures calm { OnOk result (D.faults door.new ≡ D.faults door.old) }
    ensures cause { OnErr result (Rose (D.faults door.old) (D.faults door.new)) }
    ensures held { IfSome (K.tables keeper.new) (λ held. held ≡ S.kept service.new) }
    ensures later { K.count keeper.old ≤ K.count keeper.new }
    ensures later_door { D.faults door.old ≤ D.faults door.new }
    ensures later_clock { C.faults clock.old ≤ C.faults clock.new }
{
    for _ in 0..count {
        let mut link = match door.next() {
            Ok(link) => link,
            Err(Failed) => return Err(Failed),
        };
        let _served = connection(alloc, service, keeper, &mut link, clock);
        door.ended(link);
    }
    Ok(())
}
