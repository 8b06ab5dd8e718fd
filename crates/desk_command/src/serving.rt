// The command `serve PORT COUNT`.
ghost use Rattle.std.specs.Prelude.{◌≡◌, ◌≢◌, ◌≤◌, IfSome, ◌<◌};
ghost use Rattle.desk_io.specs.Causes.{Rose};
ghost use Rattle.desk_server.specs.Exchanges.{around};
ghost use Rattle.desk_command.specs.Statuses.{NO_DOOR, UNREAD, UNWRITTEN};
ghost use Rattle.desk_command.specs.Commands.{IsEnded, IsLinked, IsServed, taken_between};

use crate::ending::NO_DOOR;
use crate::starting::refuse;
use desk_core::Desk;
use desk_io::{Failed, Sink};
use desk_links::{Clock, Door};
use desk_server::serve_links;
use desk_tables::Keeper;
use desk_top::deliver::DONE;
use std::alloc::Global;

// Opens the door and serves so many links of it.
fn open<D: Door, K: Keeper, C: Clock>(
    alloc: Global,
    desk: &mut Desk,
    port: u16,
    count: u32,
    keeper: &mut K,
    door: &mut D,
    clock: &mut C,
) -> u8
    requires { IfSome (K.tables keeper.old) (λ held. held ≡ desk.old.kept) }
    ensures linked { IsLinked port count (D.visits door.old) (D.visits door.new) (D.faults door.old)
        (D.faults door.new) (around (C.days clock.old) (C.faults clock.old) (K.count keeper.old))
        (around (C.days clock.new) (C.faults clock.new) (K.count keeper.new)) result
        desk.old.kept desk.new.kept }
    ensures held { IfSome (K.tables keeper.new) (λ held. held ≡ desk.new.kept) }
    ensures read { result ≢ UNREAD }
    ensures written { result ≢ UNWRITTEN }
    ensures door_failed { D.faults door.old < D.faults door.new → result ≡ NO_DOOR }
    ensures later_door { D.faults door.old ≤ D.faults door.new }
{
    match door.listen(port) {
        Ok(()) => match serve_links(alloc, desk, keeper, door, clock, count) {
            Ok(()) => DONE,
            Err(Failed) => NO_DOOR,
        },
        Err(Failed) => NO_DOOR,
    }
}

/// Serves so many connections at a port, over the keeper's tables.
pub(crate) fn serve<K: Keeper, C: Clock, D: Door, S: Sink>(
    alloc: Global,
    port: u16,
    count: u32,
    keeper: &mut K,
    clock: &mut C,
    door: &mut D,
    out: &mut S,
) -> u8
    ensures served { IsServed port count (K.tables keeper.old) (K.tables keeper.new)
        (D.visits door.old) (D.visits door.new) (D.faults door.old) (D.faults door.new)
        (around (C.days clock.old) (C.faults clock.old) (K.count keeper.old))
        (around (C.days clock.new) (C.faults clock.new) (K.count keeper.new))
        result (taken_between (S.taken out.old) (S.taken out.new)) }
    ensures unwritten { result ≡ UNWRITTEN → Rose (S.faults out.old) (S.faults out.new) }
    ensures read { result ≢ UNREAD }
    ensures failed { S.faults out.old < S.faults out.new → result ≡ UNWRITTEN }
    ensures door_failed { D.faults door.old < D.faults door.new → result ≡ NO_DOOR }
    ensures later { S.faults out.old ≤ S.faults out.new }
    ensures later_door { D.faults door.old ≤ D.faults door.new }
{
    match Desk::start(alloc, keeper) {
        Ok(mut desk) => open(alloc, &mut desk, port, count, keeper, door, clock),
        Err(fault) => refuse(alloc, fault, out),
    }
}
