// The whole call: all that the program does.
ghost use Rattle.std.specs.Prelude.{◌≡◌, ◌≢◌, ◌≤◌, ◌<◌, ℕ, List, None, Some, true, IsSome};
ghost use Rattle.desk_io.specs.Causes.{Rose};
ghost use Rattle.desk_server.specs.Exchanges.{around};
ghost use Rattle.desk_top.specs.Answers.{IsAnswered, IsSignedClean, OverWorld};
ghost use Rattle.desk_command.specs.Statuses.{DONE, NO_DAY, NO_DOOR, NO_FILE, UNKEPT, UNREAD, UNWRITTEN};
ghost use Rattle.desk_top.specs.Delivery.{gave_up};
ghost use Rattle.desk_top.specs.Words.{is_sign, order as source_order, texts};
ghost use Rattle.desk_command.specs.Commands.{IsReported, IsServed, taken_between};
ghost use Rattle.desk_command.specs.Words.{Report, Serve, order};

use crate::report::report;
use crate::serving::serve;
use crate::words::{Command, read_command};
use desk_io::{Shelf, Sink};
use desk_links::{Clock, Door};
use desk_tables::Keeper;
use std::alloc::Global;

/// Does what the words of the command line say, and answers the exit status. The commands over
/// sources (`sign`, `simulate`, `replay`, `vcd`, `generate`) are those of [`desk_top::top::desk`],
/// with its statuses, and it answers words that are no command. `report TOP` answers 0 where each
/// finding of the first grade has a waiver that stands on the clock's day, 1 where one hasn't, 2
/// where the module has no design, and 7 where the clock failed. `serve PORT COUNT` answers 0 where
/// so many connections were served, and 8 where the door failed. Both migrate tables of version 1
/// before all else. They answer 6 where the keeper failed to load or to migrate them, 14 where a row of its tables breaks a rule, and 20 where memory ran out; 5 is answered
/// where a write failed.
pub fn desk<F: Shelf, K: Keeper, C: Clock, D: Door, S: Sink>(
    alloc: Global,
    words: &[String],
    shelf: &mut F,
    keeper: &mut K,
    clock: &mut C,
    door: &mut D,
    out: &mut S,
) -> u8
    // The commands over sources: what is answered and written, over the files that are told.
    ensures answer { order (texts words.now) ≡ None → OverWorld (F.files shelf.old)
        (IsAnswered (texts words.now) result (S.taken out.old) (S.taken out.new)) }

    ensures still { order (texts words.now) ≡ None → K.tables keeper.new ≡ K.tables keeper.old }
    ensures unvisited { order (texts words.now) ≡ None → D.visits door.new ≡ D.visits door.old }
    ensures unopened { order (texts words.now) ≡ None → D.faults door.new ≡ D.faults door.old }
    ensures unasked { order (texts words.now) ≡ None
        → around (C.days clock.new) (C.faults clock.new) (K.count keeper.new)
        ≡ around (C.days clock.old) (C.faults clock.old) (K.count keeper.old) }

    // The headline: what is signed clean shows in every simulation what its hardware shows.
    ensures headline { is_sign (source_order (texts words.now)) ≡ true → result ≡ DONE
        → OverWorld (F.files shelf.old)
        (IsSignedClean (texts words.now) (S.taken out.old) (S.taken out.new)) }

    // The commands over the tables. A served reply that signs a module clean has the headline too.
    ensures report { (top : List ℕ) → order (texts words.now) ≡ Some (Report top)
        → IsReported top (K.tables keeper.old) (K.tables keeper.new)
        (around (C.days clock.old) (C.faults clock.old) (K.count keeper.old))
        (around (C.days clock.new) (C.faults clock.new) (K.count keeper.new))
        result (taken_between (S.taken out.old) (S.taken out.new)) }
    ensures no_visits { (top : List ℕ) → order (texts words.now) ≡ Some (Report top)
        → D.visits door.new ≡ D.visits door.old }
    ensures no_door { (top : List ℕ) → order (texts words.now) ≡ Some (Report top)
        → D.faults door.new ≡ D.faults door.old }
    ensures served { (port count : ℕ) → order (texts words.now) ≡ Some (Serve port count)
        → IsServed port count (K.tables keeper.old) (K.tables keeper.new)
        (D.visits door.old) (D.visits door.new) (D.faults door.old) (D.faults door.new)
        (around (C.days clock.old) (C.faults clock.old) (K.count keeper.old))
        (around (C.days clock.new) (C.faults clock.new) (K.count keeper.new))
        result (taken_between (S.taken out.old) (S.taken out.new)) }

    // Each failure has its cause.
    ensures unread { result ≡ UNREAD → Rose (F.faults shelf.old) (F.faults shelf.new) }
    ensures unwritten { result ≡ UNWRITTEN → Rose (S.faults out.old) (S.faults out.new) }
    ensures a_command { order (texts words.now) ≡ None → gave_up result ≡ true
        → IsSome (source_order (texts words.now)) }

    // No failure is passed over. A shelf that tells nothing counts a missing file too. While links
    // are served, the clock and the keeper count nothing but what a reply of the status 503 says.
    ensures read_failed { IsSome (F.files shelf.old)
        → F.faults shelf.old < F.faults shelf.new → result ≡ UNREAD }
    ensures untold_failed { F.faults shelf.old < F.faults shelf.new → result ≢ NO_FILE
        → result ≡ UNREAD }
    ensures write_failed { S.faults out.old < S.faults out.new → result ≡ UNWRITTEN }
    ensures load_failed { (top : List ℕ) → order (texts words.now) ≡ Some (Report top)
        → K.count keeper.old < K.count keeper.new → result ≡ UNKEPT }
    ensures day_failed { (top : List ℕ) → order (texts words.now) ≡ Some (Report top)
        → C.faults clock.old < C.faults clock.new → result ≡ NO_DAY }
    ensures door_failed { D.faults door.old < D.faults door.new → result ≡ NO_DOOR }
    ensures shelf_later { F.faults shelf.old ≤ F.faults shelf.new }
    ensures sink_later { S.faults out.old ≤ S.faults out.new }
{
    match read_command(words) {
        Some(Command::Report { top }) => report(alloc, top, keeper, clock, out),
        Some(Command::Serve { port, count }) => {
            serve(alloc, port, count, keeper, clock, door, out)
        }
        None => desk_top::top::desk(alloc, words, shelf, out),
    }
}
