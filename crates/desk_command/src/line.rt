// Where the program starts: the words of its command line.
ghost use Rattle.std.specs.Prelude.{◌≡◌, ◌≢◌, ◌≤◌, ◌<◌, ℕ, List, None, Some, IfErr, IfOk, IsSome, drop, true};
ghost use Rattle.std.specs.IoError.{error_kind};
ghost use Rattle.std.specs.Vec.Iter.{into_iter_items};
ghost use Rattle.desk_io.specs.Causes.{Rose};
ghost use Rattle.desk_server.specs.Exchanges.{around};
ghost use Rattle.desk_command.specs.Statuses.{DONE, NO_COMMAND, NO_DAY, NO_DOOR, NO_FILE};
ghost use Rattle.desk_command.specs.Statuses.{NO_MEMORY, UNKEPT, UNREAD, UNWRITTEN};
ghost use Rattle.desk_top.specs.Answers.{IsAnswered, IsSignedClean, OverWorld};
ghost use Rattle.desk_top.specs.Delivery.{Delivers};
ghost use Rattle.desk_top.specs.Outcome.{usage};
ghost use Rattle.desk_top.specs.Words.{is_sign, order as source_order, texts};
ghost use Rattle.desk_command.specs.Commands.{IsCommanded, IsLeft, taken_between};
ghost use Rattle.desk_command.specs.Words.{Report, order};

use crate::call::desk;
use desk_io::{Shelf, Sink};
use desk_links::{Clock, Door};
use desk_tables::Keeper;
use desk_top::deliver::{Ending, NO_MEMORY, deliver};
use desk_top::top::USAGE;
use std::alloc::{AllocError, Global};
use std::env::Args;
use std::io;
use std::io::ErrorKind;

/// Does what a command line says, and answers the exit status, as [`desk`] does. Arguments that
/// can't be read as text are no command.
pub fn start<F: Shelf, K: Keeper, C: Clock, D: Door, S: Sink>(
    alloc: Global,
    line: io::Result<Args>,
    shelf: &mut F,
    keeper: &mut K,
    clock: &mut C,
    door: &mut D,
    out: &mut S,
) -> u8
    // The words of the command are those of the command line, all but the first, in their order.
    ensures words { IfOk line (λ all. order (texts (drop 1 (into_iter_items all))) ≡ None
        → result ≢ NO_MEMORY → OverWorld (F.files shelf.old)
        (IsAnswered (texts (drop 1 (into_iter_items all))) result
        (S.taken out.old) (S.taken out.new))) }

    // The headline, of these words.
    ensures headline { IfOk line (λ all.
        is_sign (source_order (texts (drop 1 (into_iter_items all)))) ≡ true → result ≡ DONE
        → OverWorld (F.files shelf.old) (IsSignedClean (texts (drop 1 (into_iter_items all)))
        (S.taken out.old) (S.taken out.new))) }

    // The commands over the tables, of these words.
    ensures commands { IfOk line (λ all. IsCommanded (order (texts (drop 1 (into_iter_items all))))
        (K.tables keeper.old) (K.tables keeper.new)
        (D.visits door.old) (D.visits door.new) (D.faults door.old) (D.faults door.new)
        (around (C.days clock.old) (C.faults clock.old) (K.count keeper.old))
        (around (C.days clock.new) (C.faults clock.new) (K.count keeper.new))
        result (taken_between (S.taken out.old) (S.taken out.new))) }

    // Want of memory isn't taken for words that are none.
    ensures no_memory { IfErr line (λ error. error_kind error ≡ ErrorKind.OutOfMemory
        → result ≡ NO_MEMORY) }
    ensures no_text { IfErr line (λ error. error_kind error ≢ ErrorKind.OutOfMemory
        → Delivers (record { status = NO_COMMAND; bytes = usage }) result
        (S.taken out.old) (S.taken out.new)) }
    ensures no_line { IfErr line (λ _. IsLeft (K.tables keeper.old) (K.tables keeper.new)
        (D.visits door.old) (D.visits door.new) (D.faults door.old) (D.faults door.new)
        (around (C.days clock.old) (C.faults clock.old) (K.count keeper.old))
        (around (C.days clock.new) (C.faults clock.new) (K.count keeper.new))) }

    // Each failure has its cause.
    ensures unread { result ≡ UNREAD → Rose (F.faults shelf.old) (F.faults shelf.new) }
    ensures unwritten { result ≡ UNWRITTEN → Rose (S.faults out.old) (S.faults out.new) }
    ensures a_command { IfOk line (λ all. order (texts (drop 1 (into_iter_items all))) ≡ None
        → result ≡ UNREAD → IsSome (source_order (texts (drop 1 (into_iter_items all))))) }

    // No failure is passed over, as in `desk`.
    ensures read_failed { IsSome (F.files shelf.old)
        → F.faults shelf.old < F.faults shelf.new → result ≡ UNREAD }
    ensures untold_failed { F.faults shelf.old < F.faults shelf.new → result ≢ NO_FILE
        → result ≡ UNREAD }
    ensures write_failed { S.faults out.old < S.faults out.new → result ≡ UNWRITTEN }
    ensures load_failed { IfOk line (λ all. (top : List ℕ)
        → order (texts (drop 1 (into_iter_items all))) ≡ Some (Report top)
        → K.count keeper.old < K.count keeper.new → result ≡ UNKEPT) }
    ensures day_failed { IfOk line (λ all. (top : List ℕ)
        → order (texts (drop 1 (into_iter_items all))) ≡ Some (Report top)
        → C.faults clock.old < C.faults clock.new → result ≡ NO_DAY) }
    ensures door_failed { D.faults door.old < D.faults door.new → result ≡ NO_DOOR }
    ensures shelf_later { F.faults shelf.old ≤ F.faults shelf.new }
    ensures sink_later { S.faults out.old ≤ S.faults out.new }
{
    match line {
        Ok(all) => match words_of(alloc, all) {
            Ok(words) => desk(alloc, &words, shelf, keeper, clock, door, out),
            Err(AllocError) => NO_MEMORY,
        },
        Err(error) => match error.kind() {
            ErrorKind::OutOfMemory => NO_MEMORY,
            _ => deliver(Ending::NoCommand, USAGE, out),
        },
    }
}

// The words behind the program's name.
fn words_of(alloc: Global, line: Args) -> Result<Vec<String>, AllocError>
    ensures { IfOk result (λ words. words.items ≡ drop 1 (into_iter_items line)) }
{
    line.skip(1).collect(alloc)
}
