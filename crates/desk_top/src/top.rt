// The top call: all that the program does.

ghost use Rattle.std.specs.Prelude.{◌≡◌, ◌≢◌, ◌≤◌, ◌<◌, Some, true, IsSome};
ghost use Rattle.desk_io.specs.Causes.{Rose};
ghost use Rattle.desk_top.specs.declared.deliver.TheConstants.{DONE, NO_FILE, UNREAD, UNWRITTEN};
ghost use Rattle.desk_top.specs.Answers.{IsAnswered, IsSignedClean, OverWorld};
ghost use Rattle.desk_top.specs.Commands.{IsWithin, order_of};
ghost use Rattle.desk_top.specs.Delivery.{gave_up, IsCalmWork, IsWork};
ghost use Rattle.desk_top.specs.Outcome.{IsDone};
ghost use Rattle.desk_top.specs.Words.{is_sign, order, texts};

use crate::deliver::{Ending, deliver, finish};
use crate::generate::generate;
use crate::replay::replay;
use crate::sign::sign;
use crate::simulate::simulate;
use crate::stream::perform;
use crate::vcd::vcd;
use crate::words::{Command, read_command};
use desk_io::{Shelf, Sink};
use std::alloc::Global;

/// What is written where the words are no command.
pub const USAGE: &[u8] =
    b"usage: desk sign TOP FILE.. | simulate TOP STEPS FILE.. | replay TOP DEMO FILE.. | vcd TOP SCOPE DUMP FILE.. | serve PORT COUNT | report TOP | generate N\n";

/// Does what the words of the command line say, with the files of a shelf, writes to a sink, and answers the exit
/// status: 0 where the module is signed clean, where each step of a simulation came to rest, where a demonstration
/// shows two values that differ, where a dump agrees, or where a generated design is ruled; 1 where a rule of the first
/// grade has a finding, 2 where the source is refused, 3 where the words are no command, 4 where a read failed, 5 where
/// a write failed, 9 where a file isn't there or is too long, 10 where a demonstration shows no difference, 11 where a
/// step didn't come to rest within its budget, 12 where a line of the steps or of the demonstration is none, 13 where
/// the design of a demonstration or of a dump has no netlist, 15 where a dump departs from what synthesis means, 16
/// where it can't be read or can't be compared, and 20 where memory ran out.
pub fn desk<F: Shelf, S: Sink>(alloc: Global, words: &[String], shelf: &mut F, out: &mut S) -> u8
    // What is answered and written, over the files that are told, or over some files.
    ensures answer { OverWorld (F.files shelf.old)
        (IsAnswered (texts words.now) result (S.taken out.old) (S.taken out.new)) }

    // The headline: what is signed clean shows in every simulation what its hardware shows.
    ensures headline { is_sign (order (texts words.now)) ≡ true → result ≡ DONE
        → OverWorld (F.files shelf.old)
        (IsSignedClean (texts words.now) (S.taken out.old) (S.taken out.new)) }

    // Each failure has its cause.
    ensures unread { result ≡ UNREAD → Rose (F.faults shelf.old) (F.faults shelf.new) }
    ensures unwritten { result ≡ UNWRITTEN → Rose (S.faults out.old) (S.faults out.new) }
    ensures a_command { gave_up result ≡ true → IsSome (order (texts words.now)) }

    // No failure is passed over. A shelf that tells nothing counts a missing file too.
    ensures read_failed { IsSome (F.files shelf.old) → F.faults shelf.old < F.faults shelf.new
        → result ≡ UNREAD }
    ensures untold_failed { F.faults shelf.old < F.faults shelf.new → result ≢ NO_FILE
        → result ≡ UNREAD }
    ensures write_failed { S.faults out.old < S.faults out.new → result ≡ UNWRITTEN }
    ensures shelf_later { F.faults shelf.old ≤ F.faults shelf.new }
    ensures sink_later { S.faults out.old ≤ S.faults out.new }
{
    match read_command(words) {
        None => deliver(Ending::NoCommand, USAGE, out),
        Some(Command::Sign { top, files }) => finish(sign(alloc, top, files, shelf), out),
        Some(Command::Simulate { top, steps, files }) => {
            perform(alloc, simulate(alloc, top, steps, files, shelf), out)
        }
        Some(Command::Replay { top, demo, files }) => {
            finish(replay(alloc, top, demo, files, shelf), out)
        }
        Some(
            Command::Vcd {
                top,
                scope,
                dump,
                files,
            },
        ) => finish(vcd(alloc, top, scope, dump, files, shelf), out),
        Some(Command::Generate { stages }) => finish(generate(alloc, stages), out),
    }
}
