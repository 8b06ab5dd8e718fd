// How commands over the tables end.
ghost use Rattle.std.specs.Prelude.{◌≡◌, ◌≢◌, ◌≤◌, ◌<◌};
ghost use Rattle.desk_io.specs.Causes.{Rose};
ghost use Rattle.desk_top.specs.Delivery.{Delivers};
ghost use Rattle.desk_command.specs.Statuses.{UNREAD, UNWRITTEN};

use desk_io::{Failed, Sink};
use desk_top::deliver::{UNWRITTEN, write_whole};

// The exit status where the keeper of the tables failed.
pub(crate) const UNKEPT: u8 = 6;

// The exit status where the clock failed.
pub(crate) const NO_DAY: u8 = 7;

// The exit status where the door failed.
pub(crate) const NO_DOOR: u8 = 8;

// The exit status where a row of the tables breaks a rule.
pub(crate) const BAD_TABLES: u8 = 14;

// Writes these bytes, and answers this status, or [`UNWRITTEN`] where a write fails.
pub(crate) fn deliver<S: Sink>(status: u8, bytes: &[u8], out: &mut S) -> u8
    ensures delivers { status ≢ UNWRITTEN
        → Delivers (record { status = status; bytes = bytes.now }) result
        (S.taken out.old) (S.taken out.new) }
    ensures unwritten { result ≡ UNWRITTEN → status ≢ UNWRITTEN
        → Rose (S.faults out.old) (S.faults out.new) }
    ensures read { result ≡ UNREAD → status ≡ UNREAD }
    ensures failed { S.faults out.old < S.faults out.new → result ≡ UNWRITTEN }
    ensures later { S.faults out.old ≤ S.faults out.new }
{
    match write_whole(bytes, out) {
        Ok(()) => status,
        Err(Failed) => UNWRITTEN,
    }
}
