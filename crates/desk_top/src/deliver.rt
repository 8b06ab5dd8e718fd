// How a command's work ends: an exit status, and bytes that are written to a sink.

ghost use Rattle.std.specs.Prelude.{◌≡◌, ◌≤◌, ◌<◌, length, false, OnOk, OnErr};
ghost use Rattle.std.specs.Io.KnownBytes.{Appends};
ghost use Rattle.desk_io.specs.Causes.{HasCause, Rose};
ghost use Rattle.desk_top.specs.declared.deliver.Stop.TheVariants.{Memory};
ghost use Rattle.desk_top.specs.Delivery.{Delivers, Finishes, FrontAppended, gave_up, status_of, stop_status};

use desk_io::{Failed, Sink};
use std::alloc::{AllocError, AllocFailed};
use text_ground::memory::Memory as NoMemory;

/// The exit status where the work was done: after `sign` the design is clean, after `simulate` each step came to rest,
/// after `replay` the two values differ, after `vcd` the dump agrees, after `generate` the design is ruled.
pub const DONE: u8 = 0;

/// The exit status where a rule of the first grade has a finding.
pub const OPEN: u8 = 1;

/// The exit status where the source is refused.
pub const REFUSED: u8 = 2;

/// The exit status where the words are no command.
pub const NO_COMMAND: u8 = 3;

/// The exit status where a read failed.
pub const UNREAD: u8 = 4;

/// The exit status where a write failed.
pub const UNWRITTEN: u8 = 5;

/// The exit status where a file isn't there or is too long.
pub const NO_FILE: u8 = 9;

/// The exit status where a demonstration shows no difference.
pub const NO_DIFFERENCE: u8 = 10;

/// The exit status where a step didn't come to rest within its budget.
pub const UNSETTLED: u8 = 11;

/// The exit status where the file of steps or of a demonstration has a line that is none.
pub const MALFORMED: u8 = 12;

/// The exit status where the design of a demonstration or of a dump has no netlist.
pub const NO_NETLIST: u8 = 13;

/// The exit status where a dump departs from what synthesis means.
pub const DEPARTED: u8 = 15;

/// The exit status where a dump can't be read or can't be compared.
pub const NO_DUMP: u8 = 16;

/// The exit status where memory ran out.
pub const NO_MEMORY: u8 = 20;

/// How work ends that was done.
#[derive(Clone, Copy, PartialEq, Eq, Debug)]
pub enum Ending {
    /// The design is clean.
    Clean,
    /// A rule of the first grade has a finding.
    Open,
    /// The source is refused.
    Refused,
    /// The words are no command.
    NoCommand,
    /// Each step of a simulation came to rest.
    Settled,
    /// A step didn't come to rest within its budget.
    Unsettled,
    /// The file of steps or of a demonstration has a line that is none.
    Malformed,
    /// A demonstration shows two values that differ.
    Shown,
    /// A demonstration shows no difference.
    Same,
    /// The design of a demonstration or of a dump has no netlist.
    NoNetlist,
    /// A dump agrees with what synthesis means.
    Agreed,
    /// It departs from that.
    Departed,
    /// It can't be read or can't be compared.
    NoDump,
    /// A generated design is ruled.
    Counted,
}

/// Why work was not done.
#[derive(Clone, Copy, PartialEq, Eq, Debug)]
pub enum Stop {
    /// A read failed.
    Unread,
    /// A file isn't there, or is too long.
    NoFile,
    /// Memory ran out.
    Memory,
}

impl From<AllocError> for Stop {
    ghost from_gives = { λ _ stop. stop ≡ Memory };

    fn from(_error: AllocError) -> Stop {
        Stop::Memory
    }
}

impl From<NoMemory> for Stop {
    ghost from_gives = { λ _ stop. stop ≡ Memory };

    fn from(_error: NoMemory) -> Stop {
        Stop::Memory
    }
}

impl<T: Drop> From<AllocFailed<T>> for Stop {
    ghost from_gives = { λ _ stop. stop ≡ Memory };

    fn from(_error: AllocFailed<T>) -> Stop {
        Stop::Memory
    }
}

/// Work that was done, with the bytes to be written.
#[derive(Drop)]
pub struct Work {
    pub ending: Ending,
    pub bytes: Vec<u8>,
}

impl Ending {
    /// The exit status.
    pub fn status(self) -> u8
        ensures { result ≡ status_of self }
    {
        match self {
            Ending::Clean => DONE,
            Ending::Open => OPEN,
            Ending::Refused => REFUSED,
            Ending::NoCommand => NO_COMMAND,
            Ending::Settled => DONE,
            Ending::Unsettled => UNSETTLED,
            Ending::Malformed => MALFORMED,
            Ending::Shown => DONE,
            Ending::Same => NO_DIFFERENCE,
            Ending::NoNetlist => NO_NETLIST,
            Ending::Agreed => DONE,
            Ending::Departed => DEPARTED,
            Ending::NoDump => NO_DUMP,
            Ending::Counted => DONE,
        }
    }
}

impl Stop {
    /// The exit status.
    pub fn status(self) -> u8
        ensures { result ≡ stop_status self }
    {
        match self {
            Stop::Unread => UNREAD,
            Stop::NoFile => NO_FILE,
            Stop::Memory => NO_MEMORY,
        }
    }
}

/// Writes what the work has to say, and answers the exit status.
pub fn finish<S: Sink>(work: Result<Work, Stop>, out: &mut S) -> u8
    ensures finishes { Finishes work result (S.taken out.old) (S.taken out.new) }
    ensures unwritten { result ≡ UNWRITTEN → Rose (S.faults out.old) (S.faults out.new) }
    ensures failed { S.faults out.old < S.faults out.new → result ≡ UNWRITTEN }
    ensures later { S.faults out.old ≤ S.faults out.new }
{
    match work {
        Ok(work) => deliver(work.ending, &work.bytes, out),
        Err(stop) => stop.status(),
    }
}

/// Writes these bytes, and answers the exit status of the ending, or [`UNWRITTEN`] where a write fails.
pub fn deliver<S: Sink>(ending: Ending, bytes: &[u8], out: &mut S) -> u8
    ensures done { gave_up result ≡ false }
    ensures delivers { Delivers (record { status = status_of ending; bytes = bytes.now }) result
        (S.taken out.old) (S.taken out.new) }
    ensures unwritten { result ≡ UNWRITTEN → Rose (S.faults out.old) (S.faults out.new) }
    ensures failed { S.faults out.old < S.faults out.new → result ≡ UNWRITTEN }
    ensures later { S.faults out.old ≤ S.faults out.new }
{
    match write_whole(bytes, out) {
        Ok(()) => ending.status(),
        Err(Failed) => UNWRITTEN,
    }
}

/// Writes until all the bytes are taken. At an error a front of them was.
pub fn write_whole<S: Sink>(bytes: &[u8], out: &mut S) -> Result<(), Failed>
    ensures whole { OnOk result (Appends (S.taken out.old) (S.taken out.new) bytes.now) }
    ensures front { FrontAppended (S.taken out.old) (S.taken out.new) bytes.now }
    ensures some_bytes { OnErr result (0 < length bytes.now) }
    ensures cause { HasCause (S.faults out.old) (S.faults out.new) result }
    ensures calm { OnOk result (S.faults out.new ≡ S.faults out.old) }
{
    let mut rest = bytes;
    while !rest.is_empty() {
        let count = out.write(rest)?;
        (_, rest) = rest.split_at(count);
    }
    Ok(())
}
