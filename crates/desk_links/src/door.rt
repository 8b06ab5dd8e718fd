// A door that clients come through, as the desk sees it.
ghost use Rattle.std.specs.Prelude.{◌≡◌, ℕ, Option, IfOk, OnErr, OnOk};
ghost use Rattle.desk_io.specs.Causes.{HasCause};
ghost use Rattle.desk_links.specs.Doors.{GivesLink, IsSameVisits, Opens, TakesLink, Tells, Visits};

mod memory;
mod tcp;

use crate::link::Link;
use desk_io::Failed;
pub(crate) use memory::Chain;
pub use memory::MemoryDoor;
pub use tcp::TcpDoor;

/// What clients come through, one after the other, and a count of the faults that this met.
pub trait Door {
    /// A link to a client.
    type L: Link + Drop;

    /// The ports at which it was opened, the links that it gave and those that were given back,
    /// where the door tells them.
    ghost visits: { Self → Option Visits };

    /// How many calls have failed. It stops at the last value of a `u64`.
    ghost faults: { Self → ℕ };

    /// Opens the door at a port of this machine.
    fn listen(&mut self, port: u16) -> Result<(), Failed>
        ensures opens { Tells (visits self.old) (visits self.new) (Opens port result) }
        ensures cause { HasCause (faults self.old) (faults self.new) result }
        ensures calm { OnOk result (faults self.new ≡ faults self.old) };

    /// A link to the next client, of which nothing was read.
    fn next(&mut self) -> Result<Self::L, Failed>
        ensures gives { IfOk result (λ link. Tells (visits self.old) (visits self.new)
            (GivesLink (Self.L.talk link) (Self.L.faults link))) }
        ensures unharmed { IfOk result (λ link. Self.L.faults link ≡ 0) }
        ensures same { OnErr result (Tells (visits self.old) (visits self.new) IsSameVisits) }
        ensures cause { HasCause (faults self.old) (faults self.new) result }
        ensures calm { OnOk result (faults self.new ≡ faults self.old) };

    /// Takes a link back. It can't fail.
    fn ended(&mut self, link: Self::L)
        ensures takes { Tells (visits self.old) (visits self.new)
            (TakesLink (Self.L.talk link) (Self.L.faults link)) }
        ensures count { faults self.new ≡ faults self.old };
}
